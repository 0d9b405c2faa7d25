// What the C boundary's calls do that tell who fails an audit, and what does not fit of a board. Each returns the number, and puts numbers
// into the slice: the record and its place, the other record and its place; of a board also the buses and the bytes of each pool that it
// needs, and the alignment of a base of each, which a slice without room for it does without. They are there where the number is a refusal's
// too. Otherwise a slice that is too short stays, and a number that is 0 becomes 11.
#![tactic(auto)]

ghost use Rattle.std.specs.Prelude.{◌≡◌, cond, ◌+◌, ◌≤◌, eqb, length};
ghost use Rattle.std.proofs.lemmas.List.Edits.{sets};
ghost use Rattle.audit_finding.specs.Finding.{finding_of};
ghost use Rattle.plan_where.specs.Finding.{plan_finding_of};
ghost use Rattle.capi_where.specs.Calls.{who_number, who_filled, party_numbers, need_numbers, align_numbers, plan_numbers};
ghost use Rattle.capi_where.specs.Calls.{plan_number, plan_filled};

use finding::Party;
use plan_needs::Needs;
use plan_where::PlanFinding;

// How many numbers the answers have: of an audit; of a board, without the alignments and with them.
pub const WHO: usize = 4;

pub const WHO_OF_BOARD: usize = 8;

pub const WITH_ALIGNMENTS: usize = 11;

pub fn audit_where(host: &[u8], sheet: &[u8], who: &mut [u64]) -> u32
    ensures value { result ≡ who_number (finding_of host.now sheet.now) who.old }
    ensures who_after { who.new ≡ who_filled (finding_of host.now sheet.now) who.old }
{
    let found = audit_where::audit_where(host, sheet);
    if who.len() < WHO {
        return short_number(found.number);
    }
    let party = found.party;
    let other = found.other;
    put_party(who, 0, party);
    put_party(who, 2, other);
    found.number as u32
}

pub fn plan_where(board: &[u8], who: &mut [u64]) -> u32
    ensures value { result ≡ plan_number (plan_finding_of board.now) who.old }
    ensures who_after { who.new ≡ plan_filled (plan_finding_of board.now) who.old }
{
    let found = plan_where::plan_where(board);
    let room = who.len();
    if room < WHO_OF_BOARD {
        return short_number(found.number);
    }
    put_plan(who, found);
    if room < WITH_ALIGNMENTS {
        return found.number as u32;
    }
    let needs = found.needs;
    put_aligns(who, 8, needs);
    found.number as u32
}

// Who fails, and what is needed.
fn put_plan(who: &mut [u64], found: PlanFinding)
    requires { 8 ≤ length who.old }
    ensures { who.new ≡ sets who.old 0 (plan_numbers found) }
{
    let party = found.party;
    let other = found.other;
    let needs = found.needs;
    put_party(who, 0, party);
    put_party(who, 2, other);
    put_needs(who, 4, needs);
}

// A slice too short is 11, tried last.
fn short_number(number: u8) -> u32
    ensures { result ≡ cond (eqb number 0) 11 number }
{
    if number == 0 {
        return 11;
    }
    number as u32
}

// Two numbers at an index, four, and three.
fn put_party(who: &mut [u64], at: usize, p: Party)
    requires { at + 2 ≤ length who.old }
    ensures { who.new ≡ sets who.old at (party_numbers p) }
{
    who[at] = p.number as u64;
    who[at + 1] = p.place as u64;
}

fn put_needs(who: &mut [u64], at: usize, n: Needs)
    requires { at + 4 ≤ length who.old }
    ensures { who.new ≡ sets who.old at (need_numbers n) }
{
    who[at] = n.buses as u64;
    who[at + 1] = n.low;
    who[at + 2] = n.high;
    who[at + 3] = n.io;
}

fn put_aligns(who: &mut [u64], at: usize, n: Needs)
    requires { at + 3 ≤ length who.old }
    ensures { who.new ≡ sets who.old at (align_numbers n) }
{
    who[at] = n.low_align;
    who[at + 1] = n.high_align;
    who[at + 2] = n.io_align;
}
