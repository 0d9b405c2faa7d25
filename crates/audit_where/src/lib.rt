// Who fails an audit: the audit's number, and for 24 to 29 and 50 to 52 the first record at which that check fails, its place, and the
// other one that it meets. It is asked of a sheet that is refused, so it goes by the plainest loops.
#![tactic(auto)]

ghost use Rattle.std.specs.Prelude.{◌≡◌, false, not, ℕ, ◌*◌, ◌<◌, ◌≤◌, length};
ghost use Rattle.board_record.specs.declared.Host as hosts;
ghost use Rattle.board_record.specs.Host.{host_of_part};
ghost use Rattle.sheet_record.specs.Entry.{entry_of};
ghost use Rattle.sheet_record.specs.Places.{record_size};
ghost use Rattle.sheet.specs.declared.Rule.TheVariants.{ReadBacks};
ghost use Rattle.sheet.specs.Sheet.{Framed, entries_of, breaks};
ghost use Rattle.sheet.proofs.SheetLaws.{Checked};
ghost use Rattle.audit_rule.specs.Audit.{audit_number};
ghost use Rattle.sheet_ranges.specs.Ranges.{ranges_of};
ghost use Rattle.sheet_above.specs.Table.{Leads};
ghost use Rattle.sheet_ranges.specs.Items.{ranges_in};
ghost use Rattle.finding.specs.Places.{party_at};
ghost use Rattle.audit_finding.specs.declared.Check.TheVariants.{Whole, Tree, Places};
ghost use Rattle.audit_finding.specs.Finding.{check_of, first_failing, finding_of};
ghost use Rattle.audit_finding.specs.Spots.{spot_at, record_of};
ghost use Rattle.audit_met.specs.Met.{IsNumber};
ghost use Rattle.audit_where.specs.Under.{HasParent, outside_in};

use audit_finding::Relation;
use audit_rule::Nesting;
use board_record::Host;
use finding::{Finding, NOBODIES, NOBODY, Parties, Party, Wrong};
use sheet_above::Parent;
use sheet_where::Own;

// Any bytes.
pub fn audit_where(host: &[u8], sheet: &[u8]) -> Finding
    ensures { result ≡ finding_of host.now sheet.now }
{
    let number = auditor::audit(host, sheet);
    let Parties { party, other } = parties(number, host, sheet);
    Finding {
        number,
        party,
        other,
    }
}

// Who fails the check that the audit's number is about.
fn parties(number: u8, host: &[u8], sheet: &[u8]) -> Parties
    requires { number ≡ audit_number host.now sheet.now }
    ensures { result ≡ first_failing (check_of number) (host_of_part host.now) (entries_of sheet.now) }
{
    if number < 50 {
        return own_parties(number, sheet);
    }
    under_parties(number, board_record::host_of(host), sheet)
}

// By the sheet's own checks. Nobody where the number is not about a record.
fn own_parties(number: u8, sheet: &[u8]) -> Parties
    requires { (number < 50) × ((check_of number ≡ Whole → ⊥) → Framed 1 sheet.now) }
    ensures { (h : hosts.Host) → result ≡ first_failing (check_of number) h (entries_of sheet.now) }
{
    match number {
        24 => sheet_where::first_failing(Own::HeaderType, sheet),
        25 => sheet_where::first_failing(Own::ReadBacks, sheet),
        27 => sheet_where::first_failing(Own::Buses, sheet),
        28 => sheet_where::first_failing(Own::Ids, sheet),
        29 => sheet_where::first_failing(Own::Nibbles, sheet),
        _ => NOBODIES,
    }
}

// By the checks of a sheet that passes its own, with the table of the bridges that lead to each bus.
fn under_parties(number: u8, host: Host, sheet: &[u8]) -> Parties
    requires { (50 ≤ number) × Checked sheet.now }
    ensures { result ≡ first_failing (check_of number) host (entries_of sheet.now) }
{
    let mut table = [0u16; sheet_above::BUSES];
    sheet_above::leaders(sheet, &mut table);
    parties_by(&table, number, host, sheet)
}

fn parties_by(table: &[u16], number: u8, host: Host, sheet: &[u8]) -> Parties
    requires { (50 ≤ number) × Checked sheet.now × Leads (entries_of sheet.now) table.now }
    ensures { result ≡ first_failing (check_of number) host (entries_of sheet.now) }
{
    match number {
        50 => sheet_where::first_wrong(sheet, |k| tree_spot(host, sheet, table, k)),
        51 => sheet_where::first_wrong(sheet, |k| place_spot(host, sheet, table, k)),
        52 => sheet_where::first_wrong(sheet, |k| overlap_where::overlap_spot(sheet, k)),
        _ => NOBODIES,
    }
}

// ---- 50

// Sentence by sentence: the first record's bus, a parent, the buses above, the siblings.
fn tree_spot(host: Host, sheet: &[u8], table: &[u16], k: usize) -> Option<Wrong>
    requires { Checked sheet.now × Leads (entries_of sheet.now) table.now × (k < length (entries_of sheet.now)) }
    ensures { result ≡ spot_at Tree host (entries_of sheet.now) (record_of sheet.now k) }
{
    let part = sheet::part(sheet, k);
    let bus = sheet_record::bus_of(part);
    if (k == 0) & (bus != host.first_bus) {
        return Some(Wrong::at(10));
    }
    if !has_parent(host.first_bus, table, bus) {
        return Some(Wrong {
            place: 10,
            other: bridge(audit_met::first_met(Relation::Leads, sheet, k)),
        });
    }
    if audit_tree::way_up_wrong(host, sheet, table, part) {
        return Some(Wrong::at(9));
    }
    let number = audit_met::first_met(Relation::SharedBuses, sheet, k)?;
    Some(Wrong {
        place: 9,
        other: Party { number, place: 9 },
    })
}

// On the root bus, or on one that exactly one bridge leads to.
fn has_parent(root: u8, table: &[u16], bus: u8) -> bool
    requires { length table.now ≡ 256 }
    ensures { HasParent table.now root bus result }
{
    matches!(
        sheet_above::parent_in(table, root, bus),
        Parent::Host | Parent::Bridge(_)
    )
}

// The bus registers of the record with this number, and nobody where there is none.
fn bridge(number: Option<usize>) -> Party
    ensures { (n : ℕ) → IsNumber number n → result ≡ party_at n 9 }
{
    match number {
        Some(number) => Party { number, place: 9 },
        None => NOBODY,
    }
}

// ---- 51

fn place_spot(host: Host, sheet: &[u8], table: &[u16], k: usize) -> Option<Wrong>
    requires { Checked sheet.now × Leads (entries_of sheet.now) table.now × (k < length (entries_of sheet.now)) }
    ensures { result ≡ spot_at Places host (entries_of sheet.now) (record_of sheet.now k) }
{
    let part = sheet::part(sheet, k);
    let mut own = [0u64; sheet_ranges::ROOM];
    let mut above = [0u64; sheet_ranges::ROOM];
    let n = sheet_ranges::ranges_of(part, &mut own);
    let m = audit_nested::ranges_above(host, sheet, table, sheet_record::bus_of(part), &mut above);
    first_outside(part, &own, n, &above, m)
}

// The n ranges are those of the record with this part: the first that lies in none of the m others.
fn first_outside(part: &[u8], own: &[u64], n: usize, above: &[u64], m: usize) -> Option<Wrong>
    requires { (length part.now ≡ record_size) × (breaks ReadBacks (entry_of part.now) ≡ false) × (3 * n ≤ length own.now)
        × (3 * m ≤ length above.now) × (ranges_in n own.now ≡ ranges_of (entry_of part.now)) }
    ensures { (number : ℕ) → result ≡ outside_in (ranges_in m above.now) (record { number = number; entry = entry_of part.now }) }
{
    for i in 0..n {
        if !audit_nested::is_inside_any(Nesting::OfKind, sheet_ranges::item_at(own, i), above, m) {
            return Some(Wrong::at(range_place::place_of(part, i)));
        }
    }
    None
}
