// Another firmware's sheet checked for a host record: the number of the first check that fails, or 0 where the sheet is accepted; and the
// same with 51 asked of the address space, 0 where every address has one owner.
#![tactic(auto)]

ghost use Rattle.std.specs.Prelude.{◌≡◌};
ghost use Rattle.sheet.specs.Sheet.{entries_of};
ghost use Rattle.sheet.proofs.SheetLaws.{Checked};
ghost use Rattle.sheet_above.specs.Table.{Leads};
ghost use Rattle.audit_rule.specs.Audit.{from50, number_by, audit_number, sound_number};
ghost use Rattle.auditor.specs.Checks.{fails as fails_of};

use audit_rule::Nesting;
use board_record::Host;

// The checks of a sheet under a host: its buses are a tree (50), BARs and open windows are nested (51), and disjoint on each bus (52).
#[derive(Clone, Copy)]
pub enum Check {
    Tree,
    Nested,
    Disjoint,
}

// Any bytes: the host record first, then the sheet by itself, then the sheet under the host.
pub fn audit(host: &[u8], sheet: &[u8]) -> u8
    ensures { result ≡ audit_number host.now sheet.now }
{
    judge(Nesting::OfKind, host, sheet)
}

// The same, where a memory BAR or window may lie in any memory window above, and on the root bus in either memory pool.
pub fn sound(host: &[u8], sheet: &[u8]) -> u8
    ensures { result ≡ sound_number host.now sheet.now }
{
    judge(Nesting::OfSpace, host, sheet)
}

fn judge(nesting: Nesting, host: &[u8], sheet: &[u8]) -> u8
    ensures { result ≡ number_by nesting host.now sheet.now }
{
    if host.len() != board_record::HOST_LENGTH {
        return 20;
    }
    let h = board_record::host_of(host);
    if board_record::host_wrong(h) {
        return 26;
    }
    let n = sheet::check(sheet);
    if n != 0 {
        return n;
    }
    judge_checked(nesting, h, sheet)
}

// 50 to 52, of a sheet that passes its own checks.
fn judge_checked(nesting: Nesting, host: Host, sheet: &[u8]) -> u8
    requires { Checked sheet.now }
    ensures { result ≡ from50 nesting host (entries_of sheet.now) }
{
    let mut table = [0u16; sheet_above::BUSES];
    sheet_above::leaders(sheet, &mut table);
    if fails(Check::Tree, nesting, host, sheet, &table) {
        return 50;
    }
    if fails(Check::Nested, nesting, host, sheet, &table) {
        return 51;
    }
    if fails(Check::Disjoint, nesting, host, sheet, &table) {
        return 52;
    }
    0
}

// The sheet fails the check, told by the table of its leaders. One function for the three: with each one's own name an edit that swaps two
// of them would be refused for a name that is missing, and not for a fact.
fn fails(check: Check, nesting: Nesting, host: Host, sheet: &[u8], table: &[u16]) -> bool
    requires { Checked sheet.now × Leads (entries_of sheet.now) table.now }
    ensures { result ≡ fails_of check nesting host (entries_of sheet.now) }
{
    match check {
        Check::Tree => audit_tree::not_tree(host, sheet, table),
        Check::Nested => audit_nested::not_nested(nesting, host, sheet, table),
        Check::Disjoint => audit_disjoint::not_disjoint(sheet),
    }
}
