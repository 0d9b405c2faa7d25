// 51: each BAR and open window lies in the window above of its own pool, or on the root bus in that pool of the host; or, where it is
// asked of the address space, in any window above or pool of its space.
#![tactic(auto)]

ghost use Rattle.std.specs.Prelude.{◌≡◌, false, ◌*◌, ◌≤◌, length};
ghost use Rattle.lists.specs.Lists.{any};
ghost use Rattle.sheet_record.specs.Places.{record_size};
ghost use Rattle.sheet_record.specs.Entry.{entry_of};
ghost use Rattle.sheet.specs.declared.Rule.TheVariants.{ReadBacks};
ghost use Rattle.sheet.specs.Sheet.{breaks, entries_of};
ghost use Rattle.sheet.proofs.SheetLaws.{Checked};
ghost use Rattle.sheet_above.specs.Parents.{parent_of};
ghost use Rattle.sheet_above.specs.Table.{Leads};
ghost use Rattle.sheet_ranges.specs.Items.{range_of, ranges_in};
ghost use Rattle.audit_rule.specs.Audit.{ranges_above, group_of, inside, outside_all, outside_above as outside_above_of, not_nested};

use audit_rule::Nesting;
use board_record::Host;
use sheet_above::Parent;
use sheet_ranges::Item;

// Some range of a checked sheet lies in none of those above it.
pub fn not_nested(nesting: Nesting, host: Host, sheet: &[u8], table: &[u16]) -> bool
    requires { Checked sheet.now × Leads (entries_of sheet.now) table.now }
    ensures { result ≡ not_nested nesting host (entries_of sheet.now) }
{
    let mut own = [0u64; sheet_ranges::ROOM];
    let mut above = [0u64; sheet_ranges::ROOM];
    for k in 0..sheet::count(sheet) {
        if outside_above(
            nesting,
            host,
            sheet,
            table,
            sheet::part(sheet, k),
            &mut own,
            &mut above,
        ) {
            return true;
        }
    }
    false
}

// Of the function with this part. Its ranges and those above are decoded into the two rooms.
fn outside_above(
    nesting: Nesting,
    host: Host,
    sheet: &[u8],
    table: &[u16],
    part: &[u8],
    own: &mut [u64],
    above: &mut [u64],
) -> bool
    requires { Checked sheet.now × Leads (entries_of sheet.now) table.now × (length part.now ≡ record_size)
        × (breaks ReadBacks (entry_of part.now) ≡ false) × (18 ≤ length own.old) × (18 ≤ length above.old) }
    ensures { result ≡ outside_above_of nesting host (entries_of sheet.now) (entry_of part.now) }
{
    let n = sheet_ranges::ranges_of(part, own);
    let m = ranges_above(host, sheet, table, sheet_record::bus_of(part), above);
    any_outside(nesting, own, n, above, m)
}

// What the ranges of a bus's functions may lie in. Under no one bridge that is nothing.
pub fn ranges_above(host: Host, sheet: &[u8], table: &[u16], bus: u8, room: &mut [u64]) -> usize
    requires { Checked sheet.now × Leads (entries_of sheet.now) table.now × (18 ≤ length room.old) }
    ensures { (ranges_in result room.new ≡ ranges_above host (parent_of host.first_bus (entries_of sheet.now) bus)) × (result ≤ 6) }
{
    match sheet_above::parent_in(table, host.first_bus, bus) {
        Parent::Host => sheet_ranges::pools_of(host, room),
        Parent::Bridge(k) => sheet_ranges::windows_of(sheet::part(sheet, k), room),
        Parent::Nothing => 0,
        Parent::Several => 0,
    }
}

// ---- ranges

// What its pool is compared by: low and high memory are one space.
fn group(nesting: Nesting, a: Item) -> u64
    ensures { result ≡ group_of nesting (range_of a).pool }
{
    match nesting {
        Nesting::OfKind => a.pool % 4,
        Nesting::OfSpace => (a.pool % 4 + 1) / 2,
    }
}

// Of the same pool or space, and no address of it is outside.
fn is_inside(nesting: Nesting, a: Item, outer: Item) -> bool
    ensures { result ≡ inside nesting (range_of a) (range_of outer) }
{
    (group(nesting, a) == group(nesting, outer))
        & ((outer.first <= a.first) & (a.last <= outer.last))
}

// It lies in one of m ranges.
pub fn is_inside_any(nesting: Nesting, a: Item, above: &[u64], m: usize) -> bool
    requires { 3 * m ≤ length above.now }
    ensures { result ≡ any (inside nesting (range_of a)) (ranges_in m above.now) }
{
    for j in 0..m {
        if is_inside(nesting, a, sheet_ranges::item_at(above, j)) {
            return true;
        }
    }
    false
}

// One of n ranges lies in none of m others.
fn any_outside(nesting: Nesting, own: &[u64], n: usize, above: &[u64], m: usize) -> bool
    requires { (3 * n ≤ length own.now) × (3 * m ≤ length above.now) }
    ensures { result ≡ any (outside_all nesting (ranges_in m above.now)) (ranges_in n own.now) }
{
    for i in 0..n {
        if !is_inside_any(nesting, sheet_ranges::item_at(own, i), above, m) {
            return true;
        }
    }
    false
}
