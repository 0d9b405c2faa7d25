// 50: the buses of a checked sheet under a host, by the table of the bridges that lead to them.
#![tactic(auto)]

ghost use Rattle.std.specs.Prelude.{◌≡◌, ◌&&◌, not, ◌+◌, ◌<◌, length};
ghost use Rattle.lists.specs.Lists.{any};
ghost use Rattle.sheet_record.specs.Places.{record_size};
ghost use Rattle.sheet_record.specs.Entry.{bus, bridges, entry_of};
ghost use Rattle.sheet.specs.Sheet.{Framed, entries_from, entries_of, part_at, record_at};
ghost use Rattle.sheet.proofs.SheetLaws.{Checked};
ghost use Rattle.sheet_above.specs.Parents.{parent_of};
ghost use Rattle.sheet_above.specs.Table.{Leads};
ghost use Rattle.audit_rule.specs.Audit.{any_pair, first_elsewhere, buses_in, parent_wrong, way_up_wrong, buses_shared, not_tree};

use board_record::Host;
use sheet_above::Parent;

// The first record's bus, then every function's way up, then the bridges of each bus.
pub fn not_tree(host: Host, sheet: &[u8], table: &[u16]) -> bool
    requires { Checked sheet.now × Leads (entries_of sheet.now) table.now }
    ensures { result ≡ not_tree host (entries_of sheet.now) }
{
    first_elsewhere(host.first_bus, sheet)
        || any_way_up_wrong(host, sheet, table)
        || any_buses_shared(sheet)
}

fn first_elsewhere(root: u8, sheet: &[u8]) -> bool
    requires { Framed 1 sheet.now }
    ensures { result ≡ first_elsewhere root (entries_of sheet.now) }
{
    sheet::count(sheet) != 0 && sheet_record::bus_of(sheet::part(sheet, 0)) != root
}

// ---- the way up

fn any_way_up_wrong(host: Host, sheet: &[u8], table: &[u16]) -> bool
    requires { Checked sheet.now × Leads (entries_of sheet.now) table.now }
    ensures { result ≡ any (way_up_wrong host (entries_of sheet.now)) (entries_of sheet.now) }
{
    for k in 0..sheet::count(sheet) {
        if way_up_wrong(host, sheet, table, sheet::part(sheet, k)) {
            return true;
        }
    }
    false
}

// Of the function with this part.
pub fn way_up_wrong(host: Host, sheet: &[u8], table: &[u16], part: &[u8]) -> bool
    requires { Checked sheet.now × Leads (entries_of sheet.now) table.now × (length part.now ≡ record_size) }
    ensures { result ≡ way_up_wrong host (entries_of sheet.now) (entry_of part.now) }
{
    parent_wrong(host.first_bus, sheet, table, part)
        || buses_outside(host.first_bus, host.last_bus, part)
}

// No parent, or a bridge's buses not all among its parent's.
fn parent_wrong(root: u8, sheet: &[u8], table: &[u16], part: &[u8]) -> bool
    requires { Checked sheet.now × Leads (entries_of sheet.now) table.now × (length part.now ≡ record_size) }
    ensures { result ≡ parent_wrong (parent_of root (entries_of sheet.now) (bus (entry_of part.now))) (entry_of part.now) }
{
    match sheet_above::parent_in(table, root, sheet_record::bus_of(part)) {
        Parent::Host => false,
        Parent::Bridge(k) => {
            let above = sheet::part(sheet, k);
            buses_outside(
                sheet_record::secondary_of(above),
                sheet_record::subordinate_of(above),
                part,
            )
        }
        Parent::Nothing => true,
        Parent::Several => true,
    }
}

// A bridge that leads to a bus before the first of these or after the last.
fn buses_outside(first: u8, last: u8, part: &[u8]) -> bool
    requires { length part.now ≡ record_size }
    ensures { result ≡ (bridges (entry_of part.now) && not (buses_in first last (entry_of part.now))) }
{
    if !sheet_record::is_bridge(part) {
        return false;
    }
    !((first <= sheet_record::secondary_of(part)) & (sheet_record::subordinate_of(part) <= last))
}

// ---- each two bridges of one bus

// Where the buses of each bus's bridges rise, one pass tells that they share none.
fn any_buses_shared(sheet: &[u8]) -> bool
    requires { Framed 1 sheet.now }
    ensures { result ≡ any_pair buses_shared (entries_of sheet.now) }
{
    !audit_rising::buses_rise(sheet) && shared_by_pairs(sheet)
}

fn shared_by_pairs(sheet: &[u8]) -> bool
    requires { Framed 1 sheet.now }
    ensures { result ≡ any_pair buses_shared (entries_of sheet.now) }
{
    for k in 0..sheet::count(sheet) {
        if shared_with_later(sheet, k) {
            return true;
        }
    }
    false
}

// Record k with a later one. A function that is no bridge shares nothing.
fn shared_with_later(sheet: &[u8], k: usize) -> bool
    requires { Framed 1 sheet.now × (k < length (entries_of sheet.now)) }
    ensures { result ≡ any (buses_shared (entry_of (part_at sheet.now k))) (entries_from sheet.now (record_at (k + 1))) }
{
    let part = sheet::part(sheet, k);
    if !sheet_record::is_bridge(part) {
        return false;
    }
    for j in k + 1..sheet::count(sheet) {
        if buses_shared(part, sheet::part(sheet, j)) {
            return true;
        }
    }
    false
}

// The bus is looked at first: most pairs are of two buses.
pub fn buses_shared(part: &[u8], other: &[u8]) -> bool
    requires { (length part.now ≡ record_size) × (length other.now ≡ record_size) }
    ensures { result ≡ buses_shared (entry_of part.now) (entry_of other.now) }
{
    if sheet_record::bus_of(part) != sheet_record::bus_of(other) {
        return false;
    }
    if !(sheet_record::is_bridge(part) & sheet_record::is_bridge(other)) {
        return false;
    }
    (sheet_record::secondary_of(part) <= sheet_record::subordinate_of(other))
        & (sheet_record::secondary_of(other) <= sheet_record::subordinate_of(part))
}
