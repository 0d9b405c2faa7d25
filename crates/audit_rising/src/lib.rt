// 50 and 52 told in one pass where all is in order: where the ranges of each bus and pool rise from record to record, as in every planned
// sheet, no two overlap, and where the buses of each bus's bridges rise, no two share one. Where they do not, these passes tell nothing.
#![tactic(auto)]

ghost use Rattle.std.specs.Prelude.{◌≡◌, true, false, [], ◌∷◌, map, ◌*◌, ◌≤◌, ◌<◌, length};
ghost use Rattle.sheet_record.specs.Places.{record_size};
ghost use Rattle.sheet_record.specs.Entry.{entry_of};
ghost use Rattle.sheet.specs.declared.Rule.TheVariants.{ReadBacks};
ghost use Rattle.sheet.specs.Sheet.{Framed, breaks, entries_of};
ghost use Rattle.sheet.proofs.SheetLaws.{Checked};
ghost use Rattle.sheet_ranges.specs.Items.{range_of, ranges_in};
ghost use Rattle.audit_rule.specs.Audit.{any_pair, buses_shared, not_disjoint};
ghost use Rattle.audit_rising.specs.Rising.{Takes, spot};
ghost use Rattle.audit_rising.specs.Spots.{sided, key_of, spot_of, spots_of, buses_of};

use sheet_ranges::Item;

// A table has at each key the first number that is not yet taken.
const BUSES: usize = 256;

const POOLS: usize = 768;

// Fewer records are sooner told otherwise than a table is made.
const FEW: usize = 16;

// Where low memory ends and high memory starts.
const EDGE: u64 = 4294967296;

// Above all that pools hold, so that one more than a last number is a number.
const LIMIT: u64 = 4611686018427387904;

// Whether the ranges of each bus and pool rise.
pub fn ranges_rise(sheet: &[u8]) -> bool
    requires { Checked sheet.now }
    ensures { result ≡ true → not_disjoint (entries_of sheet.now) ≡ false }
{
    if sheet::count(sheet) < FEW {
        return false;
    }
    let mut table = [0u64; POOLS];
    take_records(sheet, &mut table)
}

// Whether the buses of each bus's bridges rise.
pub fn buses_rise(sheet: &[u8]) -> bool
    requires { Framed 1 sheet.now }
    ensures { result ≡ true → any_pair buses_shared (entries_of sheet.now) ≡ false }
{
    if sheet::count(sheet) < FEW {
        return false;
    }
    let mut table = [0u64; BUSES];
    take_bridges(sheet, &mut table)
}

// ---- ranges

fn take_records(sheet: &[u8], table: &mut [u64]) -> bool
    requires { Checked sheet.now × (length table.old ≡ 768) }
    ensures { result ≡ true → not_disjoint (entries_of sheet.now) ≡ false }
{
    let mut room = [0u64; sheet_ranges::ROOM];
    for k in 0..sheet::count(sheet) {
        if !take_record(table, sheet::part(sheet, k), &mut room) {
            return false;
        }
    }
    true
}

// A function's ranges are decoded into the room.
fn take_record(table: &mut [u64], part: &[u8], room: &mut [u64]) -> bool
    requires { (length table.old ≡ 768) × (length part.now ≡ record_size) × (breaks ReadBacks (entry_of part.now) ≡ false)
        × (18 ≤ length room.old) }
    ensures { result ≡ true → Takes table.old (spots_of (entry_of part.now)) table.new }
{
    let n = sheet_ranges::ranges_of(part, room);
    take_ranges(table, sheet_record::bus_of(part), room, n)
}

// n ranges of a function on this bus.
fn take_ranges(table: &mut [u64], bus: u8, own: &[u64], n: usize) -> bool
    requires { (length table.old ≡ 768) × (3 * n ≤ length own.now) }
    ensures { result ≡ true → Takes table.old (map (spot_of bus) (ranges_in n own.now)) table.new }
{
    for i in 0..n {
        if !take_range(table, bus, sheet_ranges::item_at(own, i)) {
            return false;
        }
    }
    true
}

fn take_range(table: &mut [u64], bus: u8, a: Item) -> bool
    requires { length table.old ≡ 768 }
    ensures { result ≡ true → Takes table.old (spot_of bus (range_of a) ∷ []) table.new }
{
    if !is_sided(a) {
        return false;
    }
    take(table, key_of(bus, a), a.first, a.last)
}

// Low and high memory are one space: each on its side, they are apart.
pub fn is_sided(a: Item) -> bool
    ensures { result ≡ sided (range_of a) }
{
    let pool = a.pool % 4;
    ((pool != 1) | (a.last < EDGE)) & ((pool != 2) | (EDGE <= a.first))
}

// A key for each bus and pool.
pub fn key_of(bus: u8, a: Item) -> usize
    ensures { (result ≡ key_of bus (range_of a)) × (result < 768) }
{
    (a.pool % 4 % 3) as usize * BUSES + bus as usize
}

// ---- buses

fn take_bridges(sheet: &[u8], table: &mut [u64]) -> bool
    requires { Framed 1 sheet.now × (length table.old ≡ 256) }
    ensures { result ≡ true → any_pair buses_shared (entries_of sheet.now) ≡ false }
{
    for k in 0..sheet::count(sheet) {
        if !take_buses(table, sheet::part(sheet, k)) {
            return false;
        }
    }
    true
}

// What a bridge leads to. Another function takes nothing.
fn take_buses(table: &mut [u64], part: &[u8]) -> bool
    requires { (length table.old ≡ 256) × (length part.now ≡ record_size) }
    ensures { result ≡ true → Takes table.old (buses_of (entry_of part.now)) table.new }
{
    if !sheet_record::is_bridge(part) {
        return true;
    }
    let first = u64::from(sheet_record::secondary_of(part));
    take(
        table,
        usize::from(sheet_record::bus_of(part)),
        first,
        u64::from(sheet_record::subordinate_of(part)),
    )
}

// ---- one range

// Takes it under its key. It is false where the range starts below the end of one that was taken there.
fn take(table: &mut [u64], key: usize, first: u64, last: u64) -> bool
    requires { key < length table.old }
    ensures { result ≡ true → Takes table.old (spot key first last true ∷ []) table.new }
{
    if (first < table[key]) | (last < first) | (LIMIT <= last) {
        return false;
    }
    table[key] = last + 1;
    true
}
