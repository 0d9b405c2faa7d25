// 52: on each bus all BARs and open windows of one space are disjoint, enabled or not. One pass tells so of ranges that rise, another of
// most others. Where neither does, each record's ranges are compared among themselves, then with those of every later record on its bus.
#![tactic(auto)]

ghost use Rattle.std.specs.Prelude.{◌≡◌, false, ◌+◌, ◌-◌, ◌*◌, ◌≤◌, ◌<◌, eqb, length, get_or};
ghost use Rattle.lists.specs.Lists.{any};
ghost use Rattle.sheet_record.specs.Places.{id_at, record_size};
ghost use Rattle.sheet_record.specs.Entry.{entry_of};
ghost use Rattle.sheet.specs.declared.Rule.TheVariants.{ReadBacks};
ghost use Rattle.sheet.specs.Sheet.{breaks, part_at, record_at, entries_from, entries_of};
ghost use Rattle.sheet.proofs.SheetLaws.{Checked};
ghost use Rattle.sheet_ranges.specs.Ranges.{overlap as overlap_of, space_number};
ghost use Rattle.sheet_ranges.specs.Items.{range_of, ranges_from, ranges_in};
ghost use Rattle.audit_rule.specs.Audit.{any_pair, any_overlap, not_disjoint as not_disjoint_of};
ghost use Rattle.audit_disjoint.specs.Disjoint.{overlaps_on, overlaps_at};

use sheet_ranges::Item;
use sheet_record::places;

// Some two of a checked sheet's ranges are of one bus and one space, and overlap.
pub fn not_disjoint(sheet: &[u8]) -> bool
    requires { Checked sheet.now }
    ensures { result ≡ not_disjoint_of (entries_of sheet.now) }
{
    if audit_rising::ranges_rise(sheet) {
        return false;
    }
    if audit_spans::ranges_disjoint(sheet) {
        return false;
    }
    overlaps_by_pairs(sheet)
}

fn overlaps_by_pairs(sheet: &[u8]) -> bool
    requires { Checked sheet.now }
    ensures { result ≡ not_disjoint_of (entries_of sheet.now) }
{
    for k in 0..sheet::count(sheet) {
        if overlaps_at(sheet, k) {
            return true;
        }
    }
    false
}

// Record k's ranges among themselves, or with those of a later record on its bus.
fn overlaps_at(sheet: &[u8], k: usize) -> bool
    requires { Checked sheet.now × (k < length (entries_of sheet.now)) }
    ensures { result ≡ overlaps_at (entry_of (part_at sheet.now k)) (entries_from sheet.now (record_at (k + 1))) }
{
    let part = sheet::part(sheet, k);
    let mut own = [0u64; sheet_ranges::ROOM];
    let n = sheet_ranges::ranges_of(part, &mut own);
    if any_pair(&own, n) {
        return true;
    }
    meets_later(sheet, k + 1, sheet_record::bus_of(part), &own, n)
}

// The n ranges overlap those of a record from this one on that is on the bus.
fn meets_later(sheet: &[u8], from: usize, bus: u8, own: &[u64], n: usize) -> bool
    requires { Checked sheet.now × (3 * n ≤ length own.now) }
    ensures { result ≡ any (overlaps_on bus (ranges_in n own.now)) (entries_from sheet.now (record_at from)) }
{
    let mut room = [0u64; sheet_ranges::ROOM];
    for j in from..sheet::count(sheet) {
        if meets(sheet::part(sheet, j), bus, own, n, &mut room) {
            return true;
        }
    }
    false
}

// By the byte of its bus, and nothing else of it: what a disabled function has counts too.
fn is_on(part: &[u8], bus: u8) -> bool
    requires { length part.now ≡ record_size }
    ensures { result ≡ eqb bus (get_or part.now id_at 0) }
{
    bus == part[places::ID]
}

// The record is on the bus, and one of its ranges, decoded into the room, overlaps one of the n.
fn meets(part: &[u8], bus: u8, own: &[u64], n: usize, room: &mut [u64]) -> bool
    requires { (length part.now ≡ record_size) × (breaks ReadBacks (entry_of part.now) ≡ false) × (3 * n ≤ length own.now)
        × (18 ≤ length room.old) }
    ensures { result ≡ overlaps_on bus (ranges_in n own.now) (entry_of part.now) }
{
    if !is_on(part, bus) {
        return false;
    }
    let m = sheet_ranges::ranges_of(part, room);
    any_overlap(own, n, room, m)
}

// ---- ranges

// Low and high memory are one space.
fn space(a: Item) -> u64
    ensures { result ≡ space_number (range_of a).pool }
{
    (a.pool % 4 + 1) / 2
}

// Of one space, and each starts before the other ends.
pub fn overlap(a: Item, b: Item) -> bool
    ensures { result ≡ overlap_of (range_of a) (range_of b) }
{
    (space(a) == space(b)) & ((a.first <= b.last) & (b.first <= a.last))
}

// It overlaps one of m ranges, from this one on.
fn overlaps_any(a: Item, others: &[u64], from: usize, m: usize) -> bool
    requires { 3 * m ≤ length others.now }
    ensures { result ≡ any (overlap_of (range_of a)) (ranges_from others.now from (m - from)) }
{
    for j in from..m {
        if overlap(a, sheet_ranges::item_at(others, j)) {
            return true;
        }
    }
    false
}

// One of n ranges overlaps one of m others.
fn any_overlap(own: &[u64], n: usize, others: &[u64], m: usize) -> bool
    requires { (3 * n ≤ length own.now) × (3 * m ≤ length others.now) }
    ensures { result ≡ any_overlap (ranges_in n own.now) (ranges_in m others.now) }
{
    for i in 0..n {
        if overlaps_any(sheet_ranges::item_at(own, i), others, 0, m) {
            return true;
        }
    }
    false
}

// One of n ranges overlaps a later one.
fn any_pair(own: &[u64], n: usize) -> bool
    requires { 3 * n ≤ length own.now }
    ensures { result ≡ any_pair overlap_of (ranges_in n own.now) }
{
    for i in 0..n {
        if overlaps_any(sheet_ranges::item_at(own, i), own, i + 1, n) {
            return true;
        }
    }
    false
}
