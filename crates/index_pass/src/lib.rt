// The owners of an accepted sheet put into an index, as slots. Each of four passes over the records puts those of one segment of the keys
// behind those that are there: low memory, high memory, I/O, IDs.
#![tactic(auto)]

ghost use Rattle.std.specs.Prelude.{◌≡◌, false, ◌&&◌, ◌+◌, ◌<◌, ◌≤◌, leb, ltb, length};
ghost use Rattle.pools.specs.Pools.{in_space};
ghost use Rattle.bar.specs.Bar.{any_bad};
ghost use Rattle.sheet_record.specs.Places.{record_size};
ghost use Rattle.sheet_record.specs.Entry.{entry_of};
ghost use Rattle.sheet_record.specs.Spaces.{slots_of, bars_of};
ghost use Rattle.sheet.specs.Sheet.{entries_of};
ghost use Rattle.sheet_above.specs.Bridges.{BusTree};
ghost use Rattle.index_rule.specs.Owners.{exponent_of};
ghost use Rattle.index_layout.specs.Places.{index_size, most_slots};
ghost use Rattle.index_layout.specs.Keys.{no_key};
ghost use Rattle.index_layout.specs.Words.{word_limit};
ghost use Rattle.index_slots.specs.Slots.{placed};
ghost use Rattle.index_pass.specs.Pass.{slots_below, pass_slots, Fits, record_slots, bar_slots, bar_in, all_on};

use bar::Slot;
use pools::{Pool, Space};
use sheet_above::Bridges;

// Addresses of a space, from `first` on and before `end`, and the key of address 0.
#[derive(Clone, Copy)]
pub struct Segment {
    pub space: Space,
    pub first: u64,
    pub end: u64,
    pub base: u64,
}

// The owners that a pass puts in: the BARs that start in a segment, or the IDs.
#[derive(Clone, Copy)]
pub enum Pass {
    Bars(Segment),
    Ids,
}

const LOW_MEMORY: Segment = Segment {
    space: Space::Memory,
    first: 0,
    end: index_layout::LOW_END,
    base: 0,
};

const HIGH_MEMORY: Segment = Segment {
    space: Space::Memory,
    first: index_layout::LOW_END,
    end: index_layout::MEMORY_END,
    base: 0,
};

const IO: Segment = Segment {
    space: Space::Io,
    first: 0,
    end: index_layout::IO_SIZE,
    base: index_layout::IO_BASE,
};

// All owners, into an index of n functions with no slots: how many there are.
pub fn put_owners(index: &mut [u8], n: usize, sheet: &[u8], table: &[u16], root: u8) -> usize
    requires { BusTree sheet.now table.now root × (n ≡ length (entries_of sheet.now)) × (index_size n ≤ length index.old) }
    ensures { (index.new ≡ placed 0 n (slots_below root sheet.now) index.old)
        × (result ≡ length (slots_below root sheet.now)) }
{
    let low = put_pass(index, n, 0, Pass::Bars(LOW_MEMORY), sheet, table, root);
    let high = put_pass(index, n, low, Pass::Bars(HIGH_MEMORY), sheet, table, root);
    let io = put_pass(index, n, high, Pass::Bars(IO), sheet, table, root);
    put_pass(index, n, io, Pass::Ids, sheet, table, root)
}

// How many slots there are then.
fn put_pass(
    index: &mut [u8],
    n: usize,
    count: usize,
    pass: Pass,
    sheet: &[u8],
    table: &[u16],
    root: u8,
) -> usize
    requires { BusTree sheet.now table.now root × Fits pass × (count + length (pass_slots pass root sheet.now) ≤ most_slots n)
        × (index_size n ≤ length index.old) }
    ensures { (index.new ≡ placed count n (pass_slots pass root sheet.now) index.old)
        × (result ≡ count + length (pass_slots pass root sheet.now)) }
{
    let mut at = count;
    for k in 0..sheet::count(sheet) {
        let part = sheet::part(sheet, k);
        let bridges = sheet_above::bridges_above(sheet, table, root, sheet_record::bus_of(part));
        at = put_record(index, n, at, pass, part, bridges, k + 1);
    }
    at
}

// ---- one record

// Of the function with this number, below these bridges.
fn put_record(
    index: &mut [u8],
    n: usize,
    count: usize,
    pass: Pass,
    part: &[u8],
    bridges: Bridges,
    number: usize,
) -> usize
    requires { (length part.now ≡ record_size) × (any_bad (slots_of (entry_of part.now)) ≡ false) × Fits pass × (number ≤ 65535)
        × (count + length (record_slots pass bridges number part.now) ≤ most_slots n) × (index_size n ≤ length index.old) }
    ensures { (index.new ≡ placed count n (record_slots pass bridges number part.now) index.old)
        × (result ≡ count + length (record_slots pass bridges number part.now)) }
{
    let end = index_layout::word_end(bridges.count, number);
    match pass {
        Pass::Bars(g) => {
            let space = g.space;
            if sheet_record::is_enabled(part, space) & all_on(bridges, space) {
                return put_bars(index, n, count, part, g, end);
            }
            count
        }
        Pass::Ids => {
            let id = sheet_record::id_of(part) as u64;
            index_slots::put_slot(index, n, count + 1, index_layout::ID_BASE + id, end);
            count + 1
        }
    }
}

// Each bridge enables the space.
fn all_on(bridges: Bridges, space: Space) -> bool
    ensures { result ≡ all_on space bridges }
{
    match space {
        Space::Memory => bridges.memory,
        Space::Io => bridges.io,
    }
}

// ---- BARs

// A function's that start in the segment, in slot order.
fn put_bars(index: &mut [u8], n: usize, count: usize, part: &[u8], g: Segment, end: u64) -> usize
    requires { (length part.now ≡ record_size) × (any_bad (slots_of (entry_of part.now)) ≡ false) × (g.base + g.end ≤ no_key)
        × (end < word_limit) × (count + length (bar_slots g end (bars_of g.space (entry_of part.now))) ≤ most_slots n)
        × (index_size n ≤ length index.old) }
    ensures { (index.new ≡ placed count n (bar_slots g end (bars_of g.space (entry_of part.now))) index.old)
        × (result ≡ count + length (bar_slots g end (bars_of g.space (entry_of part.now)))) }
{
    let set = sheet_record::readbacks_of(part);
    let values = sheet_record::values_of(part);
    let slots = sheet_record::slot_count(part);
    let mut at = count;
    for (i, x) in bar::slots(set, slots) {
        let value = bar::value_here(x, values, slots, i);
        at = put_bar(index, n, at, x, value, g, end);
    }
    at
}

fn put_bar(
    index: &mut [u8],
    n: usize,
    count: usize,
    x: Slot,
    value: u64,
    g: Segment,
    end: u64,
) -> usize
    requires { (g.base + g.end ≤ no_key) × (end < word_limit)
        × (count + length (bar_slots g end (bar_in g.space x value)) ≤ most_slots n) × (index_size n ≤ length index.old) }
    ensures { (index.new ≡ placed count n (bar_slots g end (bar_in g.space x value)) index.old)
        × (result ≡ count + length (bar_slots g end (bar_in g.space x value))) }
{
    let Slot::Bar(q, _, size) = x else {
        return count;
    };
    let start = bar::base_of(x, value);
    if !starts_in(g, q, start) {
        return count;
    }
    index_slots::put_slot(index, n, count + 1, g.base + start, exponent_of(size) + end);
    count + 1
}

fn starts_in(g: Segment, q: Pool, start: u64) -> bool
    ensures { result ≡ (in_space g.space q && (leb g.first start && ltb start g.end)) }
{
    let space = g.space;
    pools::in_space(space, q) & ((g.first <= start) & (start < g.end))
}

// Of a power of two; none is 0.
fn exponent_of(size: u64) -> u64
    ensures { (result ≡ exponent_of size) × (result ≤ 64) }
{
    if size == 0 {
        return 0;
    }
    u64::from(size.ilog2())
}
