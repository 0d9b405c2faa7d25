// BARs: what a function's set of six read-backs says of its slots, and what the values in its registers say.
// A set is six numbers, handed on together; the first n count: 6 for header type 0, 2 for type 1.
#![tactic(auto)]

ghost use Rattle.std.specs.Prelude.{◌≡◌, true, cond, not, ◌&&◌, ℕ, ◌+◌, ◌-◌, ◌^◌, ◌<◌, ◌≤◌, min, ltb, length, get_or, take, drop};
ghost use Rattle.arith.specs.Powers.{PowerOfTwo};
ghost use Rattle.bar.specs.Header.{is_bridge, slot_count};
ghost use Rattle.bar.specs.Bar.{size_of, sized as sized_of, joined as joined_of, is_io_bar, io_wrong, type_of, without_type, io_slot, is_wide};
ghost use Rattle.bar.specs.Bar.{narrow_slot, wide_slot, slot_here, slots, is_bad, any_bad, takes_next, span as span_of, SizedSlot};
ghost use Rattle.bar.specs.Values.{value_here, is_bar_value, is_value, values_lawful, base_of, value_of};
ghost use Rattle.std.specs.Iterator.{at_most};
ghost use Rattle.bar.specs.Walk.{walk_of, StepsTo};

use pools::Pool;

// One slot of a set. A 64-bit BAR takes its own slot and the next one, its upper half.
#[derive(Clone, Copy)]
pub enum Slot {
    Unused,
    Bar(Pool, bool, u64),
    Upper,
    Bad,
}

// ## The header type byte

// Its low seven bits are the header type: type 1 is a bridge.
pub fn is_bridge(header: u8) -> bool
    ensures { result ≡ is_bridge header }
{
    header % 128 == 1
}

// How many of the six read-backs count.
pub fn slot_count(header: u8) -> usize
    ensures { (result ≡ slot_count header) × (result ≤ 6) }
{
    if is_bridge(header) { 2 } else { 6 }
}

// ## One BAR

// The size that a mask says: ones from a size bit to the top, or else 0. `ones` has every bit of the width, `least` is the least size.
fn size_of(ones: u64, least: u64, mask: u64) -> u64
    ensures { (w k : ℕ) → ones + 1 ≡ 2 ^ w → least ≡ 2 ^ k → result ≡ size_of w k mask }
{
    if mask == 0 {
        return 0;
    }
    if ones < mask {
        return 0;
    }
    let size = ones - mask + 1;
    if size < least {
        return 0;
    }
    if size & (size - 1) == 0 { size } else { 0 }
}

// A size of 0 is no size.
fn sized(pool: Pool, wide: bool, size: u64) -> Slot
    ensures { result ≡ sized_of pool wide size }
{
    if size == 0 {
        Slot::Bad
    } else {
        Slot::Bar(pool, wide, size)
    }
}

// Bit 0 set is I/O.
fn is_io(r: u32) -> bool
    ensures { result ≡ is_io_bar r }
{
    r % 2 == 1
}

// Memory with bits 2:1 10 is 64-bit.
fn is_wide(r: u32) -> bool
    ensures { result ≡ is_wide r }
{
    !is_io(r) & (r / 2 % 4 == 2)
}

// Bit 1 set, or an upper half neither all zeros nor all ones.
fn io_wrong(r: u32) -> bool
    ensures { result ≡ io_wrong r }
{
    (r / 2 % 2 == 1) | !((r / 65536 == 0) | (r / 65536 == 65535))
}

fn io_slot(r: u32) -> Slot
    ensures { result ≡ io_slot r }
{
    if io_wrong(r) {
        return Slot::Bad;
    }
    sized(
        Pool::Io,
        false,
        size_of(65535, 4, (r % 65536 / 4 * 4) as u64),
    )
}

// A read-back of 32 bits alone.
pub fn narrow_slot(r: u32) -> Slot
    ensures { result ≡ narrow_slot r }
{
    if r == 0 {
        return Slot::Unused;
    }
    if is_io(r) {
        return io_slot(r);
    }
    if r / 2 % 4 != 0 {
        return Slot::Bad;
    }
    sized(
        Pool::Low,
        false,
        size_of(4294967295, 128, (r / 16 * 16) as u64),
    )
}

// Two registers of 32 bits as one number.
fn joined(low: u32, upper: u32) -> u64
    ensures { (result ≡ joined_of low upper) × (result < 2 ^ 64) }
{
    (upper as u64) * 4294967296 + low as u64
}

// A 64-bit read-back is judged on the joined 64 bits.
pub fn wide_slot(r: u32, upper: u32) -> Slot
    ensures { result ≡ wide_slot r upper }
{
    let size = size_of(18446744073709551615, 128, joined(r, upper) / 16 * 16);
    if r / 8 % 2 == 1 {
        sized(Pool::High, true, size)
    } else {
        sized(Pool::Low, true, size)
    }
}

// ## A set

// What stands at place i of the first n, and 0 past them.
fn entry(set: &[u32; 6], n: usize, i: usize) -> u32
    requires { length set.now ≡ 6 }
    ensures { result ≡ get_or (take n set.now) i 0 }
{
    if n.min(6) <= i {
        return 0;
    }
    set[i]
}

// A 64-bit read-back takes the next one where there is one.
fn slot_of(r: u32, paired: bool, next: u32) -> Slot
    ensures { result ≡ cond (paired && is_wide r) (wide_slot r next) (narrow_slot r) }
{
    if paired & is_wide(r) {
        return wide_slot(r, next);
    }
    narrow_slot(r)
}

// The slot at a place of a set that is read where it stands: a set passed on by value is copied each time.
fn slot_in(set: &[u32; 6], n: usize, i: usize) -> Slot
    requires { length set.now ≡ 6 }
    ensures { result ≡ slot_here (drop i (take n set.now)) }
{
    let m = n.min(6);
    if m <= i {
        return Slot::Unused;
    }
    slot_of(entry(set, n, i), i + 1 < m, entry(set, n, i + 1))
}

// The slot of the BAR that starts at place i of the first n read-backs.
pub fn slot_at(set: [u32; 6], n: usize, i: usize) -> Slot
    ensures { result ≡ slot_here (drop i (take n set)) }
{
    slot_in(&set, n, i)
}

// The places that a lawful slot takes.
pub fn span(s: Slot) -> usize
    ensures { (result ≡ span_of s) × (0 < result) × (result ≤ 2) }
{
    if takes_next(s) { 2 } else { 1 }
}

fn is_bad(s: Slot) -> bool
    ensures { result ≡ is_bad s }
{
    matches!(s, Slot::Bad)
}

// The slots of the first n read-backs of a set, each with its place. After an unlawful slot the next one is the next place's.
#[derive(Drop)]
pub struct SlotWalk {
    set: [u32; 6],
    n: usize,
    next: usize,
}

pub fn slots(set: [u32; 6], n: usize) -> SlotWalk
    ensures { result ≡ walk_of set n }
{
    SlotWalk { set, n, next: 0 }
}

impl Iterator for SlotWalk {
    type Item = (usize, Slot);

    ghost next_gives = { StepsTo };

    ghost remaining = { λ s. at_most (min s.n 6 - s.next) };

    fn next(&mut self) -> Option<(usize, Slot)> {
        let place = self.next;
        if self.n.min(6) <= place {
            return None;
        }
        let slot = slot_in(&self.set, self.n, place);
        self.next = place + span(slot);
        Some((place, slot))
    }
}

// A 64-bit read-back at place i of n that has another one after it. A loop over a set asks this and decodes what it then knows: where the
// next place depends on a decoded slot, the processor waits for it.
pub fn is_paired(r: u32, i: usize, n: usize) -> bool
    requires { i < n }
    ensures { (result ≡ ltb (i + 1) n && is_wide r) × (result ≡ true → i + 1 < n) }
{
    (i + 1 < n) & is_wide(r)
}

// A loop over a set decodes memory BARs in place and leaves I/O to `slot_at`, a call: what calls nothing may keep data below the stack
// pointer, which boot code must not have.
pub fn is_memory(r: u32) -> bool
    ensures { result ≡ not (is_io_bar r) }
{
    !is_io(r)
}

// No read-back of the first n gives 25. Not by `slots`, whose next place waits for the decoded slot: the planner was a quarter slower.
pub fn is_lawful(set: [u32; 6], n: usize) -> bool
    ensures { result ≡ not (any_bad (slots (take n set))) }
{
    let m = n.min(6);
    let mut i: usize = 0;
    while i < m {
        let r = set[i];
        if r == 0 {
            i += 1;
            continue;
        }
        if is_paired(r, i, m) {
            if is_bad(wide_slot(r, set[i + 1])) {
                return false;
            }
            i += 2;
            continue;
        }
        if is_memory(r) {
            if is_bad(narrow_slot(r)) {
                return false;
            }
            i += 1;
            continue;
        }
        if is_bad(slot_in(&set, n, i)) {
            return false;
        }
        i += 1;
    }
    true
}

// ## Values

// A 64-bit BAR takes the next place too.
pub fn takes_next(x: Slot) -> bool
    ensures { result ≡ takes_next x }
{
    matches!(x, Slot::Bar(_, true, _))
}

// The number in the registers of the slot x at place i.
fn value_in(x: Slot, values: &[u32; 6], n: usize, i: usize) -> u64
    requires { (length values.now ≡ 6) × (i < 6) }
    ensures { result ≡ value_here x (drop i (take n values.now)) }
{
    let low = entry(values, n, i);
    if takes_next(x) {
        return joined(low, entry(values, n, i + 1));
    }
    low as u64
}

pub fn value_here(x: Slot, values: [u32; 6], n: usize, i: usize) -> u64
    requires { i < 6 }
    ensures { result ≡ value_here x (drop i (take n values)) }
{
    value_in(x, &values, n, i)
}

// A register's type bits: I/O bits 1:0, memory bits 3:0.
fn type_of(pool: Pool, v: u64) -> u64
    ensures { result ≡ type_of pool v }
{
    match pool {
        Pool::Low | Pool::High => v % 16,
        Pool::Io => v % 4,
    }
}

fn without_type(pool: Pool, v: u64) -> u64
    ensures { result ≡ without_type pool v }
{
    v - type_of(pool, v)
}

// The value has the read-back's type bits, its base is a multiple of the size, and an I/O BAR is at most FFFFh.
fn is_bar_value(pool: Pool, size: u64, r: u32, v: u64) -> bool
    requires { PowerOfTwo size }
    ensures { result ≡ is_bar_value pool size r v }
{
    (type_of(pool, v) == type_of(pool, r as u64))
        & (without_type(pool, v) & (size - 1) == 0)
        & ((pool != Pool::Io) | (v <= 65535))
}

fn is_value(x: Slot, r: u32, v: u64) -> bool
    requires { SizedSlot x }
    ensures { result ≡ is_value x r v }
{
    match x {
        Slot::Unused => v == 0,
        Slot::Bar(pool, _, size) => is_bar_value(pool, size, r, v),
        Slot::Upper => true,
        Slot::Bad => false,
    }
}

// Neither a read-back nor a value of the first n gives 25. Not by `slots`, which would take the set by value: inside it is read where it
// stands.
pub fn values_lawful(set: [u32; 6], values: [u32; 6], n: usize) -> bool
    ensures { result ≡ values_lawful (take n set) (take n values) }
{
    let m = n.min(6);
    let mut i: usize = 0;
    while i < m {
        let x = slot_in(&set, n, i);
        let v = value_in(x, &values, n, i);
        if is_value(x, set[i], v) {
            i += span(x);
        } else {
            return false;
        }
    }
    true
}

// ## Bases

// The address where a BAR starts.
pub fn base_of(x: Slot, v: u64) -> u64
    ensures { result ≡ base_of x v }
{
    match x {
        Slot::Bar(pool, _, _) => without_type(pool, v),
        Slot::Unused | Slot::Upper | Slot::Bad => 0,
    }
}

// What a BAR's registers hold at a base: the type bits stay the read-back's.
pub fn value_of(x: Slot, r: u32, base: u64) -> u64
    ensures { result ≡ value_of x r base }
{
    match x {
        Slot::Bar(pool, _, _) => without_type(pool, base) + type_of(pool, r as u64),
        Slot::Unused | Slot::Upper | Slot::Bad => 0,
    }
}
