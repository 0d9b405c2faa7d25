// Placing, for one function: from the cursors of its bus, its BARs in slot order and then a bridge's windows, for all three pools at once.
#![tactic(auto)]

ghost use Rattle.std.specs.Prelude.{◌≡◌, false, ◌+◌, ◌≤◌, ◌<◌, length, take, map};
ghost use Rattle.std.proofs.lemmas.List.Edits.{sets};
ghost use Rattle.arith.specs.Powers.{PowerOfTwo};
ghost use Rattle.pools.specs.declared.Pool.{Pool as PoolName};
ghost use Rattle.bar.specs.Bar.{slots, any_bad, span as span_of, SizedSlot};
ghost use Rattle.bar.specs.Values.{registers_of};
ghost use Rattle.plan_rule.specs.Pieces.{window_align};
ghost use Rattle.plan_rule.specs.Cap.{limit, cap as cap_of};
ghost use Rattle.plan_function.specs.Function.{start_of, after_bar};
ghost use Rattle.plan_function.specs.Kept.{word, ends_of, kept_cursors, with_end, extent_in, bars_placed, window_placed, windows_placed};

use bar::Slot;
use plan_rule::Extent;
use pools::Pool;
use window::Window;

// The cursors of one bus: in each pool the end before the next item.
#[derive(Clone, Copy)]
pub struct Cursors {
    pub low: u64,
    pub high: u64,
    pub io: u64,
}

// A function's BARs: the values of its registers, 0 past its slots, and the cursors after them.
#[derive(Clone, Copy)]
pub struct BarsPlaced {
    pub values: [u32; 6],
    pub cursors: Cursors,
}

// What lies on a bridge's own bus in each pool, from offset 0.
#[derive(Clone, Copy)]
pub struct Extents {
    pub low: Extent,
    pub high: Extent,
    pub io: Extent,
}

// A bridge's window in one pool: its registers, the cursor of its own bus after it, and that of the bus below, which an open window starts.
#[derive(Clone, Copy)]
pub struct WindowPlaced {
    pub window: Window,
    pub cursor: u64,
    pub below: u64,
}

// The three windows, and the cursors of both buses after them.
#[derive(Clone, Copy)]
pub struct WindowsPlaced {
    pub low: Window,
    pub high: Window,
    pub io: Window,
    pub cursors: Cursors,
    pub below: Cursors,
}

// The BARs of the first n read-backs of a lawful set, in slot order. Not by `bar::slots`, for speed: the next place asks the read-back
// alone, and what is decoded here calls nothing (`bar::is_memory`).
pub fn place_bars(set: [u32; 6], n: usize, c: Cursors) -> BarsPlaced
    requires { (n ≤ 6) × (any_bad (slots (take n set)) ≡ false) }
    ensures { result ≡ bars_placed set n (ends_of c) }
{
    let mut values = [0u32; 6];
    let mut at = kept(c);
    let mut i: usize = 0;
    while i < n {
        let r = set[i];
        if r == 0 {
            i += 1;
            continue;
        }
        if bar::is_paired(r, i, n) {
            let x = bar::wide_slot(r, set[i + 1]);
            let v = bar::value_of(x, r, bar_start(at, x));
            put_registers(&mut values, i, x, v);
            at = after_bar(at, x);
            i += 2;
            continue;
        }
        if bar::is_memory(r) {
            let x = bar::narrow_slot(r);
            let v = bar::value_of(x, r, bar_start(at, x));
            put_registers(&mut values, i, x, v);
            at = after_bar(at, x);
            i += 1;
            continue;
        }
        let x = bar::slot_at(set, n, i);
        let v = bar::value_of(x, r, bar_start(at, x));
        put_registers(&mut values, i, x, v);
        at = after_bar(at, x);
        i += 1;
    }
    BarsPlaced {
        values,
        cursors: at,
    }
}

// A window over what is inside it, from the end before; none where there is nothing inside.
pub fn place_window(q: Pool, inner: Extent, end: u64, below: u64) -> WindowPlaced
    requires { PowerOfTwo (window_align q inner.align) }
    ensures { result ≡ window_placed q inner end below }
{
    if inner.align == 0 {
        return WindowPlaced {
            window: Window::closed(q),
            cursor: plan_rule::cap(end),
            below: plan_rule::cap(below),
        };
    }
    let start = plan_rule::start_at(plan_rule::window_align(q, inner.align), end);
    let stop = plan_rule::end_of(start, plan_rule::window_size(q, inner.end));
    WindowPlaced {
        window: Window::opened(q, start, stop),
        cursor: stop,
        below: start,
    }
}

// A bridge's windows, after its own BARs: `c` are the cursors of the bus it is on, `below` those of the bus below it.
pub fn place_windows(inner: Extents, c: Cursors, below: Cursors) -> WindowsPlaced
    requires { (q : PoolName) → PowerOfTwo (window_align q (extent_in inner q).align) }
    ensures { result ≡ windows_placed inner c below }
{
    let low = place_window(Pool::Low, inner.low, c.low, below.low);
    let high = place_window(Pool::High, inner.high, c.high, below.high);
    let io = place_window(Pool::Io, inner.io, c.io, below.io);
    WindowsPlaced {
        low: low.window,
        high: high.window,
        io: io.window,
        cursors: Cursors {
            low: low.cursor,
            high: high.cursor,
            io: io.cursor,
        },
        below: Cursors {
            low: low.below,
            high: high.below,
            io: io.below,
        },
    }
}

// ---- cursors

fn kept(c: Cursors) -> Cursors
    ensures { result ≡ kept_cursors (ends_of c) }
{
    Cursors {
        low: plan_rule::cap(c.low),
        high: plan_rule::cap(c.high),
        io: plan_rule::cap(c.io),
    }
}

fn cursor(c: Cursors, q: Pool) -> u64
    ensures { result ≡ ends_of c q }
{
    match q {
        Pool::Low => c.low,
        Pool::High => c.high,
        Pool::Io => c.io,
    }
}

fn with_cursor(c: Cursors, q: Pool, end: u64) -> Cursors
    ensures { result ≡ with_end c q end }
{
    match q {
        Pool::Low => Cursors { low: end, ..c },
        Pool::High => Cursors { high: end, ..c },
        Pool::Io => Cursors { io: end, ..c },
    }
}

// ---- BARs

fn bar_start(c: Cursors, x: Slot) -> u64
    requires { SizedSlot x }
    ensures { (result ≡ cap_of (start_of (ends_of c) x)) × (result ≤ limit) }
{
    match x {
        Slot::Bar(q, _, size) => plan_rule::start_at(size, cursor(c, q)),
        Slot::Unused | Slot::Upper | Slot::Bad => 0,
    }
}

// The cursors, all kept before, after the slot's BAR.
fn after_bar(c: Cursors, x: Slot) -> Cursors
    requires { SizedSlot x × (c ≡ kept_cursors (ends_of c)) }
    ensures { result ≡ kept_cursors (after_bar (ends_of c) x) }
{
    match x {
        Slot::Bar(q, _, size) => {
            let start = plan_rule::start_at(size, cursor(c, q));
            with_cursor(c, q, plan_rule::end_of(start, size))
        }
        Slot::Unused | Slot::Upper | Slot::Bad => c,
    }
}

// The slot's registers, from place i on: a 64-bit BAR has two.
fn put_registers(values: &mut [u32], i: usize, x: Slot, v: u64)
    requires { i + span_of x ≤ length values.old }
    ensures { values.new ≡ sets values.old i (map word (registers_of x v)) }
{
    values[i] = (v % 4294967296) as u32;
    if bar::takes_next(x) {
        values[i + 1] = (v / 4294967296) as u32;
    }
}
