// Sizing: the first of the planner's two passes. A bus is sized from its functions, and a bridge from its bus, for all three pools at once;
// what lies below each bridge is stored on the way, so that the placing pass sizes nothing again.
#![tactic(auto)]

ghost use Rattle.std.specs.Prelude.{◌≡◌, false, ◌+◌, ◌*◌, ◌≤◌, ◌<◌, length, get_or, take};
ghost use Rattle.std.proofs.lemmas.List.Edits.{sets};
ghost use Rattle.arith.specs.Powers.{PowerOfTwo};
ghost use Rattle.pools.specs.declared.Pool.{Pool as PoolName};
ghost use Rattle.bar.specs.Bar.{slots, any_bad, SizedSlot};
ghost use Rattle.plan_bars.specs.Bars.{bars_from};
ghost use Rattle.plan_rule.proofs.CapLaws.{capped};
ghost use Rattle.plan_rule.specs.Pieces.{window_align};
ghost use Rattle.plan_rule.specs.Sizing.{grow as grow_of, with_window, bars_laid, window_laid, spared, laid_from, ends_past};
ghost use Rattle.plan_sizing.specs.Functions.{header_in, spare_low_in, function_in, functions_in, set_at};
ghost use Rattle.plan_sizing.specs.Cut.{extent_in, says, cut, Whole, add_bar, add_slot, add_bars};
ghost use Rattle.plan_sizing.specs.Memo.{numbers_of, laid_at};
ghost use Rattle.plan_sizing.specs.Board.{Board, OwnBars, is_child, Standing, BusSized, FunctionSized, bases_of, root_from, BoardSized};

use bar::Slot;
use plan_rule::Extent;
use pools::Pool;

// How far a walk over the records has come, and what it has laid out in each pool.
#[derive(Clone, Copy)]
pub struct Laid {
    pub next: usize,
    pub low: Extent,
    pub high: Extent,
    pub io: Extent,
}

// How deep a bus can lie: below one more bridge than may stand above a function.
const DEEPEST: usize = records::MOST_ABOVE + 1;

// Spare room is told in MiB.
const MIB: u64 = 1048576;

// Every bus of the board, in one pass: what the root bus comes to from the pools' bases, and in `memo`, seven numbers for each function,
// what lies below each bridge. Function i has its parent record and its head at i, its six read-backs at 6 * i, its numbers at 7 * i. A
// head is a header type byte and, above it, a bridge's spares: a byte of buses and two of low memory in MiB.
pub fn size_board(
    parents: &[u16],
    heads: &[u32],
    readbacks: &[u32],
    memo: &mut [u64],
    base_low: u64,
    base_high: u64,
    base_io: u64,
) -> Laid
    requires { Board parents.now heads.now readbacks.now × (7 * length parents.now ≤ length memo.old) }
    ensures { BoardSized (functions_in parents.now heads.now readbacks.now)
        (bases_of base_low base_high base_io) memo.old memo.new result }
{
    let start = root_from(base_low, base_high, base_io);
    bus_size(parents, heads, readbacks, memo, 0, DEEPEST, start)
}

// What was stored of the function at index i.
pub fn stored_at(memo: &[u64], i: usize) -> Laid
    requires { 7 * i + 7 ≤ length memo.now }
    ensures { result ≡ laid_at memo.now i }
{
    let at = 7 * i;
    Laid {
        next: memo[at] as usize,
        low: Extent {
            end: memo[at + 1],
            align: memo[at + 2],
        },
        high: Extent {
            end: memo[at + 3],
            align: memo[at + 4],
        },
        io: Extent {
            end: memo[at + 5],
            align: memo[at + 6],
        },
    }
}

// Is there anything, and does it end past a pool with this last address?
pub fn ends_past(last: u64, e: Extent) -> bool
    ensures { result ≡ ends_past last e }
{
    (0 < e.align) & (1 < e.end.saturating_sub(last))
}

// ---- a bus from its functions, a bridge from its bus

// `depth` is what remains: a bus may lie so many bridges below this one. It falls at each bridge, and so do the records left.
#[cycle(bus_size_function_size)]
fn bus_size(
    parents: &[u16],
    heads: &[u32],
    readbacks: &[u32],
    memo: &mut [u64],
    bus: usize,
    depth: usize,
    start: Laid,
) -> Laid
    requires { Standing parents.now heads.now readbacks.now memo.old bus depth start }
    ensures { BusSized parents.now heads.now readbacks.now memo.old memo.new bus start result }
{
    let mut l = start;
    while is_child(parents, l.next, bus) {
        l = function_size(parents, heads, readbacks, memo, depth, l);
    }
    l
}

#[cycle(bus_size_function_size)]
fn function_size(
    parents: &[u16],
    heads: &[u32],
    readbacks: &[u32],
    memo: &mut [u64],
    depth: usize,
    l: Laid,
) -> Laid
    requires { Standing parents.now heads.now readbacks.now memo.old (get_or parents.now l.next 0) depth l
        × (l.next < length parents.now) }
    ensures { FunctionSized parents.now heads.now readbacks.now memo.old memo.new l result }
{
    let i = l.next;
    let own = own_bars(heads, readbacks, l);
    if bar::is_bridge(header_at(heads, i)) {
        let inside = laid_from(i + 1);
        let bus = bus_size(parents, heads, readbacks, memo, i + 1, depth - 1, inside);
        let inner = with_spare(bus, spare_at(heads, i));
        store(memo, i, inner);
        return with_windows(own, inner);
    }
    store(memo, i, laid_from(0));
    own
}

// ---- the items of a function: its BARs, then its windows

// The next function's own BARs: items of its own bus, a bridge's too.
fn own_bars(heads: &[u32], readbacks: &[u32], l: Laid) -> Laid
    requires { OwnBars heads.now readbacks.now l }
    ensures { result ≡ cut (bars_laid (function_in 0 (get_or heads.now l.next 0) (set_at readbacks.now l.next)) (says l)) }
{
    let i = l.next;
    let count = bar::slot_count(header_at(heads, i));
    Laid {
        next: i + 1,
        ..with_bars(l, set_at(readbacks, i), count)
    }
}

// A function's BARs in slot order: those of the first n read-backs of its set. Not by `bar::slots`, for speed: the next place asks the
// read-back alone (`bar::is_paired`).
fn with_bars(l: Laid, set: [u32; 6], n: usize) -> Laid
    requires { Whole l × ((n ≤ 6) × (any_bad (slots (take n set)) ≡ false)) }
    ensures { result ≡ cut (add_bars (bars_from 0 (slots (take n set))) (says l)) }
{
    let mut done = l;
    let mut i: usize = 0;
    while i < n {
        let r = set[i];
        if r == 0 {
            i += 1;
            continue;
        }
        if bar::is_paired(r, i, n) {
            done = with_slot(done, bar::wide_slot(r, set[i + 1]));
            i += 2;
            continue;
        }
        done = with_slot(done, bar::narrow_slot(r));
        i += 1;
    }
    done
}

fn with_slot(l: Laid, s: Slot) -> Laid
    requires { Whole l × SizedSlot s }
    ensures { result ≡ cut (add_slot s (says l)) }
{
    match s {
        Slot::Bar(pool, _, size) => with_bar(l, pool, size),
        Slot::Unused | Slot::Upper | Slot::Bad => l,
    }
}

fn with_bar(l: Laid, pool: Pool, size: u64) -> Laid
    requires { Whole l × PowerOfTwo size }
    ensures { result ≡ cut (add_bar pool size (says l)) }
{
    match pool {
        Pool::Low => Laid {
            low: grow(l.low, size, size),
            ..l
        },
        Pool::High => Laid {
            high: grow(l.high, size, size),
            ..l
        },
        Pool::Io => Laid {
            io: grow(l.io, size, size),
            ..l
        },
    }
}

fn with_windows(l: Laid, inner: Laid) -> Laid
    requires { (q : PoolName) → PowerOfTwo (window_align q (extent_in inner q).align) }
    ensures { result ≡ cut (window_laid (says l) (says inner)) }
{
    Laid {
        next: inner.next,
        low: with_window(Pool::Low, l.low, inner.low),
        high: with_window(Pool::High, l.high, inner.high),
        io: with_window(Pool::Io, l.io, inner.io),
    }
}

// With so many MiB of spare room, which are the last item in the low pool.
fn with_spare(l: Laid, spare: u64) -> Laid
    requires { Whole l × (spare < 65536) }
    ensures { result ≡ cut (spared spare (says l)) }
{
    if spare == 0 {
        return l;
    }
    Laid {
        low: grow(l.low, spare * MIB, MIB),
        ..l
    }
}

// A bridge's window over what its bus comes to: none where there is nothing inside.
fn with_window(q: Pool, e: Extent, inner: Extent) -> Extent
    requires { PowerOfTwo (window_align q inner.align) }
    ensures { result ≡ capped (with_window q e inner) }
{
    if inner.align == 0 {
        return Extent {
            end: plan_rule::cap(e.end),
            ..e
        };
    }
    let size = plan_rule::window_size(q, inner.end);
    grow(e, size, plan_rule::window_align(q, inner.align))
}

fn grow(e: Extent, size: u64, align: u64) -> Extent
    requires { PowerOfTwo align }
    ensures { result ≡ capped (grow_of e size align) }
{
    let start = plan_rule::start_at(align, e.end);
    Extent {
        end: plan_rule::end_of(start, size),
        align: e.align.max(align),
    }
}

// ---- the board's arrays

// Is there a function at index i, and is it on this bus?
fn is_child(parents: &[u16], i: usize, bus: usize) -> bool
    ensures { result ≡ is_child parents.now i bus }
{
    i < parents.len() && parents[i] as usize == bus
}

// The header type byte of function i, and its spare room in MiB.
fn header_at(heads: &[u32], i: usize) -> u8
    requires { i < length heads.now }
    ensures { result ≡ header_in (get_or heads.now i 0) }
{
    (heads[i] % 256) as u8
}

fn spare_at(heads: &[u32], i: usize) -> u64
    requires { i < length heads.now }
    ensures { (result ≡ spare_low_in (get_or heads.now i 0)) × (result < 65536) }
{
    (heads[i] / 256 % 65536) as u64
}

fn set_at(readbacks: &[u32], i: usize) -> [u32; 6]
    requires { 6 * i + 6 ≤ length readbacks.now }
    ensures { result ≡ set_at readbacks.now i }
{
    let at = 6 * i;
    [
        readbacks[at],
        readbacks[at + 1],
        readbacks[at + 2],
        readbacks[at + 3],
        readbacks[at + 4],
        readbacks[at + 5],
    ]
}

// ---- where a walk starts, and what is stored of it

// The walk over the root bus starts at the pools' bases.
fn root_from(base_low: u64, base_high: u64, base_io: u64) -> Laid
    ensures { result ≡ cut (root_from (bases_of base_low base_high base_io)) }
{
    Laid {
        next: 0,
        low: Extent {
            end: plan_rule::cap(base_low),
            align: 0,
        },
        high: Extent {
            end: plan_rule::cap(base_high),
            align: 0,
        },
        io: Extent {
            end: plan_rule::cap(base_io),
            align: 0,
        },
    }
}

// Nothing is laid out yet, and the walk stands at index i.
fn laid_from(i: usize) -> Laid
    ensures { result ≡ cut (laid_from i) }
{
    let none = Extent { end: 0, align: 0 };
    Laid {
        next: i,
        low: none,
        high: none,
        io: none,
    }
}

fn store(memo: &mut [u64], i: usize, l: Laid)
    requires { 7 * i + 7 ≤ length memo.old }
    ensures { memo.new ≡ sets memo.old (7 * i) (numbers_of l) }
{
    let at = 7 * i;
    memo[at] = l.next as u64;
    memo[at + 1] = l.low.end;
    memo[at + 2] = l.low.align;
    memo[at + 3] = l.high.end;
    memo[at + 4] = l.high.align;
    memo[at + 5] = l.io.end;
    memo[at + 6] = l.io.align;
}
