// The numbering and placing rule of a board, over whole numbers: definitions and theorems, in specs/. The planner's code meets these
// definitions, and the sheet that it writes is a layout of them. The code here is what its two passes, sizing and placing, both compute
// with.
#![tactic(auto)]

ghost use Rattle.std.specs.Prelude.{◌≡◌, ◌+◌, ◌≤◌};
ghost use Rattle.arith.specs.Align.{align_up};
ghost use Rattle.arith.specs.Powers.{PowerOfTwo};
ghost use Rattle.plan_rule.specs.Cap.{limit, cap as cap_of};
ghost use Rattle.plan_rule.specs.Pieces.{window_size, window_align};

use pools::Pool;

// Where a layout ends, and its largest alignment: 0 where there is nothing.
#[derive(Clone, Copy)]
pub struct Extent {
    pub end: u64,
    pub align: u64,
}

const LIMIT: u64 = 4611686018427387904;

// Ends are kept up to 2^62: no pool reaches 2^52, so no answer changes, and no sum wraps.
pub fn cap(x: u64) -> u64
    ensures { (result ≡ cap_of x) × (result ≤ limit) }
{
    x.min(LIMIT)
}

// Where an item starts: at the first multiple of its alignment at or after the end of the one before.
pub fn start_at(align: u64, end: u64) -> u64
    requires { PowerOfTwo align }
    ensures { (result ≡ cap_of (align_up align end)) × (result ≤ limit) }
{
    cap(align_up(align, cap(end)))
}

// And where it ends.
pub fn end_of(start: u64, size: u64) -> u64
    requires { start ≤ limit }
    ensures { result ≡ cap_of (start + size) }
{
    cap(start + cap(size))
}

// A window's size: the end of what is inside, rounded up to the granule.
pub fn window_size(q: Pool, end: u64) -> u64
    ensures { result ≡ window_size q (cap_of end) }
{
    let granule = pools::granule(q);
    align_up(granule, cap(end))
}

// A window's alignment: the granule, or the largest alignment inside if that is greater.
pub fn window_align(q: Pool, largest: u64) -> u64
    ensures { result ≡ window_align q largest }
{
    pools::granule(q).max(largest)
}

// The first multiple of a at or after x, by a mask.
fn align_up(a: u64, x: u64) -> u64
    requires { PowerOfTwo a × (x ≤ limit) }
    ensures { result ≡ align_up a x }
{
    let y = x + (a - 1);
    y - (y & (a - 1))
}
