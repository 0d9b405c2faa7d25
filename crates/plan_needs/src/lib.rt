// What a lawful board needs of its host: bus numbers, and of each pool bytes and a base.
#![tactic(auto)]

ghost use Rattle.std.specs.Prelude.{◌≡◌, ◌≤◌, ◌<◌};
ghost use Rattle.plan_rule.specs.Cap.{cap};
ghost use Rattle.plan_needs.specs.Bases.{laid_span, laid_host_of};
ghost use Rattle.plan_needs.specs.Measured.{bytes_by, needs_by, PastBases};

use board_record::{Host, Span};
use plan_rule::Extent;
use plan_sizing::Laid;
use pools::Pool;

// So many bus numbers, the root bus's among them, and so many bytes of each pool, told up to 2^62: of an open pool from its own base, of a
// closed one from any multiple of its alignment, which is the root bus's largest in that pool and no less than the granule.
#[derive(Clone, Copy)]
pub struct Needs {
    pub buses: u32,
    pub low: u64,
    pub high: u64,
    pub io: u64,
    pub low_align: u64,
    pub high_align: u64,
    pub io_align: u64,
}

// The host with each closed pool at 0, where it is laid out from.
pub fn laid_host(h: Host) -> Host
    ensures { result ≡ laid_host_of h }
{
    Host {
        low: laid_span(h.low),
        high: laid_span(h.high),
        io: laid_span(h.io),
        ..h
    }
}

fn laid_span(x: Span) -> Span
    ensures { result ≡ laid_span x }
{
    if x.last < x.base {
        Span { base: 0, ..x }
    } else {
        x
    }
}

// What a board needs whose bridges and their spares take so many numbers, and whose root bus comes to this from the bases of `laid`.
pub fn needs_of(laid: Host, bridges: u32, root: Laid) -> Needs
    requires { (bridges < 4294967295) × PastBases laid root }
    ensures { result ≡ needs_by laid bridges root }
{
    Needs {
        buses: bridges + 1,
        low: bytes_of(Pool::Low, laid.low.base, root.low),
        high: bytes_of(Pool::High, laid.high.base, root.high),
        io: bytes_of(Pool::Io, laid.io.base, root.io),
        low_align: plan_rule::window_align(Pool::Low, root.low.align),
        high_align: plan_rule::window_align(Pool::High, root.high.align),
        io_align: plan_rule::window_align(Pool::Io, root.io.align),
    }
}

// From the base to the granule's edge at or after the end; nothing where there is no item.
fn bytes_of(q: Pool, base: u64, e: Extent) -> u64
    requires { base ≤ cap e.end }
    ensures { result ≡ bytes_by q base e }
{
    if e.align == 0 {
        return 0;
    }
    plan_rule::window_size(q, e.end) - base
}
