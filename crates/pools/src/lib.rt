// The three address pools of a board, each a value with its granule, and the two address spaces that they lie in.
#![tactic(auto)]

ghost use Rattle.std.specs.Prelude.{◌≡◌};
ghost use Rattle.pools.specs.Pools.{granule as granule_of, in_space};

// Low memory, high memory (prefetchable, above 4 GiB) and I/O.
#[derive(Clone, Copy, Debug, PartialEq, Eq)]
pub enum Pool {
    Low,
    High,
    Io,
}

// The address spaces. Memory has two pools, low and high.
#[derive(Clone, Copy, Debug, PartialEq, Eq)]
pub enum Space {
    Memory,
    Io,
}

// A window's edges are multiples of its pool's granule: 1 MiB of memory, 4 KiB of I/O.
pub fn granule(q: Pool) -> u64
    ensures { result ≡ granule_of q }
{
    match q {
        Pool::Low | Pool::High => 1048576,
        Pool::Io => 4096,
    }
}

pub fn in_space(space: Space, q: Pool) -> bool
    ensures { result ≡ in_space space q }
{
    match space {
        Space::Memory => q != Pool::Io,
        Space::Io => q == Pool::Io,
    }
}
