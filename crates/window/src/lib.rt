// A bridge's windows: the registers of one window, the range they stand for, and the one spelling of a closed window of each pool.
#![tactic(auto)]

ghost use Rattle.std.specs.Prelude.{◌≡◌, ◌+◌, ◌-◌, ◌<◌, ◌≤◌};
ghost use Rattle.window.specs.Window.{closed as closed_of, fields as fields_of, nibble as nibble_of, field as field_of};
ghost use Rattle.window.specs.Window.{register as register_of, upper as upper_of, opened as opened_of, address as address_of};
ghost use Rattle.window.specs.Window.{start as start_of, stop as stop_of, holds as holds_of, is_nibbled};

use pools::Pool;

// Base and limit registers as written. Only a high window has upper halves; the others' are 0.
#[derive(Clone, Copy)]
pub struct Window {
    pub base: u16,
    pub limit: u16,
    pub upper_base: u32,
    pub upper_limit: u32,
}

impl Window {
    // "A closed window has one spelling for each kind". Zeros would open 1 MiB at 0.
    pub const CLOSED_LOW: Window = Window {
        base: 0xfff0,
        limit: 0x0000,
        upper_base: 0,
        upper_limit: 0,
    };

    pub const CLOSED_HIGH: Window = Window {
        base: 0xfff1,
        limit: 0x0001,
        upper_base: 0,
        upper_limit: 0,
    };

    pub const CLOSED_IO: Window = Window {
        base: 0xf0,
        limit: 0x00,
        upper_base: 0,
        upper_limit: 0,
    };

    // The closed window of a pool.
    pub fn closed(q: Pool) -> Self
        ensures { result ≡ closed_of q }
    {
        match q {
            Pool::Low => Self::CLOSED_LOW,
            Pool::High => Self::CLOSED_HIGH,
            Pool::Io => Self::CLOSED_IO,
        }
    }

    // The window from start up to stop. The planner's high pool ends below 2^52, so its stops fit.
    pub fn opened(q: Pool, start: u64, stop: u64) -> Self
        ensures { result ≡ opened_of q start stop }
    {
        let last = stop.saturating_sub(1);
        Self {
            base: register(q, start),
            limit: register(q, last),
            upper_base: upper(q, start),
            upper_limit: upper(q, last),
        }
    }

    pub fn start(self, q: Pool) -> u64
        ensures { result ≡ start_of q self }
    {
        address(q, self.upper_base, self.base)
    }

    // The last address, since a foreign sheet's high window can stop at 2^64.
    pub fn last(self, q: Pool) -> u64
        ensures { result + 1 ≡ stop_of q self }
    {
        address(q, self.upper_limit, self.limit) + (pools::granule(q) - 1)
    }

    pub fn holds(self, q: Pool, a: u64) -> bool
        ensures { result ≡ holds_of q self a }
    {
        (self.start(q) <= a) & (a <= self.last(q))
    }

    // 29 looks at the low nibbles of base and limit.
    pub fn is_nibbled(self, q: Pool) -> bool
        ensures { result ≡ is_nibbled q self }
    {
        let expected = nibble(q);
        (u64::from(self.base) % 16 == expected) & (u64::from(self.limit) % 16 == expected)
    }
}

// ---- from an address to registers

// How many values a register's address field has.
fn fields(q: Pool) -> u64
    ensures { (result ≡ fields_of q) × (0 < result) × (result ≤ 4096) }
{
    match q {
        Pool::Low | Pool::High => 4096,
        Pool::Io => 16,
    }
}

fn nibble(q: Pool) -> u64
    ensures { (result ≡ nibble_of q) × (result < 16) }
{
    match q {
        Pool::High => 1,
        Pool::Low | Pool::Io => 0,
    }
}

fn field(q: Pool, a: u64) -> u64
    ensures { (result ≡ field_of q a) × (result < 4096) }
{
    a / pools::granule(q) % fields(q)
}

fn register(q: Pool, a: u64) -> u16
    ensures { result ≡ register_of q a }
{
    (field(q, a) * 16 + nibble(q)) as u16
}

fn upper(q: Pool, a: u64) -> u32
    ensures { result ≡ upper_of q a }
{
    match q {
        Pool::High => (a / 4294967296) as u32,
        Pool::Low | Pool::Io => 0,
    }
}

// ---- from registers to an address

// The first address of the register's granule.
fn address(q: Pool, upper: u32, register: u16) -> u64
    ensures { (result ≡ address_of q upper register) × (result + 1048576 ≤ 18446744073709551616) }
{
    u64::from(upper) * 4294967296 + u64::from(register) / 16 * pools::granule(q)
}
