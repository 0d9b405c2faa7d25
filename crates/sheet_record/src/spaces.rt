// A record in an address space: the command bit that enables it there, and whether a BAR holds an address.
ghost use Rattle.std.specs.Prelude.{◌≡◌};
ghost use Rattle.sheet_record.specs.Spaces.{space_bit, bar_holds};

use bar::Slot;
use pools::Space;

// Command bit 0 enables I/O, bit 1 memory.
pub fn bit_of(space: Space) -> u16
    ensures { result ≡ space_bit space }
{
    match space {
        Space::Memory => 1,
        Space::Io => 0,
    }
}

// The slot is a BAR of the space, and with this value it holds the address. No sum: a BAR may end at 2^64.
pub fn bar_holds(space: Space, x: Slot, value: u64, address: u64) -> bool
    ensures { result ≡ bar_holds space x value address }
{
    let Slot::Bar(q, _, size) = x else {
        return false;
    };
    let base = bar::base_of(x, value);
    pools::in_space(space, q) && base <= address && address - base < size
}
