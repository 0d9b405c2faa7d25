// One record of a sheet, field by field. Every function here gets the record's part, the bytes after its own length: the ID, the
// configuration header and the six read-backs.
#![tactic(auto)]

pub mod places;
pub mod spaces;

ghost use Rattle.std.specs.Prelude.{◌≡◌, ◌<◌, length};
ghost use Rattle.endian.specs.Endian.{be, le};
ghost use Rattle.sheet_record.specs.Places.{values_at, readbacks_at, record_size};
ghost use Rattle.sheet_record.specs.Entry.{id_of, bus_of, command_of, header_of, is_bridge, slot_count, dwords};
ghost use Rattle.sheet_record.specs.Entry.{primary_of, secondary_of, subordinate_of, window_of};
ghost use Rattle.sheet_record.specs.Spaces.{command_bit, master_bit, enables};

use pools::{Pool, Space};
use window::Window;

pub fn id_of(part: &[u8]) -> u16
    requires { length part.now ≡ record_size }
    ensures { result ≡ id_of part.now }
{
    endian::read_be16(part, places::ID) as u16
}

#[tactic(auto, unfolding(endian::specs::Endian::be))]
pub fn bus_of(part: &[u8]) -> u8
    requires { length part.now ≡ record_size }
    ensures { result ≡ bus_of part.now }
{
    part[places::ID]
}

pub fn command_of(part: &[u8]) -> u16
    requires { length part.now ≡ record_size }
    ensures { result ≡ command_of part.now }
{
    endian::read_le16(part, places::COMMAND) as u16
}

pub fn is_bridge(part: &[u8]) -> bool
    requires { length part.now ≡ record_size }
    ensures { result ≡ is_bridge (header_of part.now) }
{
    bar::is_bridge(part[places::HEADER_TYPE])
}

// How many BAR slots the function has.
pub fn slot_count(part: &[u8]) -> usize
    requires { length part.now ≡ record_size }
    ensures { result ≡ slot_count (header_of part.now) }
{
    bar::slot_count(part[places::HEADER_TYPE])
}

// A bit of the command word, by its number.
fn command_bit(part: &[u8], bit: u16) -> bool
    requires { (length part.now ≡ record_size) × (bit < 16) }
    ensures { result ≡ command_bit bit (command_of part.now) }
{
    (command_of(part) >> bit) % 2 == 1
}

// The bit of the space.
pub fn is_enabled(part: &[u8], space: Space) -> bool
    requires { length part.now ≡ record_size }
    ensures { result ≡ enables space (command_of part.now) }
{
    command_bit(part, spaces::bit_of(space))
}

// Bus master.
pub fn is_master(part: &[u8]) -> bool
    requires { length part.now ≡ record_size }
    ensures { result ≡ command_bit master_bit (command_of part.now) }
{
    command_bit(part, 2)
}

pub fn primary_of(part: &[u8]) -> u8
    requires { length part.now ≡ record_size }
    ensures { result ≡ primary_of part.now }
{
    part[places::PRIMARY]
}

pub fn secondary_of(part: &[u8]) -> u8
    requires { length part.now ≡ record_size }
    ensures { result ≡ secondary_of part.now }
{
    part[places::SECONDARY]
}

pub fn subordinate_of(part: &[u8]) -> u8
    requires { length part.now ≡ record_size }
    ensures { result ≡ subordinate_of part.now }
{
    part[places::SUBORDINATE]
}

// The registers of a bridge's window.
#[tactic(auto, unfolding(crate::specs::Entry::window_of))]
pub fn window_of(part: &[u8], q: Pool) -> Window
    requires { length part.now ≡ record_size }
    ensures { result ≡ window_of q part.now }
{
    match q {
        Pool::Low => Window {
            base: endian::read_le16(part, places::LOW_BASE) as u16,
            limit: endian::read_le16(part, places::LOW_LIMIT) as u16,
            upper_base: 0,
            upper_limit: 0,
        },
        Pool::High => Window {
            base: endian::read_le16(part, places::HIGH_BASE) as u16,
            limit: endian::read_le16(part, places::HIGH_LIMIT) as u16,
            upper_base: endian::read_le32(part, places::UPPER_BASE) as u32,
            upper_limit: endian::read_le32(part, places::UPPER_LIMIT) as u32,
        },
        Pool::Io => Window {
            base: u16::from(part[places::IO_BASE]),
            limit: u16::from(part[places::IO_LIMIT]),
            upper_base: 0,
            upper_limit: 0,
        },
    }
}

// The six BAR registers. A bridge's last four are other registers.
#[tactic(auto, unfolding(crate::specs::Entry::dwords))]
pub fn values_of(part: &[u8]) -> [u32; 6]
    requires { length part.now ≡ record_size }
    ensures { result ≡ dwords (le 4) 6 part.now values_at }
{
    [
        endian::read_le32(part, places::BAR0) as u32,
        endian::read_le32(part, places::BAR1) as u32,
        endian::read_le32(part, places::BAR2) as u32,
        endian::read_le32(part, places::BAR3) as u32,
        endian::read_le32(part, places::BAR4) as u32,
        endian::read_le32(part, places::BAR5) as u32,
    ]
}

#[tactic(auto, unfolding(crate::specs::Entry::dwords))]
pub fn readbacks_of(part: &[u8]) -> [u32; 6]
    requires { length part.now ≡ record_size }
    ensures { result ≡ dwords (be 4) 6 part.now readbacks_at }
{
    [
        endian::read_be32(part, places::READBACK0) as u32,
        endian::read_be32(part, places::READBACK1) as u32,
        endian::read_be32(part, places::READBACK2) as u32,
        endian::read_be32(part, places::READBACK3) as u32,
        endian::read_be32(part, places::READBACK4) as u32,
        endian::read_be32(part, places::READBACK5) as u32,
    ]
}
