// Where everything stands in a record's part: the ID, the 64-byte configuration header, whose registers have PCI's offsets, and the six
// read-backs.
pub const ID: usize = 0;

pub const REGISTERS: usize = 2;

pub const COMMAND: usize = REGISTERS + 0x04;

pub const HEADER_TYPE: usize = REGISTERS + 0x0E;

pub const BAR0: usize = REGISTERS + 0x10;

pub const BAR1: usize = REGISTERS + 0x14;

pub const BAR2: usize = REGISTERS + 0x18;

pub const BAR3: usize = REGISTERS + 0x1C;

pub const BAR4: usize = REGISTERS + 0x20;

pub const BAR5: usize = REGISTERS + 0x24;

// A bridge has two BARs, and in the place of the others its buses and windows.
pub const PRIMARY: usize = REGISTERS + 0x18;

pub const SECONDARY: usize = REGISTERS + 0x19;

pub const SUBORDINATE: usize = REGISTERS + 0x1A;

pub const IO_BASE: usize = REGISTERS + 0x1C;

pub const IO_LIMIT: usize = REGISTERS + 0x1D;

pub const LOW_BASE: usize = REGISTERS + 0x20;

pub const LOW_LIMIT: usize = REGISTERS + 0x22;

pub const HIGH_BASE: usize = REGISTERS + 0x24;

pub const HIGH_LIMIT: usize = REGISTERS + 0x26;

pub const UPPER_BASE: usize = REGISTERS + 0x28;

pub const UPPER_LIMIT: usize = REGISTERS + 0x2C;

// The configuration header's length.
pub const REGISTERS_SIZE: usize = 64;

pub const READBACK0: usize = REGISTERS + REGISTERS_SIZE;

pub const READBACK1: usize = READBACK0 + 4;

pub const READBACK2: usize = READBACK0 + 8;

pub const READBACK3: usize = READBACK0 + 12;

pub const READBACK4: usize = READBACK0 + 16;

pub const READBACK5: usize = READBACK0 + 20;

// The part's length, and the record's with its own length before it.
pub const SIZE: usize = READBACK0 + 24;

pub const STRIDE: usize = 2 + SIZE;
