// The sheet as bytes: one function's record written at its place, all bytes of it, in stores of two, four and eight bytes.
#![tactic(auto)]

ghost use Rattle.std.specs.Prelude.{◌≡◌, [], ◌∷◌, ◌++◌, ◌+◌, ◌<◌, ◌≤◌, length};
ghost use Rattle.std.proofs.lemmas.List.Edits.{sets};
ghost use Rattle.endian.specs.Endian.{be_bytes, le_bytes};
ghost use Rattle.sheet_record.specs.Places.{record_size, stride};
ghost use Rattle.sheet_bytes.specs.Layout.{zeros, dword_bytes, number_bytes, memory_bytes, window_bytes, bridge_body, body_bytes};
ghost use Rattle.sheet_bytes.specs.Layout.{common_bytes};
ghost use Rattle.sheet_bytes.specs.Layout.{record_bytes, planned_of};

use sheet_record::places;
use window::Window;

const SIZE: u64 = places::SIZE as u64;

// From a record's start, where its length stands: the configuration header, its registers from 10h on, and the read-backs.
const HEADER: usize = 2 + places::REGISTERS;

const BODY: usize = 2 + places::BAR0;

const READBACKS: usize = 2 + places::READBACK0;

// From the configuration header's start.
const COMMAND: usize = places::COMMAND - places::REGISTERS;

const STATUS: usize = COMMAND + 2;

const HEADER_TYPE: usize = places::HEADER_TYPE - places::REGISTERS;

// From 10h on: what follows six BARs, and a bridge's own.
const AFTER_BARS: usize = places::BAR5 + 4 - places::BAR0;

const BUSES: usize = places::PRIMARY - places::BAR0;

const MEMORY: usize = places::LOW_BASE - places::BAR0;

const AFTER_UPPERS: usize = places::UPPER_LIMIT + 4 - places::BAR0;

// From the primary bus and from the low window on.
const IO: usize = places::IO_BASE - places::PRIMARY;

const HIGH: usize = places::HIGH_BASE - places::LOW_BASE;

const UPPERS: usize = places::UPPER_BASE - places::LOW_BASE;

const LIMIT: usize = places::LOW_LIMIT - places::LOW_BASE;

// What is planned of one function. A bridge has the first two values and read-backs; buses and windows are a bridge's only.
#[derive(Clone, Copy)]
pub struct Registers {
    pub id: u16,
    pub command: u16,
    pub header: u8,
    pub values: [u32; 6],
    pub readbacks: [u32; 6],
    pub primary: u8,
    pub secondary: u8,
    pub subordinate: u8,
    pub low: Window,
    pub high: Window,
    pub io: Window,
}

// The record of a function, with its length. An I/O window's registers are bytes.
pub fn write_record(out: &mut [u8], at: usize, r: Registers)
    requires { (at + stride ≤ length out.old) × (r.io.base < 256) × (r.io.limit < 256) }
    ensures { out.new ≡ sets out.old at (record_bytes (planned_of r)) }
{
    put_marks(out, at, r.id);
    put_common(out, at + HEADER, r.command, r.header);
    put_body(out, at + BODY, r);
    let readbacks = r.readbacks;
    put_readbacks(out, at + READBACKS, readbacks);
}

// ---- parts of a record, in order

// The length and the ID.
fn put_marks(out: &mut [u8], at: usize, id: u16)
    requires { at + 4 ≤ length out.old }
    ensures { out.new ≡ sets out.old at (be_bytes 2 record_size ++ be_bytes 2 id) }
{
    endian::write_be16(out, at, SIZE);
    endian::write_be16(out, at + 2, id as u64);
}

// 00h to 0Fh.
fn put_common(out: &mut [u8], at: usize, command: u16, header: u8)
    requires { at + 16 ≤ length out.old }
    ensures { out.new ≡ sets out.old at (common_bytes command header) }
{
    endian::write_le32(out, at, 0);
    endian::write_le16(out, at + COMMAND, command as u64);
    endian::write_be64(out, at + STATUS, 0);
    endian::write_le16(out, at + HEADER_TYPE, header as u64);
}

// 10h to 3Fh.
fn put_body(out: &mut [u8], at: usize, r: Registers)
    requires { (at + 48 ≤ length out.old) × (r.io.base < 256) × (r.io.limit < 256) }
    ensures { out.new ≡ sets out.old at (body_bytes (planned_of r).entry) }
{
    if bar::is_bridge(r.header) {
        put_bridge(out, at, r);
        return;
    }
    let values = r.values;
    put_end(out, at, values);
}

fn put_readbacks(out: &mut [u8], at: usize, readbacks: [u32; 6])
    requires { at + 24 ≤ length out.old }
    ensures { out.new ≡ sets out.old at (dword_bytes (be_bytes 4) 6 readbacks 0) }
{
    put_be_pair(out, at, readbacks[0], readbacks[1]);
    put_be_pair(out, at + 8, readbacks[2], readbacks[3]);
    put_be_pair(out, at + 16, readbacks[4], readbacks[5]);
}

// ---- 10h to 3Fh, by the header type

fn put_end(out: &mut [u8], at: usize, values: [u32; 6])
    requires { at + 48 ≤ length out.old }
    ensures { out.new ≡ sets out.old at (dword_bytes (le_bytes 4) 6 values 0 ++ zeros 24) }
{
    put_values(out, at, values);
    endian::write_be64(out, at + AFTER_BARS, 0);
    put_zeros16(out, at + AFTER_UPPERS);
}

fn put_values(out: &mut [u8], at: usize, values: [u32; 6])
    requires { at + 24 ≤ length out.old }
    ensures { out.new ≡ sets out.old at (dword_bytes (le_bytes 4) 6 values 0) }
{
    put_le_pair(out, at, values[0], values[1]);
    put_le_pair(out, at + 8, values[2], values[3]);
    put_le_pair(out, at + 16, values[4], values[5]);
}

fn put_bridge(out: &mut [u8], at: usize, r: Registers)
    requires { (at + 48 ≤ length out.old) × (r.io.base < 256) × (r.io.limit < 256) }
    ensures { out.new ≡ sets out.old at (bridge_body r) }
{
    put_le_pair(out, at, r.values[0], r.values[1]);
    put_numbers(out, at + BUSES, r);
    put_memory(out, at + MEMORY, r.low, r.high);
    put_zeros16(out, at + AFTER_UPPERS);
}

// Buses and the I/O window.
fn put_numbers(out: &mut [u8], at: usize, r: Registers)
    requires { (at + 8 ≤ length out.old) × (r.io.base < 256) × (r.io.limit < 256) }
    ensures { out.new ≡ sets out.old at (number_bytes r.primary r.secondary r.subordinate r.io) }
{
    put_four(out, at, r.primary, r.secondary, r.subordinate, 0);
    put_four(out, at + IO, r.io.base as u8, r.io.limit as u8, 0, 0);
}

// Both memory windows, then the high one's upper words.
fn put_memory(out: &mut [u8], at: usize, low: Window, high: Window)
    requires { at + 16 ≤ length out.old }
    ensures { out.new ≡ sets out.old at (memory_bytes low high) }
{
    put_window(out, at, low);
    put_window(out, at + HIGH, high);
    put_le_pair(out, at + UPPERS, high.upper_base, high.upper_limit);
}

fn put_window(out: &mut [u8], at: usize, w: Window)
    requires { at + 4 ≤ length out.old }
    ensures { out.new ≡ sets out.old at (window_bytes w) }
{
    endian::write_le16(out, at, w.base as u64);
    endian::write_le16(out, at + LIMIT, w.limit as u64);
}

// ---- a few bytes

fn put_four(out: &mut [u8], at: usize, a: u8, b: u8, c: u8, d: u8)
    requires { at + 4 ≤ length out.old }
    ensures { out.new ≡ sets out.old at (a ∷ b ∷ c ∷ d ∷ []) }
{
    out[at] = a;
    out[at + 1] = b;
    out[at + 2] = c;
    out[at + 3] = d;
}

fn put_le_pair(out: &mut [u8], at: usize, a: u32, b: u32)
    requires { at + 8 ≤ length out.old }
    ensures { out.new ≡ sets out.old at (le_bytes 4 a ++ le_bytes 4 b) }
{
    endian::write_le32(out, at, a as u64);
    endian::write_le32(out, at + 4, b as u64);
}

fn put_be_pair(out: &mut [u8], at: usize, a: u32, b: u32)
    requires { at + 8 ≤ length out.old }
    ensures { out.new ≡ sets out.old at (be_bytes 4 a ++ be_bytes 4 b) }
{
    endian::write_be32(out, at, a as u64);
    endian::write_be32(out, at + 4, b as u64);
}

fn put_zeros16(out: &mut [u8], at: usize)
    requires { at + 16 ≤ length out.old }
    ensures { out.new ≡ sets out.old at (zeros 16) }
{
    endian::write_be64(out, at, 0);
    endian::write_be64(out, at + 8, 0);
}
