// One record's configuration writes as script records: each a length, twelve header bytes and four data bytes. The definitions stand in
// specs/Writes and specs/Script.
#![tactic(auto)]

ghost use Rattle.std.specs.Prelude.{◌≡◌, ℕ, ◌+◌, ◌*◌, ◌/◌, ◌%◌, ◌≤◌, ◌<◌, [], ◌∷◌, length};
ghost use Rattle.std.proofs.lemmas.List.Edits.{sets};
ghost use Rattle.sheet_record.specs.Places.{record_size};
ghost use Rattle.sheet_record.specs.Entry.{header_of, slot_count};
ghost use Rattle.script_writes.specs.Writes.{data_byte, data_of, is_used, slot_writes, bar_writes, window_writes, register_writes};
ghost use Rattle.script_writes.specs.Script.{write_stride};
ghost use Rattle.script_writes.specs.ScriptLaws.{kind_byte, IsRegister, header_for};
ghost use Rattle.script_writes.specs.Wrote.{Wrote, WroteOne, known_write};

use sheet_record::places;

// The bytes of a write's record, and with the two of its own length.
const SIZE: u64 = 16;

pub const STRIDE: usize = 18;

// From its length on, where its dwords stand: the header's three, then the data.
const FRONT: usize = 2;

const REQUEST: usize = 6;

const TARGET: usize = 10;

const DATA: usize = 14;

// A register's four bytes, in register order.
#[derive(Clone, Copy)]
pub struct Dword {
    pub first: u8,
    pub second: u8,
    pub third: u8,
    pub fourth: u8,
}

// The three parts of a script, each over all records before the next.
#[derive(Clone, Copy)]
pub enum Pass {
    Buses,
    Registers,
    Commands,
}

// What every write has: the boot's requester ID, and the root bus, whose functions get type 0.
#[derive(Clone, Copy)]
pub struct Boot {
    pub requester: u16,
    pub root: u8,
}

// Where the next record goes in the room, and its tag.
#[derive(Clone, Copy)]
pub struct Place {
    pub at: usize,
    pub tag: u8,
}

// The BARs that are used, then a bridge's windows.
pub fn put_registers(part: &[u8], boot: Boot, from: Place, room: &mut [u8]) -> Place
    requires { (length part.now ≡ record_size) × (from.at + write_stride * length (register_writes 0 part.now) ≤ length room.old) }
    ensures { (k : ℕ) → Wrote boot room.old from (register_writes k part.now) room.new result }
{
    let next = put_bars(part, boot, from, room);
    if !sheet_record::is_bridge(part) {
        return next;
    }
    put_windows(part, boot, next, room)
}

fn put_bars(part: &[u8], boot: Boot, from: Place, room: &mut [u8]) -> Place
    requires { (length part.now ≡ record_size)
        × (from.at + write_stride * length (bar_writes 0 part.now (slot_count (header_of part.now)) 0) ≤ length room.old) }
    ensures { (k : ℕ) → Wrote boot room.old from (bar_writes k part.now (slot_count (header_of part.now)) 0)
        room.new result }
{
    let n = sheet_record::slot_count(part);
    let mut next = from;
    for j in 0..n {
        next = put_slot(part, j, boot, next, room);
    }
    next
}

fn put_slot(part: &[u8], j: usize, boot: Boot, from: Place, room: &mut [u8]) -> Place
    requires { (length part.now ≡ record_size) × (j < 6) × (from.at + write_stride * length (slot_writes 0 part.now j) ≤ length room.old) }
    ensures { (k : ℕ) → Wrote boot room.old from (slot_writes k part.now j) room.new result }
{
    if !is_used(part, j) {
        return from;
    }
    let offset = (0x10 + 4 * j) as u8;
    put_write(part, offset, 0b1111, boot, from, room)
}

// Slot j has a BAR, or the upper half of one.
fn is_used(part: &[u8], j: usize) -> bool
    requires { (length part.now ≡ record_size) × (j < 6) }
    ensures { result ≡ is_used part.now j }
{
    let at = places::READBACK0 + 4 * j;
    endian::read_be32(part, at) != 0
}

// A bridge's window registers, closed or not.
fn put_windows(part: &[u8], boot: Boot, from: Place, room: &mut [u8]) -> Place
    requires { (length part.now ≡ record_size) × (from.at + write_stride * 5 ≤ length room.old) }
    ensures { (k : ℕ) → Wrote boot room.old from (window_writes k part.now) room.new result }
{
    let io = put_write(part, 0x1c, 0b0011, boot, from, room);
    let low = put_write(part, 0x20, 0b1111, boot, io, room);
    let high = put_write(part, 0x24, 0b1111, boot, low, room);
    let base = put_write(part, 0x28, 0b1111, boot, high, room);
    put_write(part, 0x2c, 0b1111, boot, base, room)
}

// One write of a register whose four bytes are known, those that it does not name 0.
pub fn put_known(
    id: u16,
    offset: u8,
    enables: u8,
    dword: Dword,
    boot: Boot,
    from: Place,
    room: &mut [u8],
) -> Place
    requires { IsRegister offset × (from.at + write_stride ≤ length room.old) }
    ensures { (k : ℕ) → Wrote boot room.old from (known_write k id offset enables dword ∷ []) room.new result }
{
    put_header(id, offset, enables, boot, from, room);
    put_four(
        room,
        from.at + DATA,
        dword.first,
        dword.second,
        dword.third,
        dword.fourth,
    );
    Place {
        at: from.at + STRIDE,
        tag: from.tag.wrapping_add(1),
    }
}

// One write: its length, its header, and the data bytes that it names. Stored dword by dword: its eighteen bytes at once are more than
// there are registers, and what has none may stand in the red zone.
fn put_write(
    part: &[u8],
    offset: u8,
    enables: u8,
    boot: Boot,
    from: Place,
    room: &mut [u8],
) -> Place
    requires { (length part.now ≡ record_size) × IsRegister offset × (from.at + write_stride ≤ length room.old) }
    ensures { WroteOne boot room.old from part.now offset enables room.new result }
{
    let id = sheet_record::id_of(part);
    put_header(id, offset, enables, boot, from, room);
    put_data(part, offset, enables, room, from.at + DATA);
    Place {
        at: from.at + STRIDE,
        tag: from.tag.wrapping_add(1),
    }
}

// The length, and the header's three dwords.
fn put_header(id: u16, offset: u8, enables: u8, boot: Boot, from: Place, room: &mut [u8])
    requires { from.at + 14 ≤ length room.old }
    ensures { room.new ≡ sets room.old from.at (header_for boot from.tag id enables offset) }
{
    put_front(id / 256 == boot.root as u16, room, from.at);
    put_request(boot.requester, from.tag, enables, room, from.at + REQUEST);
    put_target(id, offset, room, from.at + TARGET);
}

fn put_front(root: bool, room: &mut [u8], at: usize)
    requires { at + 6 ≤ length room.old }
    ensures { room.new ≡ sets room.old at (0 ∷ 16 ∷ kind_byte root ∷ 0 ∷ 0 ∷ 1 ∷ []) }
{
    let kind = kind_byte(root);
    endian::write_be16(room, at, SIZE);
    put_four(room, at + FRONT, kind, 0, 0, 1);
}

fn put_request(requester: u16, tag: u8, enables: u8, room: &mut [u8], at: usize)
    requires { at + 4 ≤ length room.old }
    ensures { room.new ≡ sets room.old at ((requester / 256) ∷ (requester % 256) ∷ tag ∷ enables ∷ []) }
{
    let [high, low] = requester.to_be_bytes();
    put_four(room, at, high, low, tag, enables);
}

fn put_target(id: u16, offset: u8, room: &mut [u8], at: usize)
    requires { at + 4 ≤ length room.old }
    ensures { room.new ≡ sets room.old at ((id / 256) ∷ (id % 256) ∷ 0 ∷ offset ∷ []) }
{
    let [high, low] = id.to_be_bytes();
    put_four(room, at, high, low, 0, offset);
}

// A register's four bytes, 0 where they are not named.
fn put_data(part: &[u8], offset: u8, enables: u8, room: &mut [u8], at: usize)
    requires { (length part.now ≡ record_size) × IsRegister offset × (at + 4 ≤ length room.old) }
    ensures { room.new ≡ sets room.old at (data_of part.now offset enables) }
{
    let first = data_byte(part, offset, enables, 0);
    let second = data_byte(part, offset, enables, 1);
    let third = data_byte(part, offset, enables, 2);
    let fourth = data_byte(part, offset, enables, 3);
    put_four(room, at, first, second, third, fourth);
}

fn put_four(room: &mut [u8], at: usize, a: u8, b: u8, c: u8, d: u8)
    requires { at + 4 ≤ length room.old }
    ensures { room.new ≡ sets room.old at (a ∷ b ∷ c ∷ d ∷ []) }
{
    room[at] = a;
    room[at + 1] = b;
    room[at + 2] = c;
    room[at + 3] = d;
}

// Byte 0 of a configuration write, of type 0 or 1.
fn kind_byte(root: bool) -> u8
    ensures { result ≡ kind_byte root }
{
    if root { 0x44 } else { 0x45 }
}

// Byte i of a register, or 0 where it is not named.
fn data_byte(part: &[u8], offset: u8, enables: u8, i: u8) -> u8
    requires { (length part.now ≡ record_size) × IsRegister offset × (i < 4) }
    ensures { result ≡ data_byte part.now offset enables i }
{
    if (enables >> i) % 2 == 1 {
        let at = places::REGISTERS + offset as usize + i as usize;
        return part[at];
    }
    0
}
