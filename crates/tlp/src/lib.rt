// The header codec: any bytes are read as a packet or refused by number, and a packet is written as
// the layout's bytes or refused by number.
#![tactic(auto)]

ghost use Rattle.std.specs.Prelude.{◌≡◌, ◌≤◌, ◌*◌, length};
ghost use Rattle.pairs.specs.declared.Kind.TheVariants.{Memory, Io, Config, Completion, Message};
ghost use Rattle.pairs.specs.declared.Pair.TheVariants.{Carried};
ghost use Rattle.tlp.specs.Reading.{number_of as reading_number, read_of, read_pair, read_as, judged};
ghost use Rattle.tlp.specs.Writing.{number_of as writing_number, write_of, room_after};
ghost use Rattle.packet.specs.Rules.{rule_number};
ghost use Rattle.packet.specs.Verdict.{verdict_of};
ghost use Rattle.packet.specs.declared.Verdict.TheVariants.{Lawful};

use packet::{Packet, Verdict};
use pairs::{
    CompletionKind, ConfigKind, IoKind, Kind, MemoryKind, MessageKind, MessageRouting, Pair, Row,
};

// A header that was read: its packet, or the number of the first check that it fails.
#[derive(Clone, Copy)]
pub enum Reading {
    Accepted(Packet),
    Refused(u8),
}

impl Reading {
    // Document 01's number: 0 when accepted.
    pub fn number(self) -> u8
        ensures { result ≡ reading_number self }
    {
        match self {
            Reading::Accepted(_) => 0,
            Reading::Refused(n) => n,
        }
    }
}

// A packet that was written: how many bytes, or the number of the first check that it fails.
#[derive(Clone, Copy)]
pub enum Writing {
    Written(usize),
    Refused(u8),
}

impl Writing {
    // Document 01's number: 0 when written.
    pub fn number(self) -> u8
        ensures { result ≡ writing_number self }
    {
        match self {
            Writing::Written(_) => 0,
            Writing::Refused(n) => n,
        }
    }
}

// Reads the header at the front of any bytes. Later bytes are not looked at.
pub fn read(header: &[u8]) -> Reading
    ensures { result ≡ read_of header.now }
{
    if header.len() < 12 {
        return Reading::Refused(1);
    }
    match pairs::pair_of(header[0]) {
        Pair::Unknown => Reading::Refused(2),
        Pair::NotCarried => Reading::Refused(3),
        Pair::Carried(row) => read_row(row, header),
    }
}

// Writes the packet's 12 or 16 bytes at the front of the room and nothing past them. A refused
// packet leaves the room as it was.
pub fn write(p: Packet, room: &mut [u8]) -> Writing
    ensures { (result ≡ write_of p (length room.old)) × (room.new ≡ room_after p room.old) }
{
    match packet::judge(p) {
        Verdict::Refused(n) => Writing::Refused(n),
        Verdict::Lawful(row) => write_lawful(row, p, room),
    }
}

fn read_row(row: Row, s: &[u8]) -> Reading
    requires { 12 ≤ length s.now }
    ensures { result ≡ read_pair (Carried row) s.now }
{
    let form = row.form;
    let name = row.name;
    if s.len() < size_of(form) {
        return Reading::Refused(1);
    }
    read_as(pairs::kind_named(name), form, s)
}

fn read_as(kind: Kind, form: u8, s: &[u8]) -> Reading
    requires { (12 ≤ length s.now) × (4 * form ≤ length s.now) }
    ensures { result ≡ read_as kind form s.now }
{
    match kind {
        Kind::Memory(k) => read_memory(k, form, s),
        Kind::Io(k) => read_io(k, form, s),
        Kind::Config(k) => read_config(k, form, s),
        Kind::Completion(k) => read_completion(k, form, s),
        Kind::Message(k, routing) => read_message(k, routing, form, s),
        Kind::FetchAdd => Reading::Refused(3),
        Kind::Swap => Reading::Refused(3),
        Kind::Cas => Reading::Refused(3),
    }
}

// Each kind's rules look at its fields before they are put together: a packet made for the rules would
// be stored and loaded again.
fn read_memory(k: MemoryKind, form: u8, s: &[u8]) -> Reading
    requires { (12 ≤ length s.now) × (4 * form ≤ length s.now) }
    ensures { result ≡ read_as (Memory k) form s.now }
{
    let h = tlp_fields::request_head_at(form, s);
    let e = tlp_fields::enables_at(s);
    let a = tlp_fields::address_at(form, s);
    let stray = tlp_fields::unnamed(packet::is_write(k), s);
    let n = packet::memory_rules(h, e, a);
    judge(stray, n, Packet::Memory(k, h, e, a))
}

fn read_io(k: IoKind, form: u8, s: &[u8]) -> Reading
    requires { (12 ≤ length s.now) × (4 * form ≤ length s.now) }
    ensures { result ≡ read_as (Io k) form s.now }
{
    let h = tlp_fields::request_head_at(form, s);
    let e = tlp_fields::enables_at(s);
    let a = tlp_fields::address_at(form, s);
    let stray = tlp_fields::unnamed(false, s);
    let n = packet::io_rules(h, e, a);
    judge(stray, n, Packet::Io(k, h, e, a))
}

fn read_config(k: ConfigKind, form: u8, s: &[u8]) -> Reading
    requires { 12 ≤ length s.now }
    ensures { result ≡ read_as (Config k) form s.now }
{
    let h = tlp_fields::request_head_at(form, s);
    let e = tlp_fields::enables_at(s);
    let t = tlp_fields::target_at(s);
    let stray = tlp_fields::unnamed(false, s) | tlp_fields::unnamed_target(s);
    let n = packet::config_rules(h, e);
    judge(stray, n, Packet::Config(k, h, e, t))
}

fn read_completion(k: CompletionKind, form: u8, s: &[u8]) -> Reading
    requires { 12 ≤ length s.now }
    ensures { result ≡ read_as (Completion k) form s.now }
{
    let h = tlp_fields::completion_head_at(k, form, s);
    let o = tlp_fields::outcome_at(s);
    let stray = tlp_fields::unnamed(false, s) | tlp_fields::unnamed_lower(s);
    let n = packet::completion_rules(k, h, o);
    judge(stray, n, Packet::Completion(k, h, o))
}

fn read_message(k: MessageKind, routing: MessageRouting, form: u8, s: &[u8]) -> Reading
    requires { (12 ≤ length s.now) × (4 * form ≤ length s.now) }
    ensures { result ≡ read_as (Message k routing) form s.now }
{
    let h = tlp_fields::message_head_at(k, form, s);
    let code = tlp_fields::message_code_at(s);
    let tail = tlp_fields::address_at(form, s);
    let stray = tlp_fields::unnamed(true, s);
    let n = packet::message_rules(k, h, routing, tail);
    judge(stray, n, Packet::Message(k, h, routing, code, tail))
}

// 4 for a bit that the layout does not name, then n: what rules 4 to 9 say of the packet.
fn judge(stray: bool, n: u8, p: Packet) -> Reading
    requires { n ≡ rule_number p }
    ensures { result ≡ judged stray p }
{
    if stray {
        return Reading::Refused(4);
    }
    if n == 0 {
        return Reading::Accepted(p);
    }
    Reading::Refused(n)
}

fn write_lawful(row: Row, p: Packet, room: &mut [u8]) -> Writing
    requires { verdict_of p ≡ Lawful row }
    ensures { (result ≡ write_of p (length room.old)) × (room.new ≡ room_after p room.old) }
{
    let h = packet::head_of(p);
    let n = size_of(h.form);
    if room.len() < n {
        return Writing::Refused(11);
    }
    tlp_layout::put(row, p, room);
    Writing::Written(n)
}

fn size_of(form: u8) -> usize
    ensures { result ≡ 4 * form }
{
    4 * (form as usize)
}
