// A packet as text: its kind and form, then each field by name, in a line that the caller ends.
// Counts and small fields are decimal; IDs, tags, byte enables, registers, addresses, and a message's
// code and tail are hexadecimal. The text stands in specs/Labels.
#![tactic(auto)]

ghost use Rattle.std.specs.Prelude.{◌≡◌};
ghost use Rattle.text.specs.Text.{Put};
ghost use Rattle.packet_text.specs.Labels.{kind_text, marks_text, transaction_text, head_text};
ghost use Rattle.packet_text.specs.Labels.{enables_text, address_text, target_text, count_text, outcome_text, content_text, body_text};
ghost use Rattle.packet_text.specs.Labels.{packet_text};

use packet::{Enables, Head, Outcome, Packet, Target};
use pairs::{CompletionKind, ConfigKind, IoKind, Kind, MemoryKind, MessageKind, MessageRouting};
use text::{put_named, put_named_hexadecimal, put_text};

// Puts the packet's text at a place, as far as it fits, and answers the next place.
pub fn put_packet(out: &mut [u8], start: usize, p: Packet) -> usize
    ensures { Put out.old start (packet_text p) out.new result }
{
    let mut at = put_kind(out, start, packet::kind_of(p));
    at = put_head(out, at, packet::head_of(p));
    put_body(out, at, p)
}

// Puts the kind's name alone.
pub fn put_kind(out: &mut [u8], at: usize, kind: Kind) -> usize
    ensures { Put out.old at (kind_text kind) out.new result }
{
    put_text(out, at, name_of(kind))
}

#[tactic(auto, unfolding(text::specs::Text::ascii))]
fn name_of(kind: Kind) -> &'static [u8]
    ensures { result.now ≡ kind_text kind }
{
    match kind {
        Kind::Memory(MemoryKind::MRd) => b"MRd",
        Kind::Memory(MemoryKind::MRdLk) => b"MRdLk",
        Kind::Memory(MemoryKind::MWr) => b"MWr",
        Kind::Io(IoKind::IORd) => b"IORd",
        Kind::Io(IoKind::IOWr) => b"IOWr",
        Kind::Config(ConfigKind::CfgRd0) => b"CfgRd0",
        Kind::Config(ConfigKind::CfgWr0) => b"CfgWr0",
        Kind::Config(ConfigKind::CfgRd1) => b"CfgRd1",
        Kind::Config(ConfigKind::CfgWr1) => b"CfgWr1",
        Kind::Completion(CompletionKind::Cpl) => b"Cpl",
        Kind::Completion(CompletionKind::CplD) => b"CplD",
        Kind::Completion(CompletionKind::CplLk) => b"CplLk",
        Kind::Completion(CompletionKind::CplDLk) => b"CplDLk",
        Kind::Message(MessageKind::Msg, _) => b"Msg",
        Kind::Message(MessageKind::MsgD, _) => b"MsgD",
        Kind::FetchAdd => b"FetchAdd",
        Kind::Swap => b"Swap",
        Kind::Cas => b"CAS",
    }
}

// What a packet of this kind has beside its head.
fn put_body(out: &mut [u8], start: usize, p: Packet) -> usize
    ensures { Put out.old start (body_text p) out.new result }
{
    match p {
        Packet::Memory(_, _, e, a) => {
            let at = put_enables(out, start, e);
            put_address(out, at, a)
        }
        Packet::Io(_, _, e, a) => {
            let at = put_enables(out, start, e);
            put_address(out, at, a)
        }
        Packet::Config(_, _, e, t) => {
            let at = put_enables(out, start, e);
            put_target(out, at, t)
        }
        Packet::Completion(_, _, o) => put_outcome(out, start, o),
        Packet::Message(_, _, routing, code, tail) => put_content(out, start, routing, code, tail),
    }
}

fn put_head(out: &mut [u8], start: usize, h: Head) -> usize
    ensures { Put out.old start (head_text h) out.new result }
{
    let mut at = put_named(out, start, b" ", h.form as u64);
    at = put_named(out, at, b"dw tc ", h.tc as u64);
    at = put_named(out, at, b" attr ", h.attr as u64);
    at = put_marks(out, at, h);
    put_transaction(out, at, h)
}

fn put_marks(out: &mut [u8], start: usize, h: Head) -> usize
    ensures { Put out.old start (marks_text h) out.new result }
{
    let mut at = put_named(out, start, b" td ", u64::from(h.td));
    at = put_named(out, at, b" ep ", u64::from(h.ep));
    put_named(out, at, b" at ", h.at as u64)
}

fn put_transaction(out: &mut [u8], start: usize, h: Head) -> usize
    ensures { Put out.old start (transaction_text h) out.new result }
{
    let mut at = put_named(out, start, b" length ", h.length as u64);
    at = put_named_hexadecimal(out, at, b" requester ", 4, h.requester as u64);
    put_named_hexadecimal(out, at, b" tag ", 3, h.tag as u64)
}

fn put_enables(out: &mut [u8], start: usize, e: Enables) -> usize
    ensures { Put out.old start (enables_text e) out.new result }
{
    let at = put_named_hexadecimal(out, start, b" last ", 1, e.last as u64);
    put_named_hexadecimal(out, at, b" first ", 1, e.first as u64)
}

fn put_address(out: &mut [u8], at: usize, a: u64) -> usize
    ensures { Put out.old at (address_text a) out.new result }
{
    put_named_hexadecimal(out, at, b" address ", 16, a)
}

fn put_target(out: &mut [u8], start: usize, t: Target) -> usize
    ensures { Put out.old start (target_text t) out.new result }
{
    let at = put_named_hexadecimal(out, start, b" target ", 4, t.id as u64);
    put_named_hexadecimal(out, at, b" register ", 3, t.register as u64)
}

fn put_outcome(out: &mut [u8], start: usize, o: Outcome) -> usize
    ensures { Put out.old start (outcome_text o) out.new result }
{
    let mut at = put_named_hexadecimal(out, start, b" completer ", 4, o.completer as u64);
    at = put_named(out, at, b" status ", o.status as u64);
    put_count(out, at, o)
}

fn put_count(out: &mut [u8], start: usize, o: Outcome) -> usize
    ensures { Put out.old start (count_text o) out.new result }
{
    let mut at = put_named(out, start, b" bcm ", u64::from(o.bcm));
    at = put_named(out, at, b" count ", o.count as u64);
    put_named_hexadecimal(out, at, b" lower ", 2, o.lower as u64)
}

fn put_content(out: &mut [u8], start: usize, routing: MessageRouting, code: u8, tail: u64) -> usize
    ensures { Put out.old start (content_text routing code tail) out.new result }
{
    let mut at = put_named(
        out,
        start,
        b" routing ",
        pairs::routing_number(routing) as u64,
    );
    at = put_named_hexadecimal(out, at, b" code ", 2, code as u64);
    put_named_hexadecimal(out, at, b" tail ", 16, tail)
}
