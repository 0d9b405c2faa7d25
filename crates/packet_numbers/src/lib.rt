// A packet as twenty numbers, for callers that have no enums: kind, form, TC, Attr, TD, EP, AT, Length, requester, tag, last enables,
// first enables, address, target, register, completer, status, BCM, byte count, lower address. A message has its routing, its code and its
// bytes 8 to 15 where a request has its enables and its address. A field that the kind does not have is 0.
#![tactic(auto)]

ghost use Rattle.std.specs.Prelude.{◌≡◌, [], ◌∷◌, ◌++◌, ◌+◌, ◌≤◌, length};
ghost use Rattle.std.proofs.lemmas.List.Edits.{sets};
ghost use Rattle.packet_numbers.specs.Numbers.{message_code, head_numbers, request_numbers, message_numbers};
ghost use Rattle.packet_numbers.specs.Numbers.{outcome_numbers, absent, numbers_of};

use packet::{Enables, Head, Outcome, Packet};
use pairs::{Kind, MessageKind, MessageRouting};

// How many numbers a packet has.
pub const SIZE: usize = 20;

// Stores the packet's twenty numbers from a place on. The kind is looked at once.
pub fn put_packet(out: &mut [u64], at: usize, p: Packet)
    requires { at + 20 ≤ length out.old }
    ensures { out.new ≡ sets out.old at (numbers_of p) }
{
    match p {
        Packet::Memory(k, h, e, a) => {
            let kind = pairs::kind_number(Kind::Memory(k));
            put_request(out, at, kind, h, e, a, 0, 0)
        }
        Packet::Io(k, h, e, a) => {
            let kind = pairs::kind_number(Kind::Io(k));
            put_request(out, at, kind, h, e, a, 0, 0)
        }
        Packet::Config(k, h, e, t) => {
            let kind = pairs::kind_number(Kind::Config(k));
            put_request(out, at, kind, h, e, 0, t.id as u64, t.register as u64)
        }
        Packet::Completion(k, h, o) => {
            let kind = pairs::kind_number(Kind::Completion(k));
            put_completion(out, at, kind, h, o)
        }
        Packet::Message(k, h, routing, code, tail) => {
            let kind = message_code(k);
            put_message(out, at, kind, h, routing, code, tail)
        }
    }
}

// A message's number, whatever its routing.
fn message_code(k: MessageKind) -> u8
    ensures { result ≡ message_code k }
{
    match k {
        MessageKind::Msg => 13,
        MessageKind::MsgD => 14,
    }
}

fn put_head(out: &mut [u64], at: usize, kind: u8, h: Head)
    requires { at + 10 ≤ length out.old }
    ensures { out.new ≡ sets out.old at (head_numbers kind h) }
{
    let td = u64::from(h.td);
    let ep = u64::from(h.ep);
    put_five(
        out,
        at,
        kind as u64,
        h.form as u64,
        h.tc as u64,
        h.attr as u64,
        td,
    );
    put_five(
        out,
        at + 5,
        ep,
        h.at as u64,
        h.length as u64,
        h.requester as u64,
        h.tag as u64,
    );
}

pub fn put_request(
    out: &mut [u64],
    at: usize,
    kind: u8,
    h: Head,
    e: Enables,
    address: u64,
    target: u64,
    register: u64,
)
    requires { at + 20 ≤ length out.old }
    ensures { out.new ≡ sets out.old at (head_numbers kind h ++ (request_numbers e address target register ++ absent)) }
{
    put_head(out, at, kind, h);
    put_target(out, at + 10, e, address, target, register);
}

pub fn put_completion(out: &mut [u64], at: usize, kind: u8, h: Head, o: Outcome)
    requires { at + 20 ≤ length out.old }
    ensures { out.new ≡ sets out.old at (head_numbers kind h ++ (absent ++ outcome_numbers o)) }
{
    put_head(out, at, kind, h);
    put_outcome(out, at + 10, o);
}

fn put_message(
    out: &mut [u64],
    at: usize,
    kind: u8,
    h: Head,
    routing: MessageRouting,
    code: u8,
    tail: u64,
)
    requires { at + 20 ≤ length out.old }
    ensures { out.new ≡ sets out.old at (head_numbers kind h ++ (message_numbers routing code tail ++ absent)) }
{
    let rrr = pairs::routing_number(routing);
    put_head(out, at, kind, h);
    put_five(out, at + 10, rrr as u64, code as u64, tail, 0, 0);
    put_five(out, at + 15, 0, 0, 0, 0, 0);
}

// Enables, address, target and register of a request.
fn put_target(out: &mut [u64], at: usize, e: Enables, address: u64, target: u64, register: u64)
    requires { at + 10 ≤ length out.old }
    ensures { out.new ≡ sets out.old at (request_numbers e address target register ++ absent) }
{
    put_five(
        out,
        at,
        e.last as u64,
        e.first as u64,
        address,
        target,
        register,
    );
    put_five(out, at + 5, 0, 0, 0, 0, 0);
}

fn put_outcome(out: &mut [u64], at: usize, o: Outcome)
    requires { at + 10 ≤ length out.old }
    ensures { out.new ≡ sets out.old at (absent ++ outcome_numbers o) }
{
    let bcm = u64::from(o.bcm);
    put_five(out, at, 0, 0, 0, 0, 0);
    put_five(
        out,
        at + 5,
        o.completer as u64,
        o.status as u64,
        bcm,
        o.count as u64,
        o.lower as u64,
    );
}

fn put_five(out: &mut [u64], at: usize, a: u64, b: u64, c: u64, d: u64, e: u64)
    requires { at + 5 ≤ length out.old }
    ensures { out.new ≡ sets out.old at (a ∷ b ∷ c ∷ d ∷ e ∷ []) }
{
    out[at] = a;
    out[at + 1] = b;
    out[at + 2] = c;
    out[at + 3] = d;
    out[at + 4] = e;
}
