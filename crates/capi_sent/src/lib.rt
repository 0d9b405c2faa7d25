// What the C boundary's calls on both ends of a packet do: the sender, and both ends, as numbers. A host ID above FFFFh is 10, tried first.
#![tactic(auto)]

ghost use Rattle.std.specs.Prelude.{◌≡◌, ◌∷◌, ◌++◌};
ghost use Rattle.packet_numbers.specs.Numbers.{numbers_of};
ghost use Rattle.route_list.specs.Counted.{counted};
ghost use Rattle.capi_answers.specs.Answers.{gives, returned, filled};
ghost use Rattle.capi_sent.specs.Calls.{sender_number, sender_answer, on_routing, on_fate, ends_answer};

use packet::Packet;
use route_answer::Routing;
use route_sender::{Sender, SentBy};
use route_sent::{BothEnds, Fate};

// The greatest ID.
const LAST_ID: u64 = 65535;

// Where a packet goes.
const TO_FUNCTION: u64 = 0;

const TO_HOST: u64 = 1;

const TO_PORT: u64 = 2;

const TO_EVERY: u64 = 3;

// The numbers before those of the packet: sender, where it goes, record, bridges.
const FRONT: usize = 4;

// Who sends a header's packet: 0 for the host, else the record.
pub fn sender(host_id: u64, header: &[u8], sheet: &[u8], answer: &mut [u64]) -> u32
    ensures value { result ≡ returned (sender_answer host_id header.now sheet.now) answer.old }
    ensures answer_after { answer.new ≡ filled (sender_answer host_id header.now sheet.now) answer.old }
{
    if LAST_ID < host_id {
        return 10;
    }
    match route_sender::sent_by(host_id as u16, header, sheet) {
        SentBy::Told(s) => capi_answers::give_one(number_of(s), answer),
        SentBy::Refused(n) => n as u32,
    }
}

// Both ends: the sender as above, where the packet goes, the record, the bridges crossed, and the packet as it arrives. A broadcast has how
// many functions for the bridges, and after the packet their record numbers.
pub fn route_sent(host_id: u64, header: &[u8], sheet: &[u8], answer: &mut [u64]) -> u32
    ensures value { result ≡ returned (ends_answer host_id header.now sheet.now) answer.old }
    ensures answer_after { answer.new ≡ filled (ends_answer host_id header.now sheet.now) answer.old }
{
    if LAST_ID < host_id {
        return 10;
    }
    match route_sent::route_sent(host_id as u16, header, sheet) {
        BothEnds::FromHost(r) => give_routing(r, answer),
        BothEnds::FromFunction(number, f) => give_fate(number as u64, f, answer),
        BothEnds::Refused(n) => n as u32,
    }
}

// ---- numbers

fn number_of(s: Sender) -> u64
    ensures { result ≡ sender_number s }
{
    match s {
        Sender::Host => 0,
        Sender::Function(number) => number as u64,
    }
}

// From the host.
fn give_routing(routing: Routing, out: &mut [u64]) -> u32
    ensures value { result ≡ returned (on_routing routing (counted 1)) out.old }
    ensures out_after { out.new ≡ filled (on_routing routing (counted 1)) out.old }
{
    match routing {
        Routing::Delivered(d) => {
            let p = d.packet;
            give_ends(0, TO_FUNCTION, d.owner as u64, d.bridges as u64, p, out)
        }
        Routing::Broadcast(functions, p) => give_broadcast(functions as usize, p, out),
        Routing::Port(p) => give_ends(0, TO_PORT, 0, 0, p, out),
        Routing::Refused(n) => n as u32,
    }
}

// From the function with this record number.
fn give_fate(number: u64, fate: Fate, out: &mut [u64]) -> u32
    ensures value { result ≡ returned (on_fate number fate) out.old }
    ensures out_after { out.new ≡ filled (on_fate number fate) out.old }
{
    match fate {
        Fate::Delivered(d) => {
            let p = d.packet;
            give_ends(
                number,
                TO_FUNCTION,
                d.owner as u64,
                d.bridges as u64,
                p,
                out,
            )
        }
        Fate::Host(bridges, p) => give_ends(number, TO_HOST, 0, bridges as u64, p, out),
        Fate::Port(p) => give_ends(number, TO_PORT, 0, 0, p, out),
        Fate::Refused(n) => n as u32,
    }
}

fn give_ends(from: u64, goal: u64, owner: u64, bridges: u64, p: Packet, out: &mut [u64]) -> u32
    ensures value { result ≡ returned (gives (from ∷ goal ∷ owner ∷ bridges ∷ numbers_of p)) out.old }
    ensures out_after { out.new ≡ filled (gives (from ∷ goal ∷ owner ∷ bridges ∷ numbers_of p)) out.old }
{
    if out.len() < FRONT + packet_numbers::SIZE {
        return 11;
    }
    out[0] = from;
    out[1] = goal;
    out[2] = owner;
    out[3] = bridges;
    packet_numbers::put_packet(out, FRONT, p);
    0
}

// From the host to every function.
fn give_broadcast(functions: usize, p: Packet, out: &mut [u64]) -> u32
    ensures value { result ≡ returned (gives (0 ∷ 3 ∷ 0 ∷ functions ∷ (numbers_of p ++ counted 1 functions))) out.old }
    ensures out_after { out.new ≡ filled (gives (0 ∷ 3 ∷ 0 ∷ functions ∷ (numbers_of p ++ counted 1 functions))) out.old }
{
    let front = FRONT + packet_numbers::SIZE;
    if out.len() < front {
        return 11;
    }
    if out.len() - front < functions {
        return 11;
    }
    out[0] = 0;
    out[1] = TO_EVERY;
    out[2] = 0;
    out[3] = functions as u64;
    packet_numbers::put_packet(out, FRONT, p);
    route_list::put_list(out, front, functions);
    0
}
