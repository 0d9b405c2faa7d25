// Both ends of a packet: a header and a register sheet to who sends it, the host or a function, and to who gets it. Any bytes may be given
// as header and sheet, and any number as the host's ID.
#![tactic(auto)]

mod climb;

ghost use Rattle.std.specs.Prelude.{◌≡◌, length};
ghost use Rattle.sheet.specs.Sheet.{sheet_number};
ghost use Rattle.route.specs.Route.{root};
ghost use Rattle.climb_ids.specs.ById.{sent_to_other, sent_up, sent_by_id};
ghost use Rattle.sheet.specs.Spaces.{nodes_of};
ghost use Rattle.route_sent.specs.BothEnds.{fate_of as fate_of_sending, answer, from_function, ends_of, both_ends_of, fate_number, number_of};
ghost use Rattle.route_sent.specs.BothEnds.{on_room, listed_after};
ghost use Rattle.route_sent.specs.Going.{IsSender, sent_of};

use claims::Aim;
use climb::Going;
use packet::Packet;
use route_answer::Routing;
use route_arrival::Heading;
use route_cards::{Arrival, Climbed, Sending};
use route_sender::Sender;
use tlp::Reading;

// What becomes of a packet from a function: delivered to another one; gone up to the host, past so many bridges; ended at the port; or
// refused by number.
#[derive(Clone, Copy)]
pub enum Fate {
    Delivered(Arrival),
    Host(u16, Packet),
    Port(Packet),
    Refused(u8),
}

// From the host, with what the router answers; from the function with this record number, with what becomes of the packet; or refused
// before a sender is looked for, by the header's number or the sheet's.
#[derive(Clone, Copy)]
pub enum BothEnds {
    FromHost(Routing),
    FromFunction(u16, Fate),
    Refused(u8),
}

impl Fate {
    // The papers' number: 0 when not refused.
    pub fn number(self) -> u8
        ensures { result ≡ fate_number self }
    {
        match self {
            Fate::Delivered(_) | Fate::Host(_, _) | Fate::Port(_) => 0,
            Fate::Refused(n) => n,
        }
    }
}

impl BothEnds {
    // The papers' number: 0 when not refused.
    pub fn number(self) -> u8
        ensures { result ≡ number_of self }
    {
        match self {
            BothEnds::FromHost(r) => r.number(),
            BothEnds::FromFunction(_, f) => f.number(),
            BothEnds::Refused(n) => n,
        }
    }
}

// A header over a sheet, with the host's own ID: the header's number before the sheet is read, then the sheet's. What is left is a packet
// over a sheet that passes.
pub fn route_sent(host_id: u16, header: &[u8], sheet: &[u8]) -> BothEnds
    ensures { result ≡ both_ends_of host_id header.now sheet.now }
{
    let reading = tlp::read(header);
    let Reading::Accepted(p) = reading else {
        return BothEnds::Refused(reading.number());
    };
    let n = sheet::check(sheet);
    if n != 0 {
        return BothEnds::Refused(n);
    }
    packet_sent(host_id, p, sheet)
}

// The same, with a broadcast's list: the number of every record, in order, from the start of the slice. A slice too short is 11 and stays
// as it was.
pub fn route_sent_listed(host_id: u16, header: &[u8], sheet: &[u8], list: &mut [u64]) -> BothEnds
    ensures value { result ≡ on_room (both_ends_of host_id header.now sheet.now) (length list.old) }
    ensures list_after { list.new ≡ listed_after result list.old }
{
    match route_sent(host_id, header, sheet) {
        BothEnds::FromHost(r) => BothEnds::FromHost(route_answer::listed(r, list)),
        BothEnds::FromFunction(number, f) => BothEnds::FromFunction(number, f),
        BothEnds::Refused(n) => BothEnds::Refused(n),
    }
}

// A packet over a sheet that is known to pass its checks. For who checks a sheet once and then routes over it many times.
pub fn packet_sent(host_id: u16, p: Packet, sheet: &[u8]) -> BothEnds
    requires { sheet_number sheet.now ≡ 0 }
    ensures { result ≡ ends_of host_id p sheet.now }
{
    match route_sender::sender_of(host_id, p, sheet) {
        Sender::Host => BothEnds::FromHost(route::route_packet(p, sheet)),
        Sender::Function(number) => BothEnds::FromFunction(
            number,
            from_function(host_id, number, route_sender::named_by(p), p, sheet),
        ),
    }
}

// ---- from a function

// By where the packet is headed, from the record with this number and this ID. 45 for what no function may send.
fn from_function(host_id: u16, number: u16, own: u16, p: Packet, sheet: &[u8]) -> Fate
    requires { (sheet_number sheet.now ≡ 0) × IsSender sheet.now number own }
    ensures { result ≡ from_function host_id number own p sheet.now }
{
    match route_arrival::heading_of(p) {
        Heading::Aimed(aim) => match aim {
            Aim::Address(_, _) => fate_of(route_cards::send_packet(number, p, sheet)),
            Aim::Id(id) => send_by_id(host_id, number, own, id, p, sheet),
        },
        Heading::Up => send_up(own, p, sheet),
        Heading::Every => Fate::Refused(45),
        Heading::Port => Fate::Port(p),
    }
}

// By ID: the host's own goes up to it, the sender's own is 40.
fn send_by_id(host_id: u16, number: u16, own: u16, id: u16, p: Packet, sheet: &[u8]) -> Fate
    requires { (sheet_number sheet.now ≡ 0) × IsSender sheet.now number own }
    ensures { result ≡ answer p (sent_by_id host_id (nodes_of sheet.now) (root sheet.now) number own id) }
{
    if id == host_id {
        return send_up(own, p, sheet);
    }
    send_to_other(number, own, id, p, sheet)
}

// By an ID that is not the host's: from the sender's bus on.
fn send_to_other(number: u16, own: u16, id: u16, p: Packet, sheet: &[u8]) -> Fate
    requires { (sheet_number sheet.now ≡ 0) × IsSender sheet.now number own }
    ensures { result ≡ answer p (sent_to_other (nodes_of sheet.now) (root sheet.now) number own id) }
{
    if id == own {
        return Fate::Refused(40);
    }
    let top = route::root_of(sheet);
    arrived(
        p,
        climb::climb(sheet, Going::ById(id), top, (own / 256) as u8, 0),
    )
}

// Up to the host, past all bridges above.
fn send_up(own: u16, p: Packet, sheet: &[u8]) -> Fate
    requires { sheet_number sheet.now ≡ 0 }
    ensures { result ≡ answer p (sent_up (nodes_of sheet.now) (root sheet.now) own) }
{
    let top = route::root_of(sheet);
    arrived(
        p,
        climb::climb(sheet, Going::OnlyUp, top, (own / 256) as u8, 0),
    )
}

// ---- answers

fn fate_of(sending: Sending) -> Fate
    ensures { result ≡ fate_of_sending sending }
{
    match sending {
        Sending::Delivered(d) => Fate::Delivered(d),
        Sending::Host(bridges, p) => Fate::Host(bridges, p),
        Sending::Refused(n) => Fate::Refused(n),
    }
}

// As it was sent.
fn arrived(p: Packet, end: Climbed) -> Fate
    ensures { result ≡ answer p (sent_of end) }
{
    match end {
        Climbed::Arrives(owner, bridges) => Fate::Delivered(Arrival {
            owner,
            bridges,
            packet: p,
        }),
        Climbed::Leaves(bridges) => Fate::Host(bridges, p),
        Climbed::Stops(n) => Fate::Refused(n),
    }
}
