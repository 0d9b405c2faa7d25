// What becomes of a packet, for all who route: the checks before it is looked for, the answer where it is delivered, and a broadcast's
// list.
#![tactic(auto)]

ghost use Rattle.std.specs.Prelude.{◌≡◌, length};
ghost use Rattle.route_answer.specs.Routing.{number_of, arrives, Goes};
ghost use Rattle.route_answer.specs.declared.Routing.TheVariants.{Delivered};
ghost use Rattle.route_answer.specs.Listed.{on_room, listed_after};

use claims::Aim;
use packet::Packet;
use route_arrival::Heading;

// The record that gets a packet, by its number, the bridges crossed on the way, and the packet as it arrives.
#[derive(Clone, Copy)]
pub struct Delivery {
    pub owner: u16,
    pub bridges: u8,
    pub packet: Packet,
}

// What becomes of a packet: delivered to one function; to every function, so many; ended at the port; or refused by number.
#[derive(Clone, Copy)]
pub enum Routing {
    Delivered(Delivery),
    Broadcast(u16, Packet),
    Port(Packet),
    Refused(u8),
}

impl Routing {
    // Document 01's number: 0 when not refused.
    pub fn number(self) -> u8
        ensures { result ≡ number_of self }
    {
        match self {
            Routing::Refused(n) => n,
            _ => 0,
        }
    }
}

// What comes next for a packet after the checks: it is looked for by an address or an ID, or answered.
#[derive(Clone, Copy)]
pub enum Next {
    Aimed(Aim),
    Answered(Routing),
}

// 40 for no functions, 42 and 43, then where the packet is headed. With no functions the root bus is not looked at.
pub fn onward(p: Packet, functions: u16, root: u8) -> Next
    ensures { Goes p functions root result }
{
    if functions == 0 {
        return Next::Answered(Routing::Refused(40));
    }
    if route_arrival::type_wrong(p, root) {
        return Next::Answered(Routing::Refused(42));
    }
    match route_arrival::heading_of(p) {
        Heading::Aimed(aim) => Next::Aimed(aim),
        Heading::Up => Next::Answered(Routing::Refused(43)),
        Heading::Every => Next::Answered(Routing::Broadcast(functions, p)),
        Heading::Port => Next::Answered(Routing::Port(p)),
    }
}

// At the function with this record number, after so many bridges.
pub fn deliver(p: Packet, owner: u16, bridges: u8) -> Routing
    ensures { result ≡ Delivered (arrives p owner bridges) }
{
    Routing::Delivered(Delivery {
        owner,
        bridges,
        packet: route_arrival::arrived(p),
    })
}

// An answer with a broadcast's list: the number of every record, in order, from the start of the slice. A slice too short is 11 and stays
// as it was.
pub fn listed(routing: Routing, list: &mut [u64]) -> Routing
    ensures value { result ≡ on_room routing (length list.old) }
    ensures list_after { list.new ≡ listed_after result list.old }
{
    if let Routing::Broadcast(functions, _) = routing {
        let size = functions as usize;
        if list.len() < size {
            return Routing::Refused(11);
        }
        route_list::put_list(list, 0, size);
    }
    routing
}
