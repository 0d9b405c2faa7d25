// A packet on its way: what it is looked for by, whether its configuration type is wrong, and how it arrives.
#![tactic(auto)]

ghost use Rattle.std.specs.Prelude.{◌≡◌};
ghost use Rattle.route_arrival.specs.Arrival.{id_in, heading_of, message_heading, kind_wrong, type_wrong, last_kind, arrived as arrived_of};

use claims::Aim;
use packet::Packet;
use pairs::{ConfigKind, MessageRouting};
use pools::Space;

// Where a packet from the host is headed: for who has an address or an ID, up only, to every function, or for the port it came in by.
#[derive(Clone, Copy)]
pub enum Heading {
    Aimed(Aim),
    Up,
    Every,
    Port,
}

// Memory and I/O go by their start address, configuration and completions by ID, messages by their routing. A completion's ID is its
// requester.
pub fn heading_of(p: Packet) -> Heading
    ensures { result ≡ heading_of p }
{
    match p {
        Packet::Memory(_, _, _, a) => Heading::Aimed(Aim::Address(Space::Memory, a)),
        Packet::Io(_, _, _, a) => Heading::Aimed(Aim::Address(Space::Io, a)),
        Packet::Config(_, _, _, t) => Heading::Aimed(Aim::Id(t.id)),
        Packet::Completion(_, h, _) => Heading::Aimed(Aim::Id(h.requester)),
        Packet::Message(_, _, routing, _, tail) => message_heading(routing, tail),
    }
}

// Configuration type 0 for another bus than the root bus, or type 1 for the root bus.
pub fn type_wrong(p: Packet, root: u8) -> bool
    ensures { result ≡ type_wrong root p }
{
    match p {
        Packet::Config(k, _, _, t) => kind_wrong(k, t.id / 256 == u16::from(root)),
        _ => false,
    }
}

// Configuration type 1 becomes type 0 on the last bus. Nothing else changes.
pub fn arrived(p: Packet) -> Packet
    ensures { result ≡ arrived_of p }
{
    match p {
        Packet::Config(k, h, e, t) => Packet::Config(last_kind(k), h, e, t),
        _ => p,
    }
}

// ---- by the kind

fn kind_wrong(kind: ConfigKind, rooted: bool) -> bool
    ensures { result ≡ kind_wrong kind rooted }
{
    match kind {
        ConfigKind::CfgRd0 | ConfigKind::CfgWr0 => !rooted,
        ConfigKind::CfgRd1 | ConfigKind::CfgWr1 => rooted,
    }
}

fn last_kind(kind: ConfigKind) -> ConfigKind
    ensures { result ≡ last_kind kind }
{
    match kind {
        ConfigKind::CfgRd0 | ConfigKind::CfgRd1 => ConfigKind::CfgRd0,
        ConfigKind::CfgWr0 | ConfigKind::CfgWr1 => ConfigKind::CfgWr0,
    }
}

// ---- by a message's routing

fn message_heading(routing: MessageRouting, tail: u64) -> Heading
    ensures { result ≡ message_heading routing tail }
{
    match routing {
        MessageRouting::ToRoot | MessageRouting::Gathered => Heading::Up,
        MessageRouting::ByAddress => Heading::Aimed(Aim::Address(Space::Memory, tail)),
        MessageRouting::ById => Heading::Aimed(Aim::Id(id_in(tail))),
        MessageRouting::Broadcast => Heading::Every,
        MessageRouting::Local => Heading::Port,
    }
}

// Bytes 8-9, of bytes 8 to 15.
fn id_in(tail: u64) -> u16
    ensures { result ≡ id_in tail }
{
    (tail >> 48) as u16
}
