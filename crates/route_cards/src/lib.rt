// Card to card: a header that starts at a function of a register sheet, named by record, to the function that gets it, to the host, or to a
// number. Any bytes may be given as header and sheet, and any number as record.
#![tactic(auto)]

mod above;
mod holds;
mod start;

ghost use Rattle.std.specs.Prelude.{◌≡◌, ◌+◌, ◌≤◌};
ghost use Rattle.walk.specs.Climb.{sent_of as outcome_sent};
ghost use Rattle.sheet.specs.Sheet.{sheet_number};
ghost use Rattle.sheet.proofs.SheetLaws.{Checked};
ghost use Rattle.route.specs.Route.{walked};
ghost use Rattle.route_cards.specs.Sending.{number_of, sending_of, send_packet, send_request, climbed};
ghost use Rattle.route_cards.specs.Search.{sent_of, IsType0, start_answer};

use claims::{Aim, Claim, Tally};
use packet::Packet;
use pools::Space;
use route::Walked;
use tlp::Reading;

// The record that gets a request, by its number, the bridges crossed up and down, and the request as it arrives.
#[derive(Clone, Copy)]
pub struct Arrival {
    pub owner: u16,
    pub bridges: u16,
    pub packet: Packet,
}

// What becomes of a request: delivered to one function; gone up to the host, past so many bridges; or refused by number.
#[derive(Clone, Copy)]
pub enum Sending {
    Delivered(Arrival),
    Host(u16, Packet),
    Refused(u8),
}

impl Sending {
    // The papers' number: 0 when not refused.
    pub fn number(self) -> u8
        ensures { result ≡ number_of self }
    {
        match self {
            Sending::Delivered(_) | Sending::Host(_, _) => 0,
            Sending::Refused(n) => n,
        }
    }
}

// A header that starts at a record of a sheet: the header's number before the sheet is read, then the sheet's. What is left is a packet
// over a sheet that passes.
pub fn route_from(number: u16, header: &[u8], sheet: &[u8]) -> Sending
    ensures { result ≡ sending_of number header.now sheet.now }
{
    let reading = tlp::read(header);
    let Reading::Accepted(p) = reading else {
        return Sending::Refused(reading.number());
    };
    let n = sheet::check(sheet);
    if n != 0 {
        return Sending::Refused(n);
    }
    send_packet(number, p, sheet)
}

// A packet over a sheet that is known to pass its checks: 45 for what is no memory or I/O request, and for a record that is no type 0
// function of the sheet. For who checks a sheet once and then routes over it many times.
pub fn send_packet(number: u16, p: Packet, sheet: &[u8]) -> Sending
    requires { sheet_number sheet.now ≡ 0 }
    ensures { result ≡ send_packet number p sheet.now }
{
    match start::request_of(p) {
        Some((space, address)) => {
            if !start::is_type_0(sheet, number) {
                return Sending::Refused(45);
            }
            send_request(number, p, sheet, space, address)
        }
        None => Sending::Refused(45),
    }
}

// ---- the climb

// Where a climb ends: at a record after so many bridges, at the host after so many, or refused by number.
#[derive(Clone, Copy)]
pub enum Climbed {
    Arrives(u16, u16),
    Leaves(u16),
    Stops(u8),
}

// Where a bus with no claim leads: to the host, through the bridge with this number to its own bus, or refused by number.
#[derive(Clone, Copy)]
pub enum Up {
    Host,
    Across(u16, u8),
    Halts(u8),
}

// A request from a type 0 function: 44 without its bus master, 40 for its own BAR, and then from its bus on.
fn send_request(number: u16, p: Packet, sheet: &[u8], space: Space, address: u64) -> Sending
    requires { Checked sheet.now × IsType0 sheet.now number }
    ensures { result ≡ send_request p sheet.now space address (start_answer space sheet.now number) }
{
    let part = sheet::part(sheet, number as usize - 1);
    if !sheet_record::is_master(part) {
        return Sending::Refused(44);
    }
    if holds::bars_hold(part, space, address) {
        return Sending::Refused(40);
    }
    let root = route::root_of(sheet);
    match climb(sheet, space, address, root, sheet_record::bus_of(part), 0) {
        Climbed::Arrives(owner, bridges) => Sending::Delivered(Arrival {
            owner,
            bridges,
            packet: p,
        }),
        Climbed::Leaves(bridges) => Sending::Host(bridges, p),
        Climbed::Stops(n) => Sending::Refused(n),
    }
}

// From a bus on, with so many bridges crossed. A bridge's own bus has a smaller number than its secondary, so the climb ends.
fn climb(sheet: &[u8], space: Space, address: u64, root: u8, bus: u8, crossed: u16) -> Climbed
    requires { Checked sheet.now × (crossed + bus ≤ 255) }
    ensures { sent_of result ≡ climbed space address sheet.now root bus crossed }
{
    let aim = Aim::Address(space, address);
    match claims::tally_on(sheet, aim, bus) {
        Tally::Nothing => match above::way_up(sheet, space, address, root, bus) {
            Up::Host => Climbed::Leaves(crossed),
            Up::Across(_, own) => climb(sheet, space, address, root, own, crossed + 1),
            Up::Halts(n) => Climbed::Stops(n),
        },
        Tally::One(claim) => match claim {
            Claim::Bar(number) => Climbed::Arrives(number, crossed),
            Claim::Window(_, secondary) => descend(sheet, aim, secondary, crossed + 1),
        },
        Tally::Several => Climbed::Stops(41),
    }
}

// Down from a window's claim: document 01's walk from the secondary bus, and the bridges crossed before it added.
pub fn descend(sheet: &[u8], aim: Aim, bus: u8, crossed: u16) -> Climbed
    requires { Checked sheet.now × (crossed ≤ 256) }
    ensures { sent_of result ≡ outcome_sent (walked aim sheet.now bus crossed) }
{
    match route::walk(sheet, aim, bus, 0) {
        Walked::Delivered(number, bridges) => Climbed::Arrives(
            number,
            crossed + u16::from(bridges),
        ),
        Walked::Refused(n) => Climbed::Stops(n),
    }
}
