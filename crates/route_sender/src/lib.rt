// Who sends a packet, the host or a function, by the host's own ID, a header and a register sheet. Any bytes may be given as header and
// sheet, and any number as the ID.
#![tactic(auto)]

ghost use Rattle.std.specs.Prelude.{◌≡◌};
ghost use Rattle.sheet.specs.Sheet.{sheet_number};
ghost use Rattle.route_sender.specs.Sender.{named_by, starts_at_host, named_in, sender_of, sent_by_of, number_of};

use claims::{Aim, Claim, Tally};
use packet::Packet;
use pairs::MessageRouting;
use tlp::Reading;

// The host, or the function with this record number.
#[derive(Clone, Copy)]
pub enum Sender {
    Host,
    Function(u16),
}

// Who sends it, or refused by the header's number or the sheet's.
#[derive(Clone, Copy)]
pub enum SentBy {
    Told(Sender),
    Refused(u8),
}

impl SentBy {
    // The papers' number: 0 when not refused.
    pub fn number(self) -> u8
        ensures { result ≡ number_of self }
    {
        match self {
            SentBy::Told(_) => 0,
            SentBy::Refused(n) => n,
        }
    }
}

// Who sends a header's packet over a sheet: the header's number before the sheet is read, then the sheet's.
pub fn sent_by(host_id: u16, header: &[u8], sheet: &[u8]) -> SentBy
    ensures { result ≡ sent_by_of host_id header.now sheet.now }
{
    let reading = tlp::read(header);
    let Reading::Accepted(p) = reading else {
        return SentBy::Refused(reading.number());
    };
    let n = sheet::check(sheet);
    if n != 0 {
        return SentBy::Refused(n);
    }
    SentBy::Told(sender_of(host_id, p, sheet))
}

// The ID that a header names as its sender's.
pub fn named_by(p: Packet) -> u16
    ensures { result ≡ named_by p }
{
    match p {
        Packet::Memory(_, h, _, _)
        | Packet::Io(_, h, _, _)
        | Packet::Config(_, h, _, _)
        | Packet::Message(_, h, _, _, _) => h.requester,
        Packet::Completion(_, _, o) => o.completer,
    }
}

// The same of a packet over a sheet that is known to pass its checks: the host for what only it sends, for its own ID and for an ID that no
// function has, else the function with that ID.
pub fn sender_of(host_id: u16, p: Packet, sheet: &[u8]) -> Sender
    requires { sheet_number sheet.now ≡ 0 }
    ensures { result ≡ sender_of host_id p sheet.now }
{
    let id = named_by(p);
    if starts_at_host(p) | (id == host_id) {
        return Sender::Host;
    }
    named_in(sheet, id)
}

fn starts_at_host(p: Packet) -> bool
    ensures { result ≡ starts_at_host p }
{
    matches!(
        p,
        Packet::Config(_, _, _, _) | Packet::Message(_, _, MessageRouting::Broadcast, _, _)
    )
}

// On an ID's own bus only the function with that ID claims it.
fn named_in(sheet: &[u8], id: u16) -> Sender
    requires { sheet_number sheet.now ≡ 0 }
    ensures { result ≡ named_in sheet.now id }
{
    match claims::tally_on(sheet, Aim::Id(id), (id / 256) as u8) {
        Tally::One(claim) => match claim {
            Claim::Bar(number) => Sender::Function(number),
            Claim::Window(_, _) => Sender::Host,
        },
        Tally::Nothing | Tally::Several => Sender::Host,
    }
}
