// A record's line of a trace with both ends: its number, the header's kind as read, who sends the packet and who gets it, as
// `4 MWr from 3 to host`, `6 MRd from host to 4` or `7 MWr from 3 refused 44`.
#![tactic(auto)]

ghost use Rattle.std.specs.Prelude.{◌≡◌, ◌++◌};
ghost use Rattle.text.specs.Text.{Put, ascii};
ghost use Rattle.packet.specs.Fields.{kind_of};
ghost use Rattle.packet_text.specs.Labels.{kind_text};
ghost use Rattle.sheet.specs.Sheet.{sheet_number};
ghost use Rattle.route_sent.specs.BothEnds.{from_sheet};
ghost use Rattle.trace_ends.specs.Ends.{routed_text, fate_text, ends_text, label_ends, line_ends};

use packet::Packet;
use route_answer::Routing;
use route_sent::{BothEnds, Fate};
use text::{put_named, put_text};
use tlp::Reading;

// No line is longer: a number of 20 digits, a kind of 6 letters, a sender with up to 5 digits, and a refusal by number.
pub const LONGEST: usize = 51;

// Puts the line at a place, as far as it fits, and answers the next place. The sheet's own number is known, so that who labels many
// headers over one sheet checks it once.
pub fn put_line(
    out: &mut [u8],
    start: usize,
    n: u64,
    header: &[u8],
    host_id: u16,
    number: u8,
    sheet: &[u8],
) -> usize
    requires { number ≡ sheet_number sheet.now }
    ensures { Put out.old start (line_ends host_id sheet.now n header.now) out.new result }
{
    let mut at = text::put_decimal(out, start, n);
    at = put_label(out, at, header, host_id, number, sheet);
    put_text(out, at, b"\n")
}

fn put_label(
    out: &mut [u8],
    at: usize,
    header: &[u8],
    host_id: u16,
    number: u8,
    sheet: &[u8],
) -> usize
    requires { number ≡ sheet_number sheet.now }
    ensures { Put out.old at (label_ends host_id sheet.now header.now) out.new result }
{
    match tlp::read(header) {
        Reading::Accepted(p) => {
            let next = put_kind(out, at, p);
            put_ends(out, next, ends_over(host_id, p, number, sheet))
        }
        Reading::Refused(n) => put_named(out, at, b" - refused ", n as u64),
    }
}

fn put_kind(out: &mut [u8], at: usize, p: Packet) -> usize
    ensures { Put out.old at (ascii " " ++ kind_text (kind_of p)) out.new result }
{
    let next = put_text(out, at, b" ");
    packet_text::put_kind(out, next, packet::kind_of(p))
}

// A packet over a sheet with this number.
fn ends_over(host_id: u16, p: Packet, number: u8, sheet: &[u8]) -> BothEnds
    requires { number ≡ sheet_number sheet.now }
    ensures { result ≡ from_sheet host_id p sheet.now }
{
    if number != 0 {
        return BothEnds::Refused(number);
    }
    route_sent::packet_sent(host_id, p, sheet)
}

// ---- both ends as text

fn put_ends(out: &mut [u8], at: usize, ends: BothEnds) -> usize
    ensures { Put out.old at (ends_text ends) out.new result }
{
    match ends {
        BothEnds::FromHost(routing) => {
            let next = put_text(out, at, b" from host");
            put_routed(out, next, routing)
        }
        BothEnds::FromFunction(record, fate) => {
            let next = put_named(out, at, b" from ", record as u64);
            put_fate(out, next, fate)
        }
        BothEnds::Refused(n) => put_named(out, at, b" refused ", n as u64),
    }
}

fn put_routed(out: &mut [u8], at: usize, routing: Routing) -> usize
    ensures { Put out.old at (routed_text routing) out.new result }
{
    match routing {
        Routing::Delivered(d) => put_named(out, at, b" to ", d.owner as u64),
        Routing::Broadcast(_, _) => put_text(out, at, b" to all"),
        Routing::Port(_) => put_text(out, at, b" to port"),
        Routing::Refused(n) => put_named(out, at, b" refused ", n as u64),
    }
}

fn put_fate(out: &mut [u8], at: usize, fate: Fate) -> usize
    ensures { Put out.old at (fate_text fate) out.new result }
{
    match fate {
        Fate::Delivered(d) => put_named(out, at, b" to ", d.owner as u64),
        Fate::Host(_, _) => put_text(out, at, b" to host"),
        Fate::Port(_) => put_text(out, at, b" to port"),
        Fate::Refused(n) => put_named(out, at, b" refused ", n as u64),
    }
}
