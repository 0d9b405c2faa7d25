// A record's line of a trace: its number, the header's kind as read, and where the packet goes, as `1 MRd owner 2` or
// `2 IOWr refused 40`, looked up in a sheet or in an index.
#![tactic(auto)]

ghost use Rattle.std.specs.Prelude.{◌≡◌};
ghost use Rattle.text.specs.Text.{Put};
ghost use Rattle.sheet.specs.Sheet.{sheet_number};
ghost use Rattle.route.specs.Route.{from_sheet};
ghost use Rattle.trace_label.specs.Label.{owner_text};
ghost use Rattle.trace_label.specs.Word.{way_text, Labels, Told};
ghost use Rattle.trace_line.specs.Finder.{Knows, packet_by, label_by, line_by};

use packet::Packet;
use route_answer::Routing;
use text::put_text;
use tlp::Reading;
use trace_label::Label;

// Who finds a header's owner, whose bytes are lent beside it: a sheet, whose own number is known, so that who labels many headers over
// one sheet checks it once; or an index.
#[derive(Clone, Copy)]
pub enum Finder {
    Sheet(u8),
    Index,
}

// No line is longer: a number of 20 digits, a kind of 6 letters, and a refusal by number.
pub const LONGEST: usize = 40;

// Puts the line at a place, as far as it fits, and answers the next place.
pub fn put_line(
    out: &mut [u8],
    start: usize,
    n: u64,
    header: &[u8],
    finder: Finder,
    bytes: &[u8],
) -> usize
    requires { Knows finder bytes.now }
    ensures { Put out.old start (line_by finder bytes.now n header.now) out.new result }
{
    let told = label_by_bytes(header, finder, bytes);
    let label = label_of(told, header, finder, bytes);
    let mut at = text::put_decimal(out, start, n);
    at = trace_label::put_name(out, at, label.name);
    at = trace_label::put_way(out, at, label.way, label.number);
    put_text(out, at, b"\n")
}

// The label that is told, or by a packet. What tells it calls nothing that is lent the header, so that this stays in registers.
fn label_of(told: Label, header: &[u8], finder: Finder, bytes: &[u8]) -> Label
    requires { Knows finder bytes.now × Told told (label_by finder bytes.now header.now) }
    ensures { Labels result (label_by finder bytes.now header.now) }
{
    if told.way != trace_label::UNTOLD {
        return told;
    }
    label_packet(header, finder, bytes)
}

// By an index most headers need no packet.
fn label_by_bytes(header: &[u8], finder: Finder, bytes: &[u8]) -> Label
    ensures { Told result (label_by finder bytes.now header.now) }
{
    match finder {
        Finder::Sheet(_) => trace_label::untold(),
        Finder::Index => index_label::label_by_index(header, bytes),
    }
}

// ---- by a packet

// The name is in a word, so that it is stored at once. The packet is let go.
fn label_packet(header: &[u8], finder: Finder, bytes: &[u8]) -> Label
    requires { Knows finder bytes.now }
    ensures { Labels result (label_by finder bytes.now header.now) }
{
    match tlp::read(header) {
        Reading::Accepted(p) => way_of(trace_label::name_of(p), route_by(p, finder, bytes)),
        Reading::Refused(n) => Label {
            name: trace_label::NONE,
            way: trace_label::REFUSED,
            number: n as u16,
        },
    }
}

fn way_of(name: u64, routing: Routing) -> Label
    ensures { (result.name ≡ name) × (way_text result.way result.number ≡ owner_text routing) }
{
    match routing {
        Routing::Delivered(d) => Label {
            name,
            way: trace_label::OWNER,
            number: d.owner,
        },
        Routing::Broadcast(_, _) => Label {
            name,
            way: trace_label::ALL,
            number: 0,
        },
        Routing::Port(_) => Label {
            name,
            way: trace_label::PORT,
            number: 0,
        },
        Routing::Refused(n) => Label {
            name,
            way: trace_label::REFUSED,
            number: n as u16,
        },
    }
}

fn route_by(p: Packet, finder: Finder, bytes: &[u8]) -> Routing
    requires { Knows finder bytes.now }
    ensures { result ≡ packet_by finder p bytes.now }
{
    match finder {
        Finder::Sheet(number) => route_over(p, number, bytes),
        Finder::Index => index_search::search_packet(p, bytes),
    }
}

// A packet over a sheet with this number.
fn route_over(p: Packet, number: u8, sheet: &[u8]) -> Routing
    requires { number ≡ sheet_number sheet.now }
    ensures { result ≡ from_sheet p sheet.now }
{
    if number != 0 {
        return Routing::Refused(number);
    }
    route::route_packet(p, sheet)
}
