// Where a header's packet goes, as the answer to a line of test_routes' script, and the short answers, each put into lent bytes from their
// start.
#![tactic(auto)]

use packet::Packet;
use route_answer::{Delivery, Routing};
use route_cards::{Arrival, Sending};
use text::{put_byte, put_named, put_text};

pub fn put_routing(out: &mut [u8], header: &[u8], sheet: &[u8]) -> usize {
    match route::route(header, sheet) {
        Routing::Delivered(d) => put_delivery(out, d),
        Routing::Broadcast(functions, p) => {
            let at = put_named(out, 0, b"all ", functions as u64);
            put_arrived(out, at, p)
        }
        Routing::Port(p) => {
            let at = put_text(out, 0, b"port");
            put_arrived(out, at, p)
        }
        Routing::Refused(n) => put_number(out, b"refused ", n as u64),
    }
}

fn put_delivery(out: &mut [u8], d: Delivery) -> usize {
    let mut at = put_named(out, 0, b"record ", d.owner as u64);
    at = put_named(out, at, b" bridges ", d.bridges as u64);
    let p = d.packet;
    put_arrived(out, at, p)
}

// A record, and a header that starts there.
pub fn put_sending(out: &mut [u8], bytes: &[u8], sheet: &[u8]) -> usize {
    if bytes.len() < 2 {
        return put_wrong(out);
    }
    let start = endian::read_be16(bytes, 0) as u16;
    match route_cards::route_from(start, &bytes[2..], sheet) {
        Sending::Delivered(a) => put_arrival(out, a),
        Sending::Host(bridges, p) => {
            let at = put_named(out, 0, b"host bridges ", bridges as u64);
            put_arrived(out, at, p)
        }
        Sending::Refused(n) => put_number(out, b"refused ", n as u64),
    }
}

fn put_arrival(out: &mut [u8], a: Arrival) -> usize {
    let mut at = put_named(out, 0, b"record ", a.owner as u64);
    at = put_named(out, at, b" bridges ", a.bridges as u64);
    let p = a.packet;
    put_arrived(out, at, p)
}

// The packet, after who gets it, and the end of the line.
fn put_arrived(out: &mut [u8], start: usize, p: Packet) -> usize {
    let mut at = put_byte(out, start, b' ');
    at = packet_text::put_packet(out, at, p);
    put_byte(out, at, b'\n')
}

pub fn put_number(out: &mut [u8], name: &[u8], number: u64) -> usize {
    let at = put_named(out, 0, name, number);
    put_byte(out, at, b'\n')
}

pub fn put_wrong(out: &mut [u8]) -> usize {
    put_text(out, 0, b"not a line\n")
}
