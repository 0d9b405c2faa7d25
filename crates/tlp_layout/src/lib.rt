// A packet's bytes, as document 01 lays them out, put into a room.
#![tactic(auto)]

ghost use Rattle.std.specs.Prelude.{◌≡◌, ◌≤◌, ◌<◌, ◌*◌, length};
ghost use Rattle.std.proofs.lemmas.List.Edits.{sets};
ghost use Rattle.packet.specs.Verdict.{verdict_of};
ghost use Rattle.packet.proofs.WidthsLaws.{HeadBounds, OutcomeBounds};
ghost use Rattle.packet.specs.declared.Verdict.TheVariants.{Lawful};
ghost use Rattle.tlp_layout.specs.Layout.{
  front_bytes,
  request_bytes,
  address_bytes,
  target_bytes,
  outcome_bytes,
  completion_bytes,
  message_bytes,
  body_bytes,
  layout,
  size,
};

use packet::{Enables, Head, Outcome, Packet, Target};
use pairs::Row;

// Puts a lawful packet's 12 or 16 bytes at the front of a room that has them, and nothing past them.
pub fn put(row: Row, p: Packet, room: &mut [u8])
    requires { (verdict_of p ≡ Lawful row) × (size p ≤ length room.old) }
    ensures { room.new ≡ sets room.old 0 (layout p) }
{
    put_front(row, packet::head_of(p), room);
    put_body(row, p, room);
}

// Bytes 0 to 3.
fn put_front(row: Row, h: Head, room: &mut [u8])
    requires { (12 ≤ length room.old) × HeadBounds h }
    ensures { room.new ≡ sets room.old 0 (front_bytes row h) }
{
    let td = u8::from(h.td);
    let ep = u8::from(h.ep);
    let code = h.length % 1024;
    room[0] = row.byte;
    let bit9 = (h.tag / 512) as u8;
    let bit8 = (h.tag / 256 % 2) as u8;
    room[1] = bit9 * 128 + h.tc * 16 + bit8 * 8 + h.attr / 4 * 4;
    room[2] = td * 128 + ep * 64 + h.attr % 4 * 16 + h.at * 4 + (code / 256) as u8;
    room[3] = (code % 256) as u8;
}

// Bytes 4 on.
fn put_body(row: Row, p: Packet, room: &mut [u8])
    requires { (verdict_of p ≡ Lawful row) × (12 ≤ length room.old) × (size p ≤ length room.old) }
    ensures { room.new ≡ sets room.old 4 (body_bytes p) }
{
    match p {
        Packet::Memory(_, h, e, a) => {
            put_request(h, e, room);
            put_address(h, a, room);
        }
        Packet::Io(_, h, e, a) => {
            put_request(h, e, room);
            put_address(h, a, room);
        }
        Packet::Config(_, h, e, t) => {
            put_request(h, e, room);
            put_target(t, room);
        }
        Packet::Completion(_, h, o) => {
            put_completion(h, o, room);
        }
        Packet::Message(_, h, _, code, tail) => {
            put_message(h, code, room);
            endian::write_be64(room, 8, tail);
        }
    }
}

// Bytes 4 to 7 of a request.
fn put_request(h: Head, e: Enables, room: &mut [u8])
    requires { (12 ≤ length room.old) × (e.last < 16) × (e.first < 16) }
    ensures { room.new ≡ sets room.old 4 (request_bytes h e) }
{
    endian::write_be16(room, 4, h.requester as u64);
    room[6] = (h.tag % 256) as u8;
    room[7] = e.last * 16 + e.first;
}

// The address of a memory or I/O request, from byte 8 on.
fn put_address(h: Head, a: u64, room: &mut [u8])
    requires { (12 ≤ length room.old) × (4 * h.form ≤ length room.old) }
    ensures { room.new ≡ sets room.old 8 (address_bytes h a) }
{
    if h.form == 4 {
        endian::write_be64(room, 8, a);
    } else {
        endian::write_be32(room, 8, a);
    }
}

// Bytes 8 to 11 of a configuration request.
fn put_target(t: Target, room: &mut [u8])
    requires { (12 ≤ length room.old) × (t.register < 1024) }
    ensures { room.new ≡ sets room.old 8 (target_bytes t) }
{
    endian::write_be16(room, 8, t.id as u64);
    room[10] = (t.register / 64) as u8;
    room[11] = (t.register % 64 * 4) as u8;
}

// Bytes 4 to 11 of a completion.
fn put_completion(h: Head, o: Outcome, room: &mut [u8])
    requires { (12 ≤ length room.old) × OutcomeBounds o }
    ensures { room.new ≡ sets room.old 4 (completion_bytes h o) }
{
    put_outcome(o, room);
    endian::write_be16(room, 8, h.requester as u64);
    room[10] = (h.tag % 256) as u8;
    room[11] = o.lower;
}

fn put_outcome(o: Outcome, room: &mut [u8])
    requires { (12 ≤ length room.old) × OutcomeBounds o }
    ensures { room.new ≡ sets room.old 4 (outcome_bytes o) }
{
    let bcm = u8::from(o.bcm);
    endian::write_be16(room, 4, o.completer as u64);
    room[6] = o.status * 32 + bcm * 16 + (o.count / 256) as u8;
    room[7] = (o.count % 256) as u8;
}

// Bytes 4 to 7 of a message.
fn put_message(h: Head, code: u8, room: &mut [u8])
    requires { 12 ≤ length room.old }
    ensures { room.new ≡ sets room.old 4 (message_bytes h code) }
{
    endian::write_be16(room, 4, h.requester as u64);
    room[6] = (h.tag % 256) as u8;
    room[7] = code;
}
