// What the C boundary's calls on a header do: read as twenty numbers, and written from them.
#![tactic(auto)]

ghost use Rattle.std.specs.Prelude.{◌≡◌, length};
ghost use Rattle.tlp.specs.Writing.{write_of, room_after};
ghost use Rattle.capi_answers.specs.Answers.{returned, filled, left_beside};
ghost use Rattle.capi_packet.specs.Calls.{read_answer, on_writing, write_answer, room_left};

use packet::Packet;
use packet_parsing::Parsed;
use tlp::{Reading, Writing};

pub fn read(header: &[u8], packet: &mut [u64]) -> u32
    ensures value { result ≡ returned (read_answer header.now) packet.old }
    ensures packet_after { packet.new ≡ filled (read_answer header.now) packet.old }
{
    match tlp::read(header) {
        Reading::Accepted(p) => capi_answers::give_packet(p, packet),
        Reading::Refused(n) => n as u32,
    }
}

pub fn write(packet: &[u64], room: &mut [u8], written: &mut [u64]) -> u32
    ensures value { result ≡ returned (write_answer packet.now (length room.old)) written.old }
    ensures room_after { room.new ≡ room_left packet.now room.old written.old }
    ensures written_after { written.new ≡ filled (write_answer packet.now (length room.old)) written.old }
{
    match packet_parsing::fields_of(packet) {
        Parsed::Accepted(p) => write_packet(p, room, written),
        Parsed::Refused(n) => n as u32,
    }
}

// With no room for its length the packet is written into an empty room, which is 11 after the packet's own number.
fn write_packet(p: Packet, room: &mut [u8], written: &mut [u64]) -> u32
    ensures value { result ≡ returned (on_writing (write_of p (length room.old))) written.old }
    ensures room_after { room.new ≡ left_beside written.old room.old (room_after p room.old) }
    ensures written_after { written.new ≡ filled (on_writing (write_of p (length room.old))) written.old }
{
    let space = capi_answers::space_for(written.len(), room.len());
    match tlp::write(p, &mut room[..space]) {
        Writing::Written(n) => capi_answers::give_one(n as u64, written),
        Writing::Refused(n) => n as u32,
    }
}
