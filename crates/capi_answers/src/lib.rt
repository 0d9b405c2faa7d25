// Answers as numbers in a slice that the caller lends. A slice too short is 11 and stays as it was; so do numbers past the answer's own.
#![tactic(auto)]

ghost use Rattle.std.specs.Prelude.{◌≡◌, ◌≤◌, cond, [], ◌∷◌, ◌++◌, eqb};
ghost use Rattle.packet_numbers.specs.Numbers.{numbers_of};
ghost use Rattle.route_list.specs.Counted.{counted};
ghost use Rattle.capi_answers.specs.Answers.{gives, returned, filled};

use packet::Packet;

// A packet: its twenty numbers.
pub fn give_packet(p: Packet, out: &mut [u64]) -> u32
    ensures value { result ≡ returned (gives (numbers_of p)) out.old }
    ensures out_after { out.new ≡ filled (gives (numbers_of p)) out.old }
{
    if out.len() < packet_numbers::SIZE {
        return 11;
    }
    packet_numbers::put_packet(out, 0, p);
    0
}

// Where a packet goes, by two numbers, and the packet: record and bridges, or 0 and 0 for the port.
pub fn give_delivery(owner: u64, bridges: u64, p: Packet, out: &mut [u64]) -> u32
    ensures value { result ≡ returned (gives (owner ∷ bridges ∷ numbers_of p)) out.old }
    ensures out_after { out.new ≡ filled (gives (owner ∷ bridges ∷ numbers_of p)) out.old }
{
    if out.len() < 2 + packet_numbers::SIZE {
        return 11;
    }
    out[0] = owner;
    out[1] = bridges;
    packet_numbers::put_packet(out, 2, p);
    0
}

// A packet that goes to every function: 0, how many they are, the packet, and their record numbers in order.
pub fn give_broadcast(functions: usize, p: Packet, out: &mut [u64]) -> u32
    ensures value { result ≡ returned (gives (0 ∷ functions ∷ (numbers_of p ++ counted 1 functions))) out.old }
    ensures out_after { out.new ≡ filled (gives (0 ∷ functions ∷ (numbers_of p ++ counted 1 functions))) out.old }
{
    let front = 2 + packet_numbers::SIZE;
    if out.len() < front {
        return 11;
    }
    if out.len() - front < functions {
        return 11;
    }
    out[0] = 0;
    out[1] = functions as u64;
    packet_numbers::put_packet(out, 2, p);
    route_list::put_list(out, front, functions);
    0
}

pub fn give_one(n: u64, out: &mut [u64]) -> u32
    ensures value { result ≡ returned (gives (n ∷ [])) out.old }
    ensures out_after { out.new ≡ filled (gives (n ∷ [])) out.old }
{
    if out.len() < 1 {
        return 11;
    }
    out[0] = n;
    0
}

// The bytes of a room that are used where the answer slice has so many numbers: with no room for the answer none.
pub fn space_for(answers: usize, room: usize) -> usize
    ensures upper_bound { result ≤ room }
    ensures value { result ≡ cond (eqb answers 0) 0 room }
{
    if answers == 0 { 0 } else { room }
}
