// The search by an index: a header and an index to what the router answers over the sheet that the index was built from. Any bytes may be
// given as either. Nothing of the index is checked but its length, and the walk over bridges is one slot looked up.
#![tactic(auto)]

ghost use Rattle.std.specs.Prelude.{◌≡◌, true, ◌<◌, ◌≤◌, length};
ghost use Rattle.route_answer.specs.Routing.{answer};
ghost use Rattle.route_answer.specs.Listed.{on_room, listed_after};
ghost use Rattle.index_rule.specs.Owners.{in_reach, key_of};
ghost use Rattle.index_rule.specs.Search.{is_over};
ghost use Rattle.index_layout.specs.Places.{index_size};
ghost use Rattle.index_layout.specs.Keys.{no_key, segment_of};
ghost use Rattle.index_search.specs.Search.{functions_in, outcome_by, answer_over, outcome_over, search_packet, search_of, root_in};

use claims::Aim;
use packet::Packet;
use pools::Space;
use route_answer::{Next, Routing};
use tlp::Reading;

// A header by an index: the header's number before the index is read. What is left is a packet.
pub fn search(header: &[u8], index: &[u8]) -> Routing
    ensures { result ≡ search_of header.now index.now }
{
    let reading = tlp::read(header);
    let Reading::Accepted(p) = reading else {
        return Routing::Refused(reading.number());
    };
    search_packet(p, index)
}

// The same, with a broadcast's list: the number of every record, in order, from the start of the slice. A slice too short is 11 and stays
// as it was.
pub fn search_listed(header: &[u8], index: &[u8], list: &mut [u64]) -> Routing
    ensures value { result ≡ on_room (search_of header.now index.now) (length list.old) }
    ensures list_after { list.new ≡ listed_after result list.old }
{
    route_answer::listed(search(header, index), list)
}

// A packet by an index: 40 for no functions, 42 and 43, then where it is headed.
pub fn search_packet(p: Packet, index: &[u8]) -> Routing
    ensures { result ≡ search_packet p index.now }
{
    let n = functions_in(index);
    match route_answer::onward(p, n as u16, root_in(index)) {
        Next::Aimed(aim) => search_aimed(p, index, n, aim),
        Next::Answered(r) => r,
    }
}

// ---- the index

// How many functions the index is of; none, if it is shorter than it says.
pub fn functions_in(index: &[u8]) -> usize
    ensures { (result ≡ functions_in index.now) × (result < 65536) }
{
    if index.len() < index_layout::LEAST {
        return 0;
    }
    let n = endian::read_le16(index, index_layout::FUNCTIONS) as usize;
    if index.len() < index_layout::LEAST + index_layout::EACH * n {
        return 0;
    }
    n
}

// The root bus that it says; 0, if it is too short for one.
fn root_in(index: &[u8]) -> u8
    ensures { result ≡ root_in index.now }
{
    if index.len() <= index_layout::ROOT {
        return 0;
    }
    index[index_layout::ROOT]
}

// The word of the slot that holds a key of segment w, or 0 where none does: of its eight bytes the four that say something. The one place
// from which the table is searched, so that its code is compiled into this.
pub fn word_over(index: &[u8], n: usize, w: usize, key: u64) -> u64
    requires { (index_size n ≤ length index.now) × (w ≡ segment_of key) × (key < no_key) }
    ensures { outcome_by result ≡ answer_over index.now n key }
{
    let i = index_table::find(index, n, w, key);
    let start = index_slots::key_at(index, n, i);
    let word = index_slots::word_at(index, n, i) % index_layout::WORD_LIMIT;
    if !is_over(start, word, key) {
        return 0;
    }
    word
}

// A packet that is looked for by an address or an ID: the slot found by its key decides.
fn search_aimed(p: Packet, index: &[u8], n: usize, aim: Aim) -> Routing
    requires { index_size n ≤ length index.now }
    ensures { result ≡ answer p (outcome_over index.now n aim) }
{
    if !in_reach(aim) {
        return Routing::Refused(40);
    }
    let key = key_of(aim);
    let word = word_over(index, n, index_layout::segment_of(key), key);
    let record = index_layout::record_in(word);
    if record == 0 {
        return Routing::Refused(40);
    }
    route_answer::deliver(p, record as u16, index_layout::bridges_in(word) as u8)
}

// ---- keys

// May this have an owner at all?
fn in_reach(aim: Aim) -> bool
    ensures { result ≡ in_reach aim }
{
    match aim {
        Aim::Address(space, a) => match space {
            Space::Memory => a < index_layout::MEMORY_END,
            Space::Io => a < index_layout::IO_SIZE,
        },
        Aim::Id(id) => (id as u64) < index_layout::ID_SIZE,
    }
}

// Memory at its address, then I/O, then IDs.
fn key_of(aim: Aim) -> u64
    requires { in_reach aim ≡ true }
    ensures { (result ≡ key_of aim) × (result < no_key) }
{
    match aim {
        Aim::Address(space, a) => match space {
            Space::Memory => a,
            Space::Io => index_layout::IO_BASE + a,
        },
        Aim::Id(id) => index_layout::ID_BASE + id as u64,
    }
}

// Is this the slot of an owner that holds the key? It is as long from its start as the word's exponent says.
fn is_over(start: u64, word: u64, key: u64) -> bool
    ensures { result ≡ is_over start word key }
{
    if key < start {
        return false;
    }
    (index_layout::record_in(word) != 0) & ((key - start) >> (word % 64) == 0)
}
