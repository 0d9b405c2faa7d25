// What the C boundary's search by an index does: the router's answer as numbers, from an index's bytes in place of a sheet's. Memory, I/O
// and configuration requests and completions that nothing refuses go from bytes to numbers with no packet between; all else is answered by
// the search's own routing.
#![tactic(auto)]

ghost use Rattle.std.specs.Prelude.{◌≡◌, true, ◌∷◌, ◌++◌, ◌≤◌, length, get_or};
ghost use Rattle.pairs.specs.declared.Kind.TheVariants.{Config as ConfigOf};
ghost use Rattle.pairs.specs.Pairs.{kind_number};
ghost use Rattle.packet_numbers.specs.Numbers.{head_numbers, request_numbers, outcome_numbers, absent};
ghost use Rattle.route_arrival.specs.Arrival.{last_kind};
ghost use Rattle.tlp_kinds.specs.Kinds.{is_memory, is_io, is_config, is_completion};
ghost use Rattle.index_layout.specs.Words.{record_in, bridges_in};
ghost use Rattle.capi_answers.specs.Answers.{gives, returned, filled};
ghost use Rattle.capi_find.specs.Calls.{find_answer};

use packet::{Enables, Head, Outcome, Packet};
use pairs::{ConfigKind, Kind};

// Any bytes may be given as an index.
pub fn find(header: &[u8], index: &[u8], answer: &mut [u64]) -> u32
    ensures value { result ≡ returned (find_answer header.now index.now) answer.old }
    ensures answer_after { answer.new ≡ filled (find_answer header.now index.now) answer.old }
{
    if header.len() < 12 {
        return find_any(header, index, answer);
    }
    let b = header[0];
    if tlp_kinds::is_memory(b) {
        return find_memory(header, index, answer);
    }
    if tlp_kinds::is_io(b) {
        return find_io(header, index, answer);
    }
    if tlp_kinds::is_config(b) {
        return find_config(header, index, answer);
    }
    if tlp_kinds::is_completion(b) {
        return find_completion(header, index, answer);
    }
    find_any(header, index, answer)
}

// By the routing that the search answers.
fn find_any(header: &[u8], index: &[u8], answer: &mut [u64]) -> u32
    ensures value { result ≡ returned (find_answer header.now index.now) answer.old }
    ensures answer_after { answer.new ≡ filled (find_answer header.now index.now) answer.old }
{
    capi_routing::give_routing(index_search::search(header, index), answer)
}

// ---- kind by kind, where nothing refuses the header

fn find_memory(header: &[u8], index: &[u8], answer: &mut [u64]) -> u32
    requires { (12 ≤ length header.now) × (is_memory (get_or header.now 0 0) ≡ true) }
    ensures value { result ≡ returned (find_answer header.now index.now) answer.old }
    ensures answer_after { answer.new ≡ filled (find_answer header.now index.now) answer.old }
{
    let b = header[0];
    let k = tlp_kinds::memory_kind(b);
    let form = tlp_kinds::memory_form(b);
    if header.len() < 4 * (form as usize) {
        return find_any(header, index, answer);
    }
    let h = tlp_fields::request_head_at(form, header);
    let e = tlp_fields::enables_at(header);
    let a = tlp_fields::address_at(form, header);
    if tlp_fields::unnamed(packet::is_write(k), header) {
        return find_any(header, index, answer);
    }
    if packet::memory_rules(h, e, a) != 0 {
        return find_any(header, index, answer);
    }
    if index_layout::MEMORY_END <= a {
        return 40;
    }
    let word = index_find::word_for(index, index_layout::segment_of(a), a);
    if index_layout::record_in(word) == 0 {
        return 40;
    }
    give_request(
        word,
        pairs::kind_number(Kind::Memory(k)),
        h,
        e,
        a,
        0,
        0,
        answer,
    )
}

fn find_io(header: &[u8], index: &[u8], answer: &mut [u64]) -> u32
    requires { (12 ≤ length header.now) × (is_io (get_or header.now 0 0) ≡ true) }
    ensures value { result ≡ returned (find_answer header.now index.now) answer.old }
    ensures answer_after { answer.new ≡ filled (find_answer header.now index.now) answer.old }
{
    let k = tlp_kinds::io_kind(header[0]);
    let h = tlp_fields::request_head_at(3, header);
    let e = tlp_fields::enables_at(header);
    let a = tlp_fields::address_at(3, header);
    if tlp_fields::unnamed(false, header) {
        return find_any(header, index, answer);
    }
    if packet::io_rules(h, e, a) != 0 {
        return find_any(header, index, answer);
    }
    if index_layout::IO_SIZE <= a {
        return 40;
    }
    let word = index_find::word_for(index, index_layout::IO_SEGMENT, index_layout::IO_BASE + a);
    if index_layout::record_in(word) == 0 {
        return 40;
    }
    give_request(word, pairs::kind_number(Kind::Io(k)), h, e, a, 0, 0, answer)
}

// 42 before the search, for which the root bus is in the index; type 1 arrives as type 0.
fn find_config(header: &[u8], index: &[u8], answer: &mut [u64]) -> u32
    requires { (12 ≤ length header.now) × (is_config (get_or header.now 0 0) ≡ true) }
    ensures value { result ≡ returned (find_answer header.now index.now) answer.old }
    ensures answer_after { answer.new ≡ filled (find_answer header.now index.now) answer.old }
{
    let k = tlp_kinds::config_kind(header[0]);
    let h = tlp_fields::request_head_at(3, header);
    let e = tlp_fields::enables_at(header);
    let t = tlp_fields::target_at(header);
    if tlp_fields::unnamed(false, header) | tlp_fields::unnamed_target(header) {
        return find_any(header, index, answer);
    }
    if packet::config_rules(h, e) != 0 {
        return find_any(header, index, answer);
    }
    if index.len() <= index_layout::ROOT {
        return find_any(header, index, answer);
    }
    if route_arrival::type_wrong(Packet::Config(k, h, e, t), index[index_layout::ROOT]) {
        return find_any(header, index, answer);
    }
    let word = index_find::word_for(
        index,
        index_layout::ID_SEGMENT,
        index_layout::ID_BASE + (t.id as u64),
    );
    if index_layout::record_in(word) == 0 {
        return 40;
    }
    give_request(
        word,
        arrived_number(k),
        h,
        e,
        0,
        t.id as u64,
        t.register as u64,
        answer,
    )
}

// By its requester.
fn find_completion(header: &[u8], index: &[u8], answer: &mut [u64]) -> u32
    requires { (12 ≤ length header.now) × (is_completion (get_or header.now 0 0) ≡ true) }
    ensures value { result ≡ returned (find_answer header.now index.now) answer.old }
    ensures answer_after { answer.new ≡ filled (find_answer header.now index.now) answer.old }
{
    let k = tlp_kinds::completion_kind(header[0]);
    let h = tlp_fields::completion_head_at(k, 3, header);
    let o = tlp_fields::outcome_at(header);
    if tlp_fields::unnamed(false, header) | tlp_fields::unnamed_lower(header) {
        return find_any(header, index, answer);
    }
    if packet::completion_rules(k, h, o) != 0 {
        return find_any(header, index, answer);
    }
    let word = index_find::word_for(
        index,
        index_layout::ID_SEGMENT,
        index_layout::ID_BASE + (h.requester as u64),
    );
    if index_layout::record_in(word) == 0 {
        return 40;
    }
    give_completion(word, pairs::kind_number(Kind::Completion(k)), h, o, answer)
}

// The number of the kind that it arrives as.
fn arrived_number(k: ConfigKind) -> u8
    ensures { result ≡ kind_number (ConfigOf (last_kind k)) }
{
    match k {
        ConfigKind::CfgRd0 => 5,
        ConfigKind::CfgWr0 => 6,
        ConfigKind::CfgRd1 => 5,
        ConfigKind::CfgWr1 => 6,
    }
}

// ---- numbers

// The record and the bridges of a word, and a request.
fn give_request(
    word: u64,
    kind: u8,
    h: Head,
    e: Enables,
    address: u64,
    target: u64,
    register: u64,
    out: &mut [u64],
) -> u32
    ensures value { result
        ≡ returned
        (gives (record_in word ∷ bridges_in word ∷ (head_numbers kind h ++ (request_numbers e address target register ++ absent))))
        out.old }
    ensures out_after { out.new
        ≡ filled (gives (record_in word ∷ bridges_in word ∷ (head_numbers kind h ++ (request_numbers e address target register ++ absent))))
        out.old }
{
    if out.len() < 2 + packet_numbers::SIZE {
        return 11;
    }
    out[0] = index_layout::record_in(word);
    out[1] = index_layout::bridges_in(word);
    packet_numbers::put_request(out, 2, kind, h, e, address, target, register);
    0
}

// The record and the bridges of a word, and a completion.
fn give_completion(word: u64, kind: u8, h: Head, o: Outcome, out: &mut [u64]) -> u32
    ensures value { result
        ≡ returned (gives (record_in word ∷ bridges_in word ∷ (head_numbers kind h ++ (absent ++ outcome_numbers o)))) out.old }
    ensures out_after { out.new
        ≡ filled (gives (record_in word ∷ bridges_in word ∷ (head_numbers kind h ++ (absent ++ outcome_numbers o)))) out.old }
{
    if out.len() < 2 + packet_numbers::SIZE {
        return 11;
    }
    out[0] = index_layout::record_in(word);
    out[1] = index_layout::bridges_in(word);
    packet_numbers::put_completion(out, 2, kind, h, o);
    0
}
