// The ledger of open requests, document 02's E12: 256 places, a word each, that the caller keeps. A place is free, or holds a non-posted
// request by its requester ID and tag until completions close it. Any 256 words are a ledger; 256 zeros are an empty one.
#![tactic(auto)]

ghost use Rattle.std.specs.Prelude.{◌≡◌, true, ◌+◌, ◌≤◌, length, drop, get_or};
ghost use Rattle.tlp_kinds.specs.Kinds.{is_memory, is_io, is_config as is_config_request};
ghost use Rattle.ledger.specs.Words.{key_of, key_in, left_in, is_read, is_config, is_locked, place_of, in_use, used_by, empty};
ghost use Rattle.ledger.specs.WordsLaws.{is_among_four};
ghost use Rattle.ledger.specs.Ledger.{class_of, has_data, in_locked_form, disagrees, on_success, settled, on_completion, on_request};
ghost use Rattle.ledger.specs.Ledger.{Inside, opening_of, completing_of, number_of, words_after};
ghost use Rattle.ledger.specs.Ledger.{open_number, open_after, complete_number, complete_after};
ghost use Rattle.ledger.specs.AskedLaws.{word_from, AsksAs, Asks, Told};

use packet::Packet;
use pairs::{CompletionKind, ConfigKind, IoKind, Kind, MemoryKind};
use tlp::Reading;

// What a call does: a request opened at a place, its word put there; the word of a request that stays open; a place freed; or the number
// of the first check that fails, and nothing.
#[derive(Clone, Copy)]
pub enum Verdict {
    Opened(usize, u64),
    Kept(usize, u64),
    Closed(usize),
    Refused(u8),
}

// What a header asks for: the two halves of the word that opens it, or with the key 0 the number that refuses it. 0 and 0 is not told by
// the header's bytes alone: it takes a packet. Two plain numbers for speed, as docs/PROVING.md says of a key and its word.
#[derive(Clone, Copy)]
struct Asked {
    key: u32,
    low: u32,
}

// A ledger with no request open.
pub fn start() -> [u64; 256]
    ensures { result ≡ empty }
{
    [0u64; 256]
}

// Opens the request of a header. 0, or the reader's number, 60, 61 or 62, with every word as it was.
pub fn open_request(ledger: &mut [u64; 256], header: &[u8]) -> u8
    ensures { (result ≡ open_number header.now ledger.old)
        × (ledger.new ≡ open_after header.now ledger.old) }
{
    open_in(ledger, header)
}

// Completes a request by a header. 0, or the reader's number, 60, 63, 64 or 65, with every word as it was.
pub fn complete_request(ledger: &mut [u64; 256], header: &[u8]) -> u8
    ensures { (result ≡ complete_number header.now ledger.old)
        × (ledger.new ≡ complete_after header.now ledger.old) }
{
    complete_in(ledger, header)
}

// How many requests are open.
pub fn in_use(ledger: &[u64; 256]) -> usize
    ensures { result ≡ in_use ledger.now }
{
    count(ledger)
}

// ---- the same on the words of a slice, which has as many places as words

pub fn open_in(words: &mut [u64], header: &[u8]) -> u8
    ensures { (result ≡ open_number header.now words.old)
        × (words.new ≡ open_after header.now words.old) }
{
    let v = opening(words, header);
    perform(words, v)
}

pub fn complete_in(words: &mut [u64], header: &[u8]) -> u8
    ensures { (result ≡ complete_number header.now words.old)
        × (words.new ≡ complete_after header.now words.old) }
{
    let v = completing(words, header);
    perform(words, v)
}

pub fn count(words: &[u64]) -> usize
    ensures { result ≡ in_use words.now }
{
    let mut n: usize = 0;
    for word in words {
        n += used_by(*word);
    }
    n
}

// ---- verdicts

// The reader's number, then 60.
fn opening(words: &[u64], header: &[u8]) -> Verdict
    ensures { result ≡ opening_of header.now words.now }
{
    let asked = asked_of(header);
    let key = asked.key;
    if key == 0 {
        return Verdict::Refused((asked.low % 256) as u8);
    }
    open_word(words, key, word_of(key, asked.low))
}

// 61, then 62.
fn open_word(words: &[u64], key: u32, word: u64) -> Verdict
    ensures { result ≡ on_request key word words.now }
{
    if find(words, key) < words.len() {
        return Verdict::Refused(61);
    }
    let place = find(words, 0);
    if place < words.len() {
        return Verdict::Opened(place, word);
    }
    Verdict::Refused(62)
}

// The reader's number, then 60.
fn completing(words: &[u64], header: &[u8]) -> Verdict
    ensures { result ≡ completing_of header.now words.now }
{
    let reading = tlp::read(header);
    let Reading::Accepted(p) = reading else {
        return Verdict::Refused(reading.number());
    };
    match p {
        Packet::Memory(_, _, _, _) => Verdict::Refused(60),
        Packet::Io(_, _, _, _) => Verdict::Refused(60),
        Packet::Config(_, _, _, _) => Verdict::Refused(60),
        Packet::Completion(k, h, o) => {
            complete_word(words, key_of(h.requester, h.tag), k, h.length, o.status)
        }
        Packet::Message(_, _, _, _, _) => Verdict::Refused(60),
    }
}

// 63, then what the word says.
fn complete_word(words: &[u64], key: u32, k: CompletionKind, dwords: u16, status: u8) -> Verdict
    ensures { result ≡ on_completion key k dwords status words.now }
{
    let place = find(words, key);
    if place < words.len() {
        return settle(place, words[place], k, dwords as u64, status);
    }
    Verdict::Refused(63)
}

// 64; then a success delivers, and another status closes.
fn settle(place: usize, word: u64, k: CompletionKind, dwords: u64, status: u8) -> Verdict
    ensures { result ≡ settled place word k dwords status }
{
    if disagree(word, k, status) {
        return Verdict::Refused(64);
    }
    if status == SUCCESS {
        return deliver(place, word, dwords);
    }
    Verdict::Closed(place)
}

// 65; then a read that has dwords to come stays open.
fn deliver(place: usize, word: u64, dwords: u64) -> Verdict
    ensures { result ≡ on_success place word dwords }
{
    let left = left_in(word);
    if left < dwords {
        return Verdict::Refused(65);
    }
    if is_read(word) & (dwords < left) {
        return Verdict::Kept(place, word - 8 * dwords);
    }
    Verdict::Closed(place)
}

fn perform(words: &mut [u64], v: Verdict) -> u8
    requires { Inside v (length words.old) }
    ensures { (result ≡ number_of v) × (words.new ≡ words_after v words.old) }
{
    match v {
        Verdict::Opened(place, word) => {
            words[place] = word;
            0
        }
        Verdict::Kept(place, word) => {
            words[place] = word;
            0
        }
        Verdict::Closed(place) => {
            words[place] = 0;
            0
        }
        Verdict::Refused(n) => n,
    }
}

// Completion statuses.
const SUCCESS: u8 = 0;

const RETRY: u8 = 2;

// 64: retry for a request that is not configuration, or a success whose form is not the request's.
fn disagree(word: u64, k: CompletionKind, status: u8) -> bool
    ensures { result ≡ disagrees word k status }
{
    ((status == RETRY) & !is_config(word))
        | ((status == SUCCESS)
            & ((has_data(k) != is_read(word)) | (in_locked_form(k) != is_locked(word))))
}

// ---- what a header asks for

// By the bytes of a request that nothing refuses, or by a packet. What tells it calls nothing that is lent the header.
fn asked_of(header: &[u8]) -> Asked
    ensures { Asks result header.now }
{
    let asked = asked_by_bytes(header);
    if asked.low != 0 {
        return asked;
    }
    asked_by_packet(header)
}

fn asked_by_bytes(header: &[u8]) -> Asked
    ensures { Told result header.now }
{
    if header.len() < 12 {
        return untold();
    }
    let b = header[0];
    if tlp_kinds::is_memory(b) {
        return asked_by_memory(header);
    }
    if tlp_kinds::is_io(b) {
        return asked_by_io(header);
    }
    if tlp_kinds::is_config(b) {
        return asked_by_config(header);
    }
    untold()
}

fn untold() -> Asked
    ensures { result.low ≡ 0 }
{
    Asked { key: 0, low: 0 }
}

fn asked_by_memory(header: &[u8]) -> Asked
    requires { (12 ≤ length header.now) × (is_memory (get_or header.now 0 0) ≡ true) }
    ensures { Told result header.now }
{
    let b = header[0];
    let k = tlp_kinds::memory_kind(b);
    let form = tlp_kinds::memory_form(b);
    if header.len() < 4 * (form as usize) {
        return untold();
    }
    let h = tlp_fields::request_head_at(form, header);
    let e = tlp_fields::enables_at(header);
    let a = tlp_fields::address_at(form, header);
    if tlp_fields::unnamed(packet::is_write(k), header) {
        return untold();
    }
    if packet::memory_rules(h, e, a) != 0 {
        return untold();
    }
    asked_by_kind(Kind::Memory(k), h.requester, h.tag, h.length)
}

fn asked_by_io(header: &[u8]) -> Asked
    requires { (12 ≤ length header.now) × (is_io (get_or header.now 0 0) ≡ true) }
    ensures { Told result header.now }
{
    let k = tlp_kinds::io_kind(header[0]);
    let h = tlp_fields::request_head_at(3, header);
    let e = tlp_fields::enables_at(header);
    let a = tlp_fields::address_at(3, header);
    if tlp_fields::unnamed(false, header) {
        return untold();
    }
    if packet::io_rules(h, e, a) != 0 {
        return untold();
    }
    asked_by_kind(Kind::Io(k), h.requester, h.tag, h.length)
}

fn asked_by_config(header: &[u8]) -> Asked
    requires { (12 ≤ length header.now) × (is_config_request (get_or header.now 0 0) ≡ true) }
    ensures { Told result header.now }
{
    let k = tlp_kinds::config_kind(header[0]);
    let h = tlp_fields::request_head_at(3, header);
    let e = tlp_fields::enables_at(header);
    if tlp_fields::unnamed(false, header) | tlp_fields::unnamed_target(header) {
        return untold();
    }
    if packet::config_rules(h, e) != 0 {
        return untold();
    }
    asked_by_kind(Kind::Config(k), h.requester, h.tag, h.length)
}

fn asked_by_packet(header: &[u8]) -> Asked
    ensures { Asks result header.now }
{
    match tlp::read(header) {
        Reading::Accepted(p) => {
            let h = packet::head_of(p);
            asked_by_kind(packet::kind_of(p), h.requester, h.tag, h.length)
        }
        Reading::Refused(n) => Asked {
            key: 0,
            low: n as u32,
        },
    }
}

fn asked_by_kind(kind: Kind, requester: u16, tag: u16, dwords: u16) -> Asked
    ensures { AsksAs (class_of kind) requester tag dwords result }
{
    match class_of(kind) {
        Some(class) => Asked {
            key: key_of(requester, tag),
            low: (dwords as u32) * 8 + (class as u32),
        },
        None => Asked { key: 0, low: 60 },
    }
}

// ---- kinds

// Of a kind that is a non-posted request, the three bits that its word keeps of it: a read (4), a configuration request (2), a locked
// one (1).
fn class_of(kind: Kind) -> Option<u8>
    ensures { result ≡ class_of kind }
{
    match kind {
        Kind::Memory(MemoryKind::MRd) | Kind::Io(IoKind::IORd) => Some(4),
        Kind::Memory(MemoryKind::MRdLk) => Some(5),
        Kind::Io(IoKind::IOWr) => Some(0),
        Kind::Config(ConfigKind::CfgRd0 | ConfigKind::CfgRd1) => Some(6),
        Kind::Config(ConfigKind::CfgWr0 | ConfigKind::CfgWr1) => Some(2),
        Kind::Memory(MemoryKind::MWr)
        | Kind::Completion(_)
        | Kind::Message(_, _)
        | Kind::FetchAdd
        | Kind::Swap
        | Kind::Cas => None,
    }
}

fn has_data(k: CompletionKind) -> bool
    ensures { result ≡ has_data k }
{
    matches!(k, CompletionKind::CplD | CompletionKind::CplDLk)
}

fn in_locked_form(k: CompletionKind) -> bool
    ensures { result ≡ in_locked_form k }
{
    matches!(k, CompletionKind::CplLk | CompletionKind::CplDLk)
}

// ---- words

// A word is the key times this, and what is kept of the request: dwords to come from bit 3 on, its class in bits 2:0.
const HALF: u64 = 4294967296;

// Requester ID and tag as one number, from 1 on: free places have the key 0.
fn key_of(requester: u16, tag: u16) -> u32
    ensures { result ≡ key_of requester tag }
{
    (requester as u32) * 1024 + (tag as u32) + 1
}

fn word_of(key: u32, low: u32) -> u64
    ensures { result ≡ word_from key low }
{
    (key as u64) * HALF + (low as u64)
}

// In 32 bits, as the search compares it.
fn key_in(word: u64) -> u32
    ensures { result ≡ key_in word }
{
    (word / HALF) as u32
}

fn left_in(word: u64) -> u64
    ensures { result ≡ left_in word }
{
    word % HALF / 8
}

fn is_read(word: u64) -> bool
    ensures { result ≡ is_read word }
{
    word / 4 % 2 == 1
}

fn is_config(word: u64) -> bool
    ensures { result ≡ is_config word }
{
    word / 2 % 2 == 1
}

fn is_locked(word: u64) -> bool
    ensures { result ≡ is_locked word }
{
    word % 2 == 1
}

// 0 for a free place.
fn used_by(word: u64) -> usize
    ensures { (result ≡ used_by word) × (result ≤ 1) }
{
    usize::from(key_in(word) != 0)
}

// ---- the search

// The first place with the key, or how many places there are.
fn find(words: &[u64], key: u32) -> usize
    ensures { result ≡ place_of key words.now }
{
    find_from(words, key, skip(words, key))
}

// As far as none of four places has the key: one comparison for all four. By a counter of its own, which is the answer where the loop
// ends.
fn skip(words: &[u64], key: u32) -> usize
    ensures { (result ≤ length words.now)
        × (result + place_of key (drop result words.now) ≡ place_of key words.now) }
{
    let mut i: usize = 0;
    while 4 <= words.len() - i {
        if is_among_four(words, key, i) {
            return i;
        }
        i += 4;
    }
    i
}

fn is_among_four(words: &[u64], key: u32, i: usize) -> bool
    requires { i + 4 ≤ length words.now }
    ensures { result ≡ is_among_four key words.now i }
{
    (key_in(words[i]) == key)
        | ((key_in(words[i + 1]) == key)
            | ((key_in(words[i + 2]) == key) | (key_in(words[i + 3]) == key)))
}

fn find_from(words: &[u64], key: u32, start: usize) -> usize
    requires { start ≤ length words.now }
    ensures { result ≡ start + place_of key (drop start words.now) }
{
    for i in start..words.len() {
        if key_in(words[i]) == key {
            return i;
        }
    }
    words.len()
}
