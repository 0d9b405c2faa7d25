// The number that reading a header answers, with no packet made of it. A lawful header passes one branch for each rule; whatever a branch
// turns away is read, for its number.
#![tactic(auto)]

ghost use Rattle.std.specs.Prelude.{◌≡◌, true, ◌≤◌, ◌<◌, length, get_or};
ghost use Rattle.packet.specs.Rules.{is_first, is_last, enables_lawful};
ghost use Rattle.tlp.specs.Reading.{number_of as reading_number, read_of};
ghost use Rattle.tlp_kinds.specs.Kinds.{is_memory, is_io, is_config, is_completion};
ghost use Rattle.tlp_judge.specs.Messages.{is_message, message_kind, message_routing};
ghost use Rattle.tlp_judge.specs.JudgeLaws.{Passes, Keeps};

use packet::{Enables, Head};
use pairs::{MessageKind, MessageRouting};

// 0 for a header that is read, or its number. Later bytes are not looked at.
pub fn judge(header: &[u8]) -> u8
    ensures { result ≡ reading_number (read_of header.now) }
{
    if is_lawful(header) {
        return 0;
    }
    // Lent anew: a slice that is lent to a call stands in memory, here only where it is.
    tlp::read(&header[0..]).number()
}

fn is_lawful(s: &[u8]) -> bool
    ensures { Passes result s.now }
{
    if s.len() < 12 {
        return false;
    }
    let b = s[0];
    if tlp_kinds::is_memory(b) {
        return is_lawful_memory(s);
    }
    if tlp_kinds::is_completion(b) {
        return is_lawful_completion(s);
    }
    if tlp_kinds::is_config(b) {
        return is_lawful_config(s);
    }
    if tlp_kinds::is_io(b) {
        return is_lawful_io(s);
    }
    if is_message(b) {
        return is_lawful_message(s);
    }
    false
}

fn is_lawful_memory(s: &[u8]) -> bool
    requires { (12 ≤ length s.now) × (is_memory (get_or s.now 0 0) ≡ true) }
    ensures { Passes result s.now }
{
    let b = s[0];
    let k = tlp_kinds::memory_kind(b);
    let form = tlp_kinds::memory_form(b);
    if s.len() < 4 * (form as usize) {
        return false;
    }
    if tlp_fields::unnamed(packet::is_write(k), s) {
        return false;
    }
    let h = tlp_fields::request_head_at(form, s);
    let e = tlp_fields::enables_at(s);
    let a = tlp_fields::address_at(form, s);
    memory_keeps(h, e, a)
}

fn is_lawful_completion(s: &[u8]) -> bool
    requires { (12 ≤ length s.now) × (is_completion (get_or s.now 0 0) ≡ true) }
    ensures { Passes result s.now }
{
    let k = tlp_kinds::completion_kind(s[0]);
    if tlp_fields::unnamed(false, s) | tlp_fields::unnamed_lower(s) {
        return false;
    }
    let h = tlp_fields::completion_head_at(k, 3, s);
    let o = tlp_fields::outcome_at(s);
    packet::completion_rules(k, h, o) == 0
}

fn is_lawful_config(s: &[u8]) -> bool
    requires { (12 ≤ length s.now) × (is_config (get_or s.now 0 0) ≡ true) }
    ensures { Passes result s.now }
{
    if tlp_fields::unnamed(false, s) | tlp_fields::unnamed_target(s) {
        return false;
    }
    let h = tlp_fields::request_head_at(3, s);
    let e = tlp_fields::enables_at(s);
    packet::config_rules(h, e) == 0
}

fn is_lawful_io(s: &[u8]) -> bool
    requires { (12 ≤ length s.now) × (is_io (get_or s.now 0 0) ≡ true) }
    ensures { Passes result s.now }
{
    if tlp_fields::unnamed(false, s) {
        return false;
    }
    let h = tlp_fields::request_head_at(3, s);
    let e = tlp_fields::enables_at(s);
    let a = tlp_fields::address_at(3, s);
    packet::io_rules(h, e, a) == 0
}

fn is_lawful_message(s: &[u8]) -> bool
    requires { (12 ≤ length s.now) × (is_message (get_or s.now 0 0) ≡ true) }
    ensures { Passes result s.now }
{
    if s.len() < 16 {
        return false;
    }
    if tlp_fields::unnamed(true, s) {
        return false;
    }
    let b = s[0];
    let k = message_kind(b);
    let h = tlp_fields::message_head_at(k, 4, s);
    let tail = tlp_fields::address_at(4, s);
    packet::message_rules(k, h, message_routing(b), tail) == 0
}

// Rules 4, 6, 8 and 7 of a memory request. Joined with no branch between them they take a third more instructions.
fn memory_keeps(h: Head, e: Enables, a: u64) -> bool
    ensures { Keeps result h e a }
{
    if a % 4 != 0 {
        return false;
    }
    if h.at == 3 {
        return false;
    }
    if (h.form == 4) & (a < 4294967296) {
        return false;
    }
    if 4096 < a % 4096 + 4 * u64::from(h.length) {
        return false;
    }
    enables_keep(h.length, a, e)
}

fn enables_keep(n: u16, a: u64, e: Enables) -> bool
    ensures { result ≡ enables_lawful n a e }
{
    if n == 1 {
        return e.last == 0;
    }
    if (n == 2) & (a % 8 == 0) {
        return (e.last != 0) & (e.first != 0);
    }
    is_first(e.first) & is_last(e.last)
}

// Not packet's own, which are bits of a number with no branch: here each test that fails is a branch to the slow way.
fn is_first(x: u8) -> bool
    ensures { result ≡ is_first x }
{
    matches!(x, 15 | 14 | 12 | 8)
}

fn is_last(x: u8) -> bool
    ensures { result ≡ is_last x }
{
    matches!(x, 15 | 7 | 3 | 1)
}

// Bit 6, whether data follow, is left out, so that it is one range and one comparison.
fn is_message(b: u8) -> bool
    ensures { result ≡ is_message b }
{
    matches!(b % 64, 0x30..=0x35) & (b < 128)
}

fn message_kind(b: u8) -> MessageKind
    ensures { result ≡ message_kind b }
{
    if b < 0x40 {
        MessageKind::Msg
    } else {
        MessageKind::MsgD
    }
}

fn message_routing(b: u8) -> MessageRouting
    ensures { result ≡ message_routing b }
{
    match b % 8 {
        0 => MessageRouting::ToRoot,
        1 => MessageRouting::ByAddress,
        2 => MessageRouting::ById,
        3 => MessageRouting::Broadcast,
        4 => MessageRouting::Local,
        _ => MessageRouting::Gathered,
    }
}
