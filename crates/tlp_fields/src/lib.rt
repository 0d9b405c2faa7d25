// The fields of a header that is long enough, each at its place in the bytes.
#![tactic(auto)]

ghost use Rattle.std.specs.Prelude.{◌≡◌, ◌+◌, ◌≤◌, ◌<◌, ◌*◌, length, eqb, cond};
ghost use Rattle.endian.specs.Endian.{be};
ghost use Rattle.tlp_fields.specs.Fields.{
  code_at,
  length_of,
  completion_length,
  message_length,
  head_at,
  request_head_at,
  completion_head_at,
  message_head_at,
  message_code_at,
  enables_at,
  address_at,
  target_at,
  outcome_at,
  unnamed as unnamed_at,
  unnamed_target,
  unnamed_lower,
};

use packet::{Enables, Head, Outcome, Target};
use pairs::{CompletionKind, MessageKind};

pub fn request_head_at(form: u8, s: &[u8]) -> Head
    requires { 12 ≤ length s.now }
    ensures { result ≡ request_head_at form s.now }
{
    let dwords = length_of(code_at(s));
    let requester = id_at(s, 4);
    let low = u16::from(s[6]);
    head_at(form, dwords, requester, low, s)
}

pub fn completion_head_at(k: CompletionKind, form: u8, s: &[u8]) -> Head
    requires { 12 ≤ length s.now }
    ensures { result ≡ completion_head_at k form s.now }
{
    let dwords = completion_length(k, code_at(s));
    let requester = id_at(s, 8);
    let low = u16::from(s[10]);
    head_at(form, dwords, requester, low, s)
}

pub fn message_head_at(k: MessageKind, form: u8, s: &[u8]) -> Head
    requires { 12 ≤ length s.now }
    ensures { result ≡ message_head_at k form s.now }
{
    let dwords = message_length(k, code_at(s));
    let requester = id_at(s, 4);
    let low = u16::from(s[6]);
    head_at(form, dwords, requester, low, s)
}

pub fn message_code_at(s: &[u8]) -> u8
    requires { 12 ≤ length s.now }
    ensures { result ≡ message_code_at s.now }
{
    s[7]
}

pub fn enables_at(s: &[u8]) -> Enables
    requires { 12 ≤ length s.now }
    ensures { result ≡ enables_at s.now }
{
    Enables {
        last: s[7] / 16,
        first: s[7] % 16,
    }
}

// Of the four-dword form the first dword is the upper half. Both forms read two dwords, so that nothing branches on the form.
pub fn address_at(form: u8, s: &[u8]) -> u64
    requires { (12 ≤ length s.now) × (4 * form ≤ length s.now) }
    ensures { result ≡ address_at form s.now }
{
    let low = endian::read_be32(s, low_at(form));
    let high = endian::read_be32(s, 8);
    if form == 4 {
        high * 4294967296 + low
    } else {
        low
    }
}

pub fn target_at(s: &[u8]) -> Target
    requires { 12 ≤ length s.now }
    ensures { result ≡ target_at s.now }
{
    let id = id_at(s, 8);
    let register = u16::from(s[10]) % 16 * 64 + u16::from(s[11]) / 4;
    Target { id, register }
}

pub fn outcome_at(s: &[u8]) -> Outcome
    requires { 12 ≤ length s.now }
    ensures { result ≡ outcome_at s.now }
{
    let completer = id_at(s, 4);
    let count = u16::from(s[6]) % 16 * 256 + u16::from(s[7]);
    Outcome {
        completer,
        status: s[6] / 32,
        bcm: s[6] / 16 % 2 == 1,
        count,
        lower: s[11] % 128,
    }
}

pub fn unnamed(posted: bool, s: &[u8]) -> bool
    requires { 12 ≤ length s.now }
    ensures { result ≡ unnamed_at posted s.now }
{
    let b = s[1];
    (posted & ((b / 128 % 2 == 1) | (b / 8 % 2 == 1))) | (b / 2 % 2 == 1) | (b % 2 == 1)
}

pub fn unnamed_target(s: &[u8]) -> bool
    requires { 12 ≤ length s.now }
    ensures { result ≡ unnamed_target s.now }
{
    (s[10] / 16 != 0) | (s[11] % 4 != 0)
}

pub fn unnamed_lower(s: &[u8]) -> bool
    requires { 12 ≤ length s.now }
    ensures { result ≡ unnamed_lower s.now }
{
    s[11] / 128 % 2 == 1
}

fn head_at(form: u8, dwords: u16, requester: u16, low: u16, s: &[u8]) -> Head
    requires { (12 ≤ length s.now) × (low < 256) }
    ensures { result ≡ head_at form dwords requester low s.now }
{
    let tag = u16::from(s[1]) / 128 % 2 * 512 + u16::from(s[1]) / 8 % 2 * 256 + low;
    Head {
        form,
        tc: s[1] / 16 % 8,
        attr: s[1] / 4 % 2 * 4 + s[2] / 16 % 4,
        td: s[2] / 128 % 2 == 1,
        ep: s[2] / 64 % 2 == 1,
        at: s[2] / 4 % 4,
        length: dwords,
        requester,
        tag,
    }
}

fn completion_length(k: CompletionKind, code: u16) -> u16
    ensures { result ≡ completion_length k code }
{
    match k {
        CompletionKind::Cpl | CompletionKind::CplLk => code,
        CompletionKind::CplD | CompletionKind::CplDLk => length_of(code),
    }
}

fn message_length(k: MessageKind, code: u16) -> u16
    ensures { result ≡ message_length k code }
{
    match k {
        MessageKind::Msg => code,
        MessageKind::MsgD => length_of(code),
    }
}

fn length_of(code: u16) -> u16
    ensures { result ≡ length_of code }
{
    if code == 0 { 1024 } else { code }
}

fn code_at(s: &[u8]) -> u16
    requires { 12 ≤ length s.now }
    ensures { (result ≡ code_at s.now) × (result < 1024) }
{
    u16::from(s[2]) % 4 * 256 + u16::from(s[3])
}

fn low_at(form: u8) -> usize
    ensures { result ≡ cond (eqb form 4) 12 8 }
{
    if form == 4 { 12 } else { 8 }
}

fn id_at(s: &[u8], at: usize) -> u16
    requires { at + 2 ≤ length s.now }
    ensures { result ≡ be 2 s.now at }
{
    endian::read_be16(s, at) as u16
}
