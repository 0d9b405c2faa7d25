// Numbers taken for a packet: the twenty of packet_numbers, each at most the greatest that its field holds, 0 where the kind has no such
// field.
#![tactic(auto)]

ghost use Rattle.std.specs.Prelude.{◌≡◌, false, [], ◌∷◌, ◌≤◌, length, get_or};
ghost use Rattle.pairs.specs.declared.Kind.TheVariants.{Message as MessageOf};
ghost use Rattle.packet_numbers.specs.Numbers.{absent};
ghost use Rattle.packet_parsing.specs.Parsing.{byte, word, last_kind, head_most, request_most, message_most, outcome_most};
ghost use Rattle.packet_parsing.specs.Parsing.{by_address, by_target, completing, messaging, is_reserved, routing_at, kind_at};
ghost use Rattle.packet_parsing.specs.Parsing.{any_above, Within, head_from, enables_from, target_from, outcome_from};
ghost use Rattle.packet_parsing.specs.Fields.{or_above, too_large, fields_as, fields_of};

use packet::{Enables, Head, Outcome, Packet, Target};
use pairs::{
    CompletionKind, ConfigKind, IoKind, Kind, MemoryKind, MessageKind, MessageRouting, Pair,
};

// Numbers that were taken for a packet, or the number of the first check that they fail.
#[derive(Clone, Copy)]
pub enum Parsed {
    Accepted(Packet),
    Refused(u8),
}

const LAST_KIND: u64 = 14;

// The greatest number that each type of field holds.
const FLAG: u64 = 1;

const RRR: u64 = 7;

const BYTE: u64 = 255;

const WORD: u64 = 65535;

const QWORD: u64 = 18446744073709551615;

// The packet that the first twenty numbers are, for the writer, which looks at the kind and form itself: 11 for fewer, 2 for a kind or
// a form outside the list or a message's routing that is reserved, 10 for a number too large for its field or in a field that the kind
// does not have. Later numbers are not looked at.
pub fn fields_of(numbers: &[u64]) -> Parsed
    ensures { result ≡ fields_of numbers.now }
{
    if numbers.len() < packet_numbers::SIZE {
        return Parsed::Refused(11);
    }
    if (LAST_KIND < numbers[0]) | (4 < numbers[1]) {
        return Parsed::Refused(2);
    }
    fields_as(kind_at(numbers[0] as usize, numbers[10] as usize), numbers)
}

// The kinds in the order of their numbers.
fn kind_at(n: usize, routing: usize) -> Kind
    requires { n ≤ 14 }
    ensures { result ≡ kind_at n routing }
{
    match n {
        0 => Kind::Memory(MemoryKind::MRd),
        1 => Kind::Memory(MemoryKind::MRdLk),
        2 => Kind::Memory(MemoryKind::MWr),
        3 => Kind::Io(IoKind::IORd),
        4 => Kind::Io(IoKind::IOWr),
        5 => Kind::Config(ConfigKind::CfgRd0),
        6 => Kind::Config(ConfigKind::CfgWr0),
        7 => Kind::Config(ConfigKind::CfgRd1),
        8 => Kind::Config(ConfigKind::CfgWr1),
        9 => Kind::Completion(CompletionKind::Cpl),
        10 => Kind::Completion(CompletionKind::CplD),
        11 => Kind::Completion(CompletionKind::CplLk),
        12 => Kind::Completion(CompletionKind::CplDLk),
        13 => Kind::Message(MessageKind::Msg, routing_at(routing)),
        _ => Kind::Message(MessageKind::MsgD, routing_at(routing)),
    }
}

fn routing_at(n: usize) -> MessageRouting
    ensures { result ≡ routing_at n }
{
    match n {
        0 => MessageRouting::ToRoot,
        1 => MessageRouting::ByAddress,
        2 => MessageRouting::ById,
        3 => MessageRouting::Broadcast,
        4 => MessageRouting::Local,
        5 => MessageRouting::Gathered,
        _ => MessageRouting::ToRoot,
    }
}

fn fields_as(kind: Kind, numbers: &[u64]) -> Parsed
    requires { (20 ≤ length numbers.now) × (get_or numbers.now 1 0 ≤ 4) }
    ensures { result ≡ fields_as kind numbers.now }
{
    match kind {
        Kind::Memory(k) => {
            if above_by_address(numbers) {
                return too_large(kind, numbers);
            }
            Parsed::Accepted(Packet::Memory(
                k,
                head_from(numbers),
                enables_from(numbers),
                numbers[12],
            ))
        }
        Kind::Io(k) => {
            if above_by_address(numbers) {
                return too_large(kind, numbers);
            }
            Parsed::Accepted(Packet::Io(k, head_from(numbers), enables_from(numbers), numbers[12]))
        }
        Kind::Config(k) => {
            if above_by_target(numbers) {
                return too_large(kind, numbers);
            }
            Parsed::Accepted(Packet::Config(
                k,
                head_from(numbers),
                enables_from(numbers),
                target_from(numbers),
            ))
        }
        Kind::Completion(k) => {
            if above_completing(numbers) {
                return too_large(kind, numbers);
            }
            Parsed::Accepted(Packet::Completion(k, head_from(numbers), outcome_from(numbers)))
        }
        Kind::Message(k, routing) => message_as(k, routing, numbers),
        Kind::FetchAdd => Parsed::Refused(2),
        Kind::Swap => Parsed::Refused(2),
        Kind::Cas => Parsed::Refused(2),
    }
}

fn message_as(k: MessageKind, routing: MessageRouting, numbers: &[u64]) -> Parsed
    requires { (20 ≤ length numbers.now) × (get_or numbers.now 1 0 ≤ 4) }
    ensures { result ≡ fields_as (MessageOf k routing) numbers.now }
{
    if is_reserved(numbers[10]) {
        return Parsed::Refused(2);
    }
    if above_messaging(numbers) {
        return too_large(Kind::Message(k, routing), numbers);
    }
    Parsed::Accepted(Packet::Message(
        k,
        head_from(numbers),
        routing,
        numbers[11] as u8,
        numbers[12],
    ))
}

fn is_reserved(routing: u64) -> bool
    ensures { result ≡ is_reserved routing }
{
    (routing == 6) | (routing == 7)
}

// A kind and form not carried come before a number too large.
fn too_large(kind: Kind, numbers: &[u64]) -> Parsed
    requires { (20 ≤ length numbers.now) × (get_or numbers.now 1 0 ≤ 4) }
    ensures { result ≡ too_large kind numbers.now }
{
    match pairs::row_of(kind, numbers[1] as u8) {
        Pair::Carried(_) => Parsed::Refused(10),
        Pair::NotCarried => Parsed::Refused(2),
        Pair::Unknown => Parsed::Refused(2),
    }
}

// ---- some number is greater than its field's greatest, which is 0 where the kind has no such field

fn above_by_address(numbers: &[u64]) -> bool
    requires { 20 ≤ length numbers.now }
    ensures { result ≡ any_above by_address numbers.now }
{
    head_above(numbers) | request_above(numbers, QWORD, 0, 0) | outcome_given(numbers)
}

fn above_by_target(numbers: &[u64]) -> bool
    requires { 20 ≤ length numbers.now }
    ensures { result ≡ any_above by_target numbers.now }
{
    head_above(numbers) | request_above(numbers, 0, WORD, WORD) | outcome_given(numbers)
}

fn above_completing(numbers: &[u64]) -> bool
    requires { 20 ≤ length numbers.now }
    ensures { result ≡ any_above completing numbers.now }
{
    head_above(numbers) | request_given(numbers) | outcome_above(numbers)
}

fn above_messaging(numbers: &[u64]) -> bool
    requires { 20 ≤ length numbers.now }
    ensures { result ≡ any_above messaging numbers.now }
{
    head_above(numbers) | message_above(numbers) | outcome_given(numbers)
}

// The tests are joined with no branch between them.
fn head_above(numbers: &[u64]) -> bool
    requires { 20 ≤ length numbers.now }
    ensures { result ≡ or_above false 0 (last_kind ∷ 4 ∷ head_most) numbers.now }
{
    (LAST_KIND < numbers[0])
        | (4 < numbers[1])
        | (BYTE < numbers[2])
        | (BYTE < numbers[3])
        | (FLAG < numbers[4])
        | (FLAG < numbers[5])
        | (BYTE < numbers[6])
        | (WORD < numbers[7])
        | (WORD < numbers[8])
        | (WORD < numbers[9])
}

fn request_above(numbers: &[u64], address: u64, target: u64, register: u64) -> bool
    requires { 20 ≤ length numbers.now }
    ensures { result ≡ or_above false 10 (request_most address target register) numbers.now }
{
    (BYTE < numbers[10])
        | (BYTE < numbers[11])
        | (address < numbers[12])
        | (target < numbers[13])
        | (register < numbers[14])
}

fn message_above(numbers: &[u64]) -> bool
    requires { 20 ≤ length numbers.now }
    ensures { result ≡ or_above false 10 message_most numbers.now }
{
    (RRR < numbers[10])
        | (BYTE < numbers[11])
        | (QWORD < numbers[12])
        | (0 < numbers[13])
        | (0 < numbers[14])
}

fn request_given(numbers: &[u64]) -> bool
    requires { 20 ≤ length numbers.now }
    ensures { result ≡ or_above false 10 absent numbers.now }
{
    (0 < numbers[10])
        | (0 < numbers[11])
        | (0 < numbers[12])
        | (0 < numbers[13])
        | (0 < numbers[14])
}

fn outcome_above(numbers: &[u64]) -> bool
    requires { 20 ≤ length numbers.now }
    ensures { result ≡ or_above false 15 outcome_most numbers.now }
{
    (WORD < numbers[15])
        | (BYTE < numbers[16])
        | (FLAG < numbers[17])
        | (WORD < numbers[18])
        | (BYTE < numbers[19])
}

fn outcome_given(numbers: &[u64]) -> bool
    requires { 20 ≤ length numbers.now }
    ensures { result ≡ or_above false 15 absent numbers.now }
{
    (0 < numbers[15])
        | (0 < numbers[16])
        | (0 < numbers[17])
        | (0 < numbers[18])
        | (0 < numbers[19])
}

// ---- the fields, at their places

fn head_from(numbers: &[u64]) -> Head
    requires { (20 ≤ length numbers.now) × Within 1 (4 ∷ head_most) numbers.now }
    ensures { result ≡ head_from numbers.now }
{
    Head {
        form: numbers[1] as u8,
        tc: numbers[2] as u8,
        attr: numbers[3] as u8,
        td: numbers[4] == 1,
        ep: numbers[5] == 1,
        at: numbers[6] as u8,
        length: numbers[7] as u16,
        requester: numbers[8] as u16,
        tag: numbers[9] as u16,
    }
}

fn enables_from(numbers: &[u64]) -> Enables
    requires { (20 ≤ length numbers.now) × Within 10 (byte ∷ byte ∷ []) numbers.now }
    ensures { result ≡ enables_from numbers.now }
{
    Enables {
        last: numbers[10] as u8,
        first: numbers[11] as u8,
    }
}

fn target_from(numbers: &[u64]) -> Target
    requires { (20 ≤ length numbers.now) × Within 13 (word ∷ word ∷ []) numbers.now }
    ensures { result ≡ target_from numbers.now }
{
    Target {
        id: numbers[13] as u16,
        register: numbers[14] as u16,
    }
}

fn outcome_from(numbers: &[u64]) -> Outcome
    requires { (20 ≤ length numbers.now) × Within 15 outcome_most numbers.now }
    ensures { result ≡ outcome_from numbers.now }
{
    Outcome {
        completer: numbers[15] as u16,
        status: numbers[16] as u8,
        bcm: numbers[17] == 1,
        count: numbers[18] as u16,
        lower: numbers[19] as u8,
    }
}
