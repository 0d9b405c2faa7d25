// A TLP header as a packet: each kind has exactly the fields that document 01 gives it, so that two
// packets are the same when they are equal. The checks here look at fields only and are shared by
// the reader and the writer: the writer's 2 and 10, and rules 4 to 9.
#![tactic(auto)]

ghost use Rattle.std.specs.Prelude.{◌≡◌, cond, ℕ, ◌<◌};
ghost use Rattle.pairs.specs.declared.Kind.TheVariants.{Memory as MemoryOf};
ghost use Rattle.pairs.specs.declared.MemoryKind.{MemoryKind};
ghost use Rattle.pairs.specs.declared.IoKind.{IoKind};
ghost use Rattle.pairs.specs.declared.ConfigKind.{ConfigKind};
ghost use Rattle.packet.specs.declared.Target.{Target};
ghost use Rattle.packet.specs.declared.Packet.TheVariants.{Memory, Io, Config, Completion, Message};
ghost use Rattle.packet.specs.Fields.{kind_of, head_of, is_posted};
ghost use Rattle.packet.specs.Widths.{head_fits, tag_fits, length_in, length_fits, enables_fit, address_fits, target_fits, outcome_fits};
ghost use Rattle.packet.specs.Widths.{content_fits, body_fits, fields_fit};
ghost use Rattle.packet.specs.Rules.{is_by_address, one_dword, is_first, is_last, enables_lawful, is_status, rule_number};
ghost use Rattle.packet.specs.RulesLaws.{has_no_length, is_without_data};
ghost use Rattle.packet.specs.Verdict.{verdict_of, on_fields};

use pairs::{
    CompletionKind, ConfigKind, IoKind, Kind, MemoryKind, MessageKind, MessageRouting, Pair, Row,
};

// The fields that every packet has. None stands beside the one that follows it among a packet's numbers: the two would be stored one by one
// and then loaded as a pair, which has to wait for both stores.
#[derive(Clone, Copy)]
pub struct Head {
    pub requester: u16,
    pub form: u8,
    pub attr: u8,
    pub length: u16,
    pub ep: bool,
    pub tc: u8,
    pub tag: u16,
    pub td: bool,
    pub at: u8,
}

// Byte enables of a request, four bits each.
#[derive(Clone, Copy)]
pub struct Enables {
    pub last: u8,
    pub first: u8,
}

// What a configuration request asks for. The register is ten bits, the extended four high.
#[derive(Clone, Copy)]
pub struct Target {
    pub id: u16,
    pub register: u16,
}

// What a completion tells. In this order it takes ten bytes: eight would be moved as one number, and a packet, whose fields of another kind
// then lie across it, would be stored and loaded in pieces that do not match.
#[derive(Clone, Copy)]
pub struct Outcome {
    pub status: u8,
    pub completer: u16,
    pub bcm: bool,
    pub count: u16,
    pub lower: u8,
}

// A message has its routing, its code, and bytes 8 to 15 as one number, where a memory request has its enables and its address: what those
// bytes say is by the routing, and by the code.
#[derive(Clone, Copy)]
pub enum Packet {
    Memory(MemoryKind, Head, Enables, u64),
    Io(IoKind, Head, Enables, u64),
    Config(ConfigKind, Head, Enables, Target),
    Completion(CompletionKind, Head, Outcome),
    Message(MessageKind, Head, MessageRouting, u8, u64),
}

// The verdict on a packet: lawful, with its row of the table of pairs, or the number of the first
// check that it fails.
#[derive(Clone, Copy)]
pub enum Verdict {
    Lawful(Row),
    Refused(u8),
}

// 2 for a kind and form not carried, then 10 for a value too wide, then rules 4 to 9.
pub fn judge(p: Packet) -> Verdict
    ensures { result ≡ verdict_of p }
{
    let h = head_of(p);
    match pairs::row_of(kind_of(p), h.form) {
        Pair::Carried(row) => judge_fields(row, p),
        Pair::NotCarried => Verdict::Refused(2),
        Pair::Unknown => Verdict::Refused(2),
    }
}

fn judge_fields(row: Row, p: Packet) -> Verdict
    ensures { result ≡ on_fields row p }
{
    if !fields_fit(p) {
        return Verdict::Refused(10);
    }
    let n = rule_number(p);
    if n == 0 {
        return Verdict::Lawful(row);
    }
    Verdict::Refused(n)
}

// The number of the first of rules 4 to 9 that the packet breaks, or 0. The rules of a kind are given
// its fields and never a packet: one that was just read would be stored and loaded again.
fn rule_number(p: Packet) -> u8
    ensures { result ≡ rule_number p }
{
    match p {
        Packet::Memory(_, h, e, a) => memory_rules(h, e, a),
        Packet::Io(_, h, e, a) => io_rules(h, e, a),
        Packet::Config(_, h, e, _) => config_rules(h, e),
        Packet::Completion(k, h, o) => completion_rules(k, h, o),
        Packet::Message(k, h, routing, _, tail) => message_rules(k, h, routing, tail),
    }
}

// Rules 4, 6, 7 and 8.
pub fn memory_rules(h: Head, e: Enables, a: u64) -> u8
    ensures { (k : MemoryKind) → result ≡ rule_number (Memory k h e a) }
{
    let reserved = !(a % 4 == 0) | (h.at == 3);
    let upper = (h.form == 4) & (a < 4294967296);
    let enables = !enables_lawful(h.length, a, e);
    let crosses = 4096 < a % 4096 + 4 * wide(h.length);
    if reserved | upper | enables | crosses {
        return first_broken(reserved, upper, enables);
    }
    0
}

// Which it is, where one of the four is broken: a lawful request passes one branch.
fn first_broken(reserved: bool, upper: bool, enables: bool) -> u8
    ensures { result ≡ cond reserved 4 (cond upper 6 (cond enables 7 8)) }
{
    if reserved {
        return 4;
    }
    if upper {
        return 6;
    }
    if enables { 7 } else { 8 }
}

// Rules 4 and 5.
pub fn io_rules(h: Head, e: Enables, a: u64) -> u8
    ensures { (k : IoKind) → result ≡ rule_number (Io k h e a) }
{
    if !(a % 4 == 0) {
        return 4;
    }
    if !one_dword(h, e) {
        return 5;
    }
    0
}

// Rule 5.
pub fn config_rules(h: Head, e: Enables) -> u8
    ensures { (k : ConfigKind) (t : Target) → result ≡ rule_number (Config k h e t) }
{
    if !one_dword(h, e) {
        return 5;
    }
    0
}

// Rules 4, 5 and 9.
pub fn completion_rules(k: CompletionKind, h: Head, o: Outcome) -> u8
    ensures { result ≡ rule_number (Completion k h o) }
{
    if !(h.at == 0) {
        return 4;
    }
    if has_no_length(k) & !(h.length == 0) {
        return 5;
    }
    if !is_status(o.status) {
        return 9;
    }
    0
}

// Rules 4 and 5.
pub fn message_rules(k: MessageKind, h: Head, routing: MessageRouting, tail: u64) -> u8
    ensures { (code : ℕ) → result ≡ rule_number (Message k h routing code tail) }
{
    if !(h.at == 0) | (is_by_address(routing) & !(tail % 4 == 0)) {
        return 4;
    }
    if is_without_data(k) & !(h.length == 0) {
        return 5;
    }
    0
}

pub fn kind_of(p: Packet) -> Kind
    ensures { result ≡ kind_of p }
{
    match p {
        Packet::Memory(k, _, _, _) => Kind::Memory(k),
        Packet::Io(k, _, _, _) => Kind::Io(k),
        Packet::Config(k, _, _, _) => Kind::Config(k),
        Packet::Completion(k, _, _) => Kind::Completion(k),
        Packet::Message(k, _, routing, _, _) => Kind::Message(k, routing),
    }
}

// A memory write or a message: no completion answers it, and its tag has eight bits.
pub fn is_posted(kind: Kind) -> bool
    ensures { result ≡ is_posted kind }
{
    match kind {
        Kind::Memory(k) => is_write(k),
        Kind::Io(_) => false,
        Kind::Config(_) => false,
        Kind::Completion(_) => false,
        Kind::Message(_, _) => true,
        Kind::FetchAdd => false,
        Kind::Swap => false,
        Kind::Cas => false,
    }
}

pub fn is_write(k: MemoryKind) -> bool
    ensures { result ≡ is_posted (MemoryOf k) }
{
    match k {
        MemoryKind::MRd => false,
        MemoryKind::MRdLk => false,
        MemoryKind::MWr => true,
    }
}

pub fn head_of(p: Packet) -> Head
    ensures { result ≡ head_of p }
{
    match p {
        Packet::Memory(_, h, _, _) => h,
        Packet::Io(_, h, _, _) => h,
        Packet::Config(_, h, _, _) => h,
        Packet::Completion(_, h, _) => h,
        Packet::Message(_, h, _, _, _) => h,
    }
}

fn fields_fit(p: Packet) -> bool
    ensures { result ≡ fields_fit p }
{
    head_fits(head_of(p)) & tag_fits(p) & length_fits(p) & body_fits(p)
}

fn head_fits(h: Head) -> bool
    ensures { result ≡ head_fits h }
{
    (h.tc < 8) & (h.attr < 8) & (h.at < 4) & (h.tag < 1024)
}

fn tag_fits(p: Packet) -> bool
    ensures { result ≡ tag_fits p }
{
    let h = head_of(p);
    !is_posted(kind_of(p)) | (h.tag < 256)
}

fn length_in(n: u16) -> bool
    ensures { result ≡ length_in n }
{
    (1 <= n) & (n <= 1024)
}

fn length_fits(p: Packet) -> bool
    ensures { result ≡ length_fits p }
{
    match p {
        Packet::Memory(_, h, _, _) => length_in(h.length),
        Packet::Io(_, h, _, _) => length_in(h.length),
        Packet::Config(_, h, _, _) => length_in(h.length),
        Packet::Completion(k, h, _) => match k {
            CompletionKind::Cpl => h.length == 0,
            CompletionKind::CplD => length_in(h.length),
            CompletionKind::CplLk => h.length == 0,
            CompletionKind::CplDLk => length_in(h.length),
        },
        Packet::Message(k, h, _, _, _) => match k {
            MessageKind::Msg => h.length == 0,
            MessageKind::MsgD => length_in(h.length),
        },
    }
}

fn enables_fit(e: Enables) -> bool
    ensures { result ≡ enables_fit e }
{
    (e.last < 16) & (e.first < 16)
}

// The 64 bits of an address always fit the four-dword form.
fn address_fits(h: Head, a: u64) -> bool
    ensures { result ≡ address_fits h a }
{
    (h.form != 3) | (a < 4294967296)
}

fn target_fits(t: Target) -> bool
    ensures { result ≡ target_fits t }
{
    t.register < 1024
}

fn outcome_fits(o: Outcome) -> bool
    ensures { result ≡ outcome_fits o }
{
    (o.status < 8) & (o.count < 4096) & (o.lower < 128)
}

// A byte and 64 bits always fit.
fn content_fits(code: u8, tail: u64) -> bool
    ensures { result ≡ content_fits code tail }
{
    (code <= 0xff) & (tail <= 0xffff_ffff_ffff_ffff)
}

fn body_fits(p: Packet) -> bool
    ensures { result ≡ body_fits p }
{
    match p {
        Packet::Memory(_, h, e, a) => enables_fit(e) & address_fits(h, a),
        Packet::Io(_, h, e, a) => enables_fit(e) & address_fits(h, a),
        Packet::Config(_, _, e, t) => enables_fit(e) & target_fits(t),
        Packet::Completion(_, _, o) => outcome_fits(o),
        Packet::Message(_, _, _, code, tail) => content_fits(code, tail),
    }
}

fn has_no_length(k: CompletionKind) -> bool
    ensures { result ≡ has_no_length k }
{
    match k {
        CompletionKind::Cpl => true,
        CompletionKind::CplD => false,
        CompletionKind::CplLk => true,
        CompletionKind::CplDLk => false,
    }
}

fn is_without_data(k: MessageKind) -> bool
    ensures { result ≡ is_without_data k }
{
    match k {
        MessageKind::Msg => true,
        MessageKind::MsgD => false,
    }
}

fn is_by_address(routing: MessageRouting) -> bool
    ensures { result ≡ is_by_address routing }
{
    match routing {
        MessageRouting::ToRoot => false,
        MessageRouting::ByAddress => true,
        MessageRouting::ById => false,
        MessageRouting::Broadcast => false,
        MessageRouting::Local => false,
        MessageRouting::Gathered => false,
    }
}

fn one_dword(h: Head, e: Enables) -> bool
    ensures { result ≡ one_dword h e }
{
    (h.tc == 0) & (h.attr == 0) & (h.at == 0) & (h.length == 1) & (e.last == 0)
}

// Bit x is set where x is 1111, 1110, 1100 or 1000: one shift in place of four comparisons.
const FIRST_PATTERNS: u32 = 0b1101_0001_0000_0000;

// The same for 1111, 0111, 0011 and 0001.
const LAST_PATTERNS: u32 = 0b1000_0000_1000_1010;

fn is_first(x: u8) -> bool
    ensures { result ≡ is_first x }
{
    (x < 16) & ((FIRST_PATTERNS >> (x % 16)) % 2 == 1)
}

fn is_last(x: u8) -> bool
    ensures { result ≡ is_last x }
{
    (x < 16) & ((LAST_PATTERNS >> (x % 16)) % 2 == 1)
}

// Of a request of so many dwords from an address on.
fn enables_lawful(n: u16, a: u64, e: Enables) -> bool
    ensures { result ≡ enables_lawful n a e }
{
    let two = pick(
        (n == 2) & (a % 8 == 0),
        !(e.last == 0) & !(e.first == 0),
        is_first(e.first) & is_last(e.last),
    );
    pick(n == 1, e.last == 0, two)
}

// A choice with no branch.
fn pick(test: bool, x: bool, y: bool) -> bool
    ensures { result ≡ cond test x y }
{
    (test & x) | (!test & y)
}

fn wide(x: u16) -> u64
    ensures { (result ≡ x) × (result < 65536) }
{
    x as u64
}

fn is_status(x: u8) -> bool
    ensures { result ≡ is_status x }
{
    (x == 0) | (x == 1) | (x == 2) | (x == 4)
}
