// One record of a board, as the part after its own length: the host's and its edges (26), a function's fields, and the checks of a function
// by itself.
#![tactic(auto)]

ghost use Rattle.std.specs.Prelude.{◌≡◌, false, ◌<◌, length, get_or};
ghost use Rattle.board_record.specs.Host.{host_length, host_of_part, off_edges, outside as is_outside, pool_wrong, host_wrong};
ghost use Rattle.board_record.specs.Function.{readbacks_for, spares_for, function_of_part, bridge_length, wrong_for, wrong_in};
ghost use Rattle.board_record.specs.Function.{header_wrong, is_bridge, slot_count, readbacks_wrong};
ghost use Rattle.board_record.specs.Rules.{breaks as breaks_of, too_early};

use pools::Pool;

// An address pool of the host: its first and its last address. A pool with its base above its last is closed.
#[derive(Clone, Copy)]
pub struct Span {
    pub base: u64,
    pub last: u64,
}

// Record 0.
#[derive(Clone, Copy)]
pub struct Host {
    pub first_bus: u8,
    pub last_bus: u8,
    pub low: Span,
    pub high: Span,
    pub io: Span,
}

// A function record. A type 1 function has two read-backs; the last four are 0. Its spares are a byte of buses and two of low memory in
// MiB, as one number; any other function has none.
#[derive(Clone, Copy)]
pub struct Function {
    pub parent: u16,
    pub devfn: u8,
    pub header: u8,
    pub command: u16,
    pub readbacks: [u32; 6],
    pub spares: u32,
}

// The checks of each function record by itself: its length among 20, its header on a board of this version (24) and its read-backs (25).
#[derive(Clone, Copy)]
pub enum Rule {
    Length,
    Header(u8),
    ReadBacks,
}

// The length of the host record.
pub const HOST_LENGTH: usize = 30;

// Where it stands, and, in a board that is not misframed, the first function's.
pub const HOST: usize = 1;

pub const FUNCTIONS: usize = HOST + 2 + HOST_LENGTH;

// Lengths of a function record: a bridge's on a board of version 1, and with its spares on one of version 2; any other's.
const BRIDGE: usize = 14;

const BRIDGE_WITH_SPARES: usize = 17;

pub const END: usize = 30;

// Where a bridge's spares stand, a byte of buses and two of low memory.
const SPARE_BUSES: usize = BRIDGE;

const SPARE_LOW: usize = BRIDGE + 1;

// ---- the host

pub fn host_of(part: &[u8]) -> Host
    requires { length part.now ≡ host_length }
    ensures { result ≡ host_of_part part.now }
{
    let low = Span {
        base: endian::read_be32(part, 2),
        last: endian::read_be32(part, 6),
    };
    let high = Span {
        base: endian::read_be64(part, 10),
        last: endian::read_be64(part, 18),
    };
    let io = Span {
        base: endian::read_be16(part, 26),
        last: endian::read_be16(part, 28),
    };
    Host {
        first_bus: part[0],
        last_bus: part[1],
        low,
        high,
        io,
    }
}

// 26
pub fn host_wrong(h: Host) -> bool
    ensures { result ≡ host_wrong h }
{
    (h.last_bus < h.first_bus)
        | pool_wrong(Pool::Low, h.low)
        | pool_wrong(Pool::High, h.high)
        | pool_wrong(Pool::Io, h.io)
}

fn pool_wrong(q: Pool, x: Span) -> bool
    ensures { result ≡ pool_wrong q x }
{
    if x.last < x.base {
        return false;
    }
    outside(q, x) | off_edges(pools::granule(q), x)
}

// High memory lies from 4 GiB to below 2^52.
fn outside(q: Pool, x: Span) -> bool
    ensures { result ≡ is_outside q x }
{
    match q {
        Pool::High => (x.base < 4294967296) | (4503599627370496 <= x.last),
        Pool::Low | Pool::Io => false,
    }
}

// The last address may be the last there is: one more is not taken.
fn off_edges(edge: u64, x: Span) -> bool
    requires { 0 < edge }
    ensures { result ≡ off_edges edge x }
{
    (x.base % edge != 0) | (x.last % edge != edge - 1)
}

// ---- a function

// Of a record whose header type and length passed their check.
pub fn function_of(part: &[u8]) -> Function
    requires { header_wrong part.now ≡ false }
    ensures { result ≡ function_of_part part.now }
{
    let readbacks = readbacks_of(part);
    Function {
        parent: endian::read_be16(part, 0) as u16,
        devfn: part[2],
        header: part[3],
        command: endian::read_be16(part, 4) as u16,
        readbacks,
        spares: spares_of(part),
    }
}

// Of the same, one field: a pass that needs few of them reads no more.
pub fn parent_of(part: &[u8]) -> u16
    requires { header_wrong part.now ≡ false }
    ensures { result ≡ (function_of_part part.now).parent }
{
    endian::read_be16(part, 0) as u16
}

pub fn devfn_of(part: &[u8]) -> u8
    requires { header_wrong part.now ≡ false }
    ensures { result ≡ (function_of_part part.now).devfn }
{
    part[2]
}

pub fn header_of(part: &[u8]) -> u8
    requires { header_wrong part.now ≡ false }
    ensures { result ≡ (function_of_part part.now).header }
{
    part[3]
}

// A bridge's third and later are 0.
pub fn readback_at(part: &[u8], j: usize) -> u32
    requires { (header_wrong part.now ≡ false) × (j < 6) }
    ensures { result ≡ get_or (function_of_part part.now).readbacks j 0 }
{
    if (2 <= j) & is_bridge(part) {
        return 0;
    }
    endian::read_be32(part, 6 + 4 * j) as u32
}

pub fn is_bridge(part: &[u8]) -> bool
    requires { header_wrong part.now ≡ false }
    ensures { result ≡ is_bridge (function_of_part part.now) }
{
    bar::is_bridge(header_of(part))
}

// A bridge of version 2 has them at its end.
pub fn spares_of(part: &[u8]) -> u32
    requires { header_wrong part.now ≡ false }
    ensures { (result ≡ spares_for (get_or part.now 3 0) part.now) × (result < 16777216) }
{
    if bar::is_bridge(part[3]) {
        if part.len() < BRIDGE_WITH_SPARES {
            return 0;
        }
        return part[SPARE_BUSES] as u32 * 65536 + endian::read_be16(part, SPARE_LOW) as u32;
    }
    0
}

fn readbacks_of(part: &[u8]) -> [u32; 6]
    requires { header_wrong part.now ≡ false }
    ensures { result ≡ readbacks_for (get_or part.now 3 0) part.now }
{
    let mut set = [0u32; 6];
    let n = bar::slot_count(part[3]);
    for j in 0..n {
        set[j] = endian::read_be32(part, 6 + 4 * j) as u32;
    }
    set
}

// ---- the checks of a function by itself

// The record breaks the rule.
pub fn breaks(rule: Rule, part: &[u8]) -> bool
    requires { too_early rule part.now ≡ false }
    ensures { result ≡ breaks_of rule part.now }
{
    match rule {
        Rule::Length => part.len() < 6,
        Rule::Header(version) => header_wrong(version, part),
        Rule::ReadBacks => bad_readbacks(part),
    }
}

// 24
pub fn header_wrong(version: u8, part: &[u8]) -> bool
    ensures { result ≡ wrong_in version part.now }
{
    if part.len() < 4 {
        return true;
    }
    wrong_for(version, part.len(), part[3])
}

// A header type other than 0 and 1, or another length than its.
fn wrong_for(version: u8, n: usize, header: u8) -> bool
    ensures { result ≡ wrong_for version n header }
{
    if bar::is_bridge(header) {
        return n != bridge_length(version);
    }
    (header % 128 != 0) | (n != END)
}

fn bridge_length(version: u8) -> usize
    ensures { result ≡ bridge_length version }
{
    if version == 1 {
        BRIDGE
    } else {
        BRIDGE_WITH_SPARES
    }
}

// 25. One call for two slots and for six, so that the compiler can join it to the loop.
fn bad_readbacks(part: &[u8]) -> bool
    requires { header_wrong part.now ≡ false }
    ensures { result ≡ readbacks_wrong (function_of_part part.now) }
{
    let set = readbacks_of(part);
    !bar::is_lawful(set, slot_count(part))
}

fn slot_count(part: &[u8]) -> usize
    requires { header_wrong part.now ≡ false }
    ensures { result ≡ slot_count (function_of_part part.now) }
{
    bar::slot_count(header_of(part))
}
