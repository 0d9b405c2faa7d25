// The register sheet: its checks, by number, and the lookup. A sheet is the version byte 1 and then a record for each function, each after
// its own two-byte length.
#![tactic(auto)]

mod rules;

ghost use Rattle.std.specs.Prelude.{◌≡◌, ◌+◌, ◌≤◌, length, drop};
ghost use Rattle.sheet.specs.Lookup.{lookup_of, lookup_number, register_bytes, record_id, with_command};
ghost use Rattle.sheet.specs.Sheet.{is_framed, Framed, sheet_length, part_at, entries_of, any_breaks, find_from, id_twice};
ghost use Rattle.sheet.specs.Sheet.{from24, sheet_number};

use sheet_record::places;
use sheet_record::places::{SIZE, STRIDE};

// The length of the longest sheet.
pub const FULL: usize = 1 + STRIDE * records::MOST_FUNCTIONS;

// Where a record's registers start, and their command word.
const REGISTERS: usize = 2 + places::REGISTERS;

const COMMAND: usize = places::COMMAND - places::REGISTERS;

// The checks of each record by itself: 24, 27, 25 and 29. An enum and no closure for each: the theorems above name the checks by it.
#[derive(Clone, Copy)]
pub enum Rule {
    HeaderType,
    Buses,
    ReadBacks,
    Nibbles,
}

// Where the 64 register bytes of the function with an ID start, or the number.
#[derive(Clone, Copy)]
pub enum Lookup {
    Registers(usize),
    Refused(u8),
}

// The ID of a record, or the number.
#[derive(Clone, Copy)]
pub enum RecordId {
    Id(u16),
    Refused(u8),
}

// Any bytes: 0 for a sheet that passes, or the number of the first check that it fails.
pub fn check(sheet: &[u8]) -> u8
    ensures { result ≡ sheet_number sheet.now }
{
    if sheet.is_empty() {
        return 20;
    }
    if sheet[0] != 1 {
        return 21;
    }
    if !is_framed(sheet) {
        return 20;
    }
    if FULL < sheet.len() {
        return 22;
    }
    check_records(sheet)
}

// The lookup's number or place: the sheet's number first, then 40 where no function has the ID.
pub fn find(sheet: &[u8], id: u16) -> Lookup
    ensures { result ≡ lookup_of sheet.now id }
{
    let n = check(sheet);
    if n != 0 {
        return Lookup::Refused(n);
    }
    match find_record(sheet, id) {
        Some(at) => Lookup::Registers(at + REGISTERS),
        None => Lookup::Refused(40),
    }
}

// The lookup's part: the function's 64 register bytes themselves, or an empty part.
#[tactic(auto, using(crate::proofs::LookupLaws::registers_fit, crate::proofs::LookupLaws::registers_part))]
pub fn registers(sheet: &[u8], id: u16) -> &[u8]
    ensures { result.now ≡ register_bytes (lookup_of sheet.now id) sheet.now }
{
    match find(sheet, id) {
        Lookup::Registers(at) => &sheet[at..at + places::REGISTERS_SIZE],
        Lookup::Refused(_) => &sheet[0..0],
    }
}

// The ID of the function with this record number, from 1 on: the sheet's number first, then 40 where there is no such record.
pub fn id_of(sheet: &[u8], number: usize) -> RecordId
    ensures { result ≡ record_id sheet.now number }
{
    let n = check(sheet);
    if n != 0 {
        return RecordId::Refused(n);
    }
    if number == 0 {
        return RecordId::Refused(40);
    }
    if count(sheet) < number {
        return RecordId::Refused(40);
    }
    RecordId::Id(sheet_record::id_of(part(sheet, number - 1)))
}

// Rewrites the command word of the function with this ID, and no other byte. Refused, by the same numbers, it changes nothing.
#[tactic(auto, using(crate::proofs::LookupLaws::registers_fit))]
pub fn set_command(sheet: &mut [u8], id: u16, command: u16) -> u8
    ensures number { result ≡ lookup_number (lookup_of sheet.old id) }
    ensures content { sheet.new ≡ with_command (lookup_of sheet.old id) sheet.old command }
{
    match find(sheet, id) {
        Lookup::Registers(at) => {
            endian::write_le16(sheet, at + COMMAND, command as u64);
            0
        }
        Lookup::Refused(n) => n,
    }
}

// How many functions a framed sheet has.
#[tactic(auto, using(crate::proofs::IndexLaws::count_index))]
pub fn count(sheet: &[u8]) -> usize
    requires { Framed 1 sheet.now }
    ensures { result ≡ length (entries_of sheet.now) }
{
    (sheet.len() - 1) / STRIDE
}

// The part of record k, from 0, after the version byte, the records before it and its own length.
pub fn part(sheet: &[u8], k: usize) -> &[u8]
    requires { sheet_length (k + 1) ≤ length sheet.now }
    ensures { result.now ≡ part_at sheet.now k }
{
    let start = STRIDE * k + 3;
    let end = start + SIZE;
    &sheet[start..end]
}

// ---- the frame

// 20: every record has its size, and the last ends at the end.
fn is_framed(sheet: &[u8]) -> bool
    requires { 1 ≤ length sheet.now }
    ensures { result ≡ is_framed (drop 1 sheet.now) }
{
    let bytes = sheet.len() - 1;
    for k in 0..bytes / STRIDE {
        if endian::read_be16(sheet, STRIDE * k + 1) != SIZE as u64 {
            return false;
        }
    }
    bytes % STRIDE == 0
}

// ---- passes over a framed sheet's records

// The checks from 24 on, each over all records before the next.
#[tactic(auto, using(crate::proofs::CheckLaws::from24_in_order))]
fn check_records(sheet: &[u8]) -> u8
    requires { Framed 1 sheet.now }
    ensures { result ≡ from24 (entries_of sheet.now) }
{
    if any_breaks(Rule::HeaderType, sheet) {
        return 24;
    }
    if any_breaks(Rule::Buses, sheet) {
        return 27;
    }
    if id_twice(sheet) {
        return 28;
    }
    if any_breaks(Rule::ReadBacks, sheet) {
        return 25;
    }
    if any_breaks(Rule::Nibbles, sheet) {
        return 29;
    }
    0
}

// Some record breaks the rule.
fn any_breaks(rule: Rule, sheet: &[u8]) -> bool
    requires { Framed 1 sheet.now }
    ensures { result ≡ any_breaks rule (entries_of sheet.now) }
{
    for k in 0..count(sheet) {
        if rules::breaks(rule, part(sheet, k)) {
            return true;
        }
    }
    false
}

// 28: a record's ID that an earlier record has is met marked.
fn id_twice(sheet: &[u8]) -> bool
    requires { Framed 1 sheet.now }
    ensures { result ≡ id_twice (entries_of sheet.now) }
{
    let mut seen = [0u64; 1024];
    for k in 0..count(sheet) {
        let id = sheet_record::id_of(part(sheet, k));
        if sheet_marks::test_and_mark(&mut seen, id) {
            return true;
        }
    }
    false
}

// Where the first record with this ID starts.
fn find_record(sheet: &[u8], id: u16) -> Option<usize>
    requires { Framed 1 sheet.now }
    ensures { result ≡ find_from id 1 (entries_of sheet.now) }
{
    for k in 0..count(sheet) {
        if sheet_record::id_of(part(sheet, k)) == id {
            return Some(STRIDE * k + 1);
        }
    }
    None
}
