// The bridge above a bus of a checked sheet: the one whose secondary bus it is, told as none, one or several, and the host on the root bus.
// One definition (specs/Parents.antt) and two ways to it: who asks for every function has a table of all buses, filled by one pass over the
// records; who asks for one bus has a search over them. By the table also all bridges above a bus: how many, and whether each is enabled.
#![tactic(auto)]

ghost use Rattle.std.specs.Prelude.{◌≡◌, ◌≤◌, ◌<◌, length, replicate};
ghost use Rattle.sheet_record.specs.Places.{record_size};
ghost use Rattle.sheet_record.specs.Entry.{entry_of};
ghost use Rattle.sheet.specs.Sheet.{entries_of};
ghost use Rattle.sheet.proofs.SheetLaws.{Checked};
ghost use Rattle.sheet_above.specs.Parents.{leads_to, joined as joined_of, leader_of};
ghost use Rattle.sheet_above.specs.Table.{IsParent, told_by, Leads, with_record, Tells};
ghost use Rattle.sheet_above.specs.SearchLaws.{NextTold};
ghost use Rattle.sheet_above.specs.Bridges.{BusTree, OnBus, bridges_over};

use pools::Space;

// An entry for each bus number.
pub const BUSES: usize = 256;

// The entry of a bus that more than one bridge leads to. Entries are numbers and no enum: the caller lends the table, two bytes for a bus.
pub const SEVERAL: u16 = 65535;

// Who stands above a bus: the host, the bridge of a record, from 0, no bridge, or several.
#[derive(Clone, Copy)]
pub enum Parent {
    Host,
    Bridge(usize),
    Nothing,
    Several,
}

// How many bridges there are, and whether each enables the space.
#[derive(Clone, Copy)]
pub struct Bridges {
    pub count: u8,
    pub memory: bool,
    pub io: bool,
}

// By a search: who stands above the functions of this bus.
pub fn parent_of(sheet: &[u8], root: u8, bus: u8) -> Parent
    requires { Checked sheet.now }
    ensures { IsParent sheet.now root bus result }
{
    if bus == root {
        return Parent::Host;
    }
    told_by(leader_of(sheet, bus))
}

// The same by the table of any checked sheet.
pub fn parent_in(table: &[u16], root: u8, bus: u8) -> Parent
    requires { length table.now ≡ 256 }
    ensures { Tells table.now root bus result }
{
    if bus == root {
        return Parent::Host;
    }
    told_by(table[bus as usize])
}

// The table, in one pass from zeros: at each bus 0 where no bridge leads there, the bridge's record number, or SEVERAL.
pub fn leaders(sheet: &[u8], table: &mut [u16])
    requires { Checked sheet.now × (table.old ≡ replicate 256 0) }
    ensures { Leads (entries_of sheet.now) table.new }
{
    for k in 0..sheet::count(sheet) {
        add_record(table, sheet::part(sheet, k), k as u16 + 1);
    }
}

// All bridges above a bus on which a function stands.
pub fn bridges_above(sheet: &[u8], table: &[u16], root: u8, bus: u8) -> Bridges
    requires { BusTree sheet.now table.now root × OnBus sheet.now bus }
    ensures { result ≡ bridges_over sheet.now root bus }
{
    let mut count: u8 = 0;
    let mut memory = true;
    let mut io = true;
    let mut at = bus;
    while let Parent::Bridge(k) = parent_in(table, root, at) {
        let part = sheet::part(sheet, k);
        count += 1;
        memory &= sheet_record::is_enabled(part, Space::Memory);
        io &= sheet_record::is_enabled(part, Space::Io);
        at = sheet_record::bus_of(part);
    }
    Bridges { count, memory, io }
}

// ---- a bus's number

fn told_by(number: u16) -> Parent
    ensures { result ≡ told_by number }
{
    match number {
        0 => Parent::Nothing,
        SEVERAL => Parent::Several,
        _ => Parent::Bridge(usize::from(number) - 1),
    }
}

// With one bridge more.
fn joined(before: u16, number: u16) -> u16
    requires { 0 < number }
    ensures { result ≡ joined_of before number }
{
    match before {
        0 => number,
        _ => SEVERAL,
    }
}

// ---- one record

// The record with this number, where it is a bridge, leads to its secondary bus.
fn add_record(table: &mut [u16], part: &[u8], number: u16)
    requires { (length table.old ≡ 256) × (length part.now ≡ record_size) × (0 < number) }
    ensures { table.new ≡ with_record number (entry_of part.now) table.old }
{
    if !sheet_record::is_bridge(part) {
        return;
    }
    let bus = sheet_record::secondary_of(part) as usize;
    let before = table[bus];
    table[bus] = joined(before, number);
}

fn leads_to(part: &[u8], bus: u8) -> bool
    requires { length part.now ≡ record_size }
    ensures { result ≡ leads_to bus (entry_of part.now) }
{
    sheet_record::is_bridge(part) & (sheet_record::secondary_of(part) == bus)
}

// ---- the search

// The one bridge found first, unless there is a second. One loop over all records that counts them keeps its count from record to record,
// which takes twice as long as two loops that end at what they find.
fn leader_of(sheet: &[u8], bus: u8) -> u16
    requires { Checked sheet.now }
    ensures { result ≡ leader_of (entries_of sheet.now) bus }
{
    let Some(first) = next_leader(sheet, bus, 0) else {
        return 0;
    };
    match next_leader(sheet, bus, first + 1) {
        Some(_) => SEVERAL,
        None => first as u16 + 1,
    }
}

// The next record from this one on that leads to the bus.
fn next_leader(sheet: &[u8], bus: u8, from: usize) -> Option<usize>
    requires { Checked sheet.now × (from ≤ length (entries_of sheet.now)) }
    ensures { NextTold sheet.now bus from result }
{
    for k in from..sheet::count(sheet) {
        if leads_to(sheet::part(sheet, k), bus) {
            return Some(k);
        }
    }
    None
}
