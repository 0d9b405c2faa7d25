// 24 to 29: the first record of a sheet that fails one of the sheet's own checks, and where. A check goes over all records before the next
// starts, so what is looked for is the first record that fails a given one.
#![tactic(auto)]

ghost use Rattle.std.specs.Prelude.{◌≡◌, false, ℕ, ◌+◌, ◌<◌, length};
ghost use Rattle.bar.specs.Values.{is_value, is_bar_value};
ghost use Rattle.bar.specs.Bar.{SizedSlot};
ghost use Rattle.board_record.specs.declared.Host.{Host};
ghost use Rattle.sheet_record.specs.Places.{record_size};
ghost use Rattle.sheet_record.specs.Entry.{entry_of};
ghost use Rattle.sheet.specs.declared.Rule.TheVariants.{HeaderType, Buses};
ghost use Rattle.sheet.specs.Sheet.{Framed, entries_of, breaks};
ghost use Rattle.audit_finding.specs.declared.Check.{Check};
ghost use Rattle.audit_finding.specs.declared.Check.TheVariants.{Ids};
ghost use Rattle.audit_finding.specs.Where.{read_back_marks};
ghost use Rattle.audit_finding.specs.Finding.{first_failing};
ghost use Rattle.audit_finding.specs.Spots.{spot_at, spot_in, record_of};
ghost use Rattle.sheet_where.specs.Own.{check_for, TellsOf, rest_of, nibble_spot};

use audit_finding::Relation;
use bar::Slot;
use finding::{NOBODIES, Parties, Party, Wrong};
use pools::Pool;
use sheet_record::places;

// 24, 27, 28, 25 and 29.
#[derive(Clone, Copy)]
pub enum Own {
    HeaderType,
    Buses,
    Ids,
    ReadBacks,
    Nibbles,
}

// The first record that fails the check, whatever the host is.
pub fn first_failing(own: Own, sheet: &[u8]) -> Parties
    requires { Framed 1 sheet.now }
    ensures { (h : Host) → result ≡ first_failing (check_for own) h (entries_of sheet.now) }
{
    first_wrong(sheet, |k| spot_at(own, sheet, k))
}

// The first record that is told to be wrong.
pub fn first_wrong<F: Fn(usize) -> Option<Wrong>>(sheet: &[u8], told: F) -> Parties
    requires framed { Framed 1 sheet.now }
    requires can { (k : ℕ) → k < length (entries_of sheet.now) → F.pre told k }
    ensures { (c : Check) (h : Host) → TellsOf c h sheet.now (F.post told) → result ≡ first_failing c h (entries_of sheet.now) }
{
    for k in 0..sheet::count(sheet) {
        if let Some(Wrong { place, other }) = told(k) {
            return Parties {
                party: Party {
                    number: k + 1,
                    place,
                },
                other,
            };
        }
    }
    NOBODIES
}

// What the check says of record k, from 0.
fn spot_at(own: Own, sheet: &[u8], k: usize) -> Option<Wrong>
    requires { Framed 1 sheet.now × (k < length (entries_of sheet.now)) }
    ensures { (h : Host) → result ≡ spot_at (check_for own) h (entries_of sheet.now) (record_of sheet.now k) }
{
    let part = sheet::part(sheet, k);
    match own {
        Own::HeaderType => finding::wrong_if(type_wrong(part), 10),
        Own::Buses => finding::wrong_if(buses_wrong(part), 9),
        Own::Ids => id_spot(sheet, k),
        Own::ReadBacks => read_back_spot(part),
        Own::Nibbles => nibble_spot(part),
    }
}

// ---- 24, 27 and 28

fn type_wrong(part: &[u8]) -> bool
    requires { length part.now ≡ record_size }
    ensures { result ≡ breaks HeaderType (entry_of part.now) }
{
    1 < part[places::HEADER_TYPE] % 128
}

fn buses_wrong(part: &[u8]) -> bool
    requires { length part.now ≡ record_size }
    ensures { result ≡ breaks Buses (entry_of part.now) }
{
    if !sheet_record::is_bridge(part) {
        return false;
    }
    let primary = sheet_record::primary_of(part);
    let secondary = sheet_record::secondary_of(part);
    let risen = (primary < secondary) & (secondary <= sheet_record::subordinate_of(part));
    !((sheet_record::bus_of(part) == primary) & risen)
}

// The ID, with the least record that has the same.
fn id_spot(sheet: &[u8], k: usize) -> Option<Wrong>
    requires { Framed 1 sheet.now × (k < length (entries_of sheet.now)) }
    ensures { (h : Host) → result ≡ spot_at Ids h (entries_of sheet.now) (record_of sheet.now k) }
{
    let number = audit_met::first_met(Relation::SameId, sheet, k)?;
    Some(Wrong {
        place: 10,
        other: Party { number, place: 10 },
    })
}

// ---- 25

// The first slot with a wrong read-back or a wrong value, and of a bridge then the first of its last four read-backs that is not 0.
fn read_back_spot(part: &[u8]) -> Option<Wrong>
    requires { length part.now ≡ record_size }
    ensures { result ≡ spot_in (read_back_marks (entry_of part.now)) }
{
    let set = sheet_record::readbacks_of(part);
    let values = sheet_record::values_of(part);
    let slots = sheet_record::slot_count(part);
    for (i, x) in bar::slots(set, slots) {
        if !is_value(x, set[i], bar::value_here(x, values, slots, i)) {
            return Some(Wrong::at(i as u8));
        }
    }
    rest_spot(part)
}

// Of a function that is no bridge none is left.
fn rest_spot(part: &[u8]) -> Option<Wrong>
    requires { length part.now ≡ record_size }
    ensures { result ≡ spot_in (rest_of part.now) }
{
    if !sheet_record::is_bridge(part) {
        return None;
    }
    if endian::read_be32(part, places::READBACK2) != 0 {
        return Some(Wrong::at(2));
    }
    if endian::read_be32(part, places::READBACK3) != 0 {
        return Some(Wrong::at(3));
    }
    if endian::read_be32(part, places::READBACK4) != 0 {
        return Some(Wrong::at(4));
    }
    finding::wrong_if(endian::read_be32(part, places::READBACK5) != 0, 5)
}

// The value has the read-back's type bits, its base is a multiple of the size, and an I/O BAR is at most FFFFh.
fn is_bar_value(pool: Pool, size: u64, r: u32, v: u64) -> bool
    requires { 0 < size }
    ensures { result ≡ is_bar_value pool size r v }
{
    let back = r as u64;
    match pool {
        Pool::Low => (v % 16 == back % 16) & (v / 16 * 16 % size == 0),
        Pool::High => (v % 16 == back % 16) & (v / 16 * 16 % size == 0),
        Pool::Io => (v % 4 == back % 4) & (v / 4 * 4 % size == 0) & (v <= 65535),
    }
}

fn is_value(x: Slot, r: u32, v: u64) -> bool
    requires { SizedSlot x }
    ensures { result ≡ is_value x r v }
{
    match x {
        Slot::Unused => v == 0,
        Slot::Bar(pool, _, size) => is_bar_value(pool, size, r, v),
        Slot::Upper => true,
        Slot::Bad => false,
    }
}

// ---- 29

// The first of a bridge's low, high and I/O windows.
fn nibble_spot(part: &[u8]) -> Option<Wrong>
    requires { length part.now ≡ record_size }
    ensures { result ≡ nibble_spot (entry_of part.now) }
{
    if !sheet_record::is_bridge(part) {
        return None;
    }
    let low = sheet_record::window_of(part, Pool::Low);
    if !low.is_nibbled(Pool::Low) {
        return Some(Wrong::at(6));
    }
    let high = sheet_record::window_of(part, Pool::High);
    if !high.is_nibbled(Pool::High) {
        return Some(Wrong::at(7));
    }
    let io = sheet_record::window_of(part, Pool::Io);
    finding::wrong_if(!io.is_nibbled(Pool::Io), 8)
}
