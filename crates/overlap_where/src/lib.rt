// 52: which of a record's BARs and open windows meets another one on its bus, and the least that it meets. Each record is decoded anew for
// each one that is compared with it: this is asked only of a sheet that is refused.
#![tactic(auto)]

ghost use Rattle.std.specs.Prelude.{◌≡◌, false, ℕ, ◌*◌, ◌<◌, ◌≤◌, length, get_or};
ghost use Rattle.board_record.specs.declared.Host.{Host};
ghost use Rattle.sheet_record.specs.Places.{record_size};
ghost use Rattle.sheet_record.specs.Entry.{entry_of};
ghost use Rattle.sheet.specs.declared.Rule.TheVariants.{ReadBacks};
ghost use Rattle.sheet.specs.Sheet.{entries_of, part_at, breaks};
ghost use Rattle.sheet.proofs.SheetLaws.{Checked};
ghost use Rattle.sheet_ranges.specs.Ranges.{ranges_of, overlap};
ghost use Rattle.sheet_ranges.specs.Items.{range_of, ranges_in};
ghost use Rattle.audit_finding.specs.declared.Check.TheVariants.{Overlaps};
ghost use Rattle.audit_finding.specs.Placed.{placed_at};
ghost use Rattle.audit_finding.specs.Spots.{spot_at, record_of};
ghost use Rattle.audit_finding.specs.Zipped.{places_of};
ghost use Rattle.overlap_where.specs.Meeting.{meets_here, met_in, met_at, IsLeastMeeting};

use finding::{Party, Wrong};
use sheet_ranges::Item;

// What 52 says of record k, from 0, of a checked sheet, whatever the host is.
pub fn overlap_spot(sheet: &[u8], k: usize) -> Option<Wrong>
    requires { Checked sheet.now × (k < length (entries_of sheet.now)) }
    ensures { (h : Host) → result ≡ spot_at Overlaps h (entries_of sheet.now) (record_of sheet.now k) }
{
    let mut own = [0u64; sheet_ranges::ROOM];
    let n = sheet_ranges::ranges_of(sheet::part(sheet, k), &mut own);
    first_overlap(sheet, k, &own, n)
}

// The n ranges are those of record k: the first that meets another one.
fn first_overlap(sheet: &[u8], k: usize, own: &[u64], n: usize) -> Option<Wrong>
    requires { Checked sheet.now × (k < length (entries_of sheet.now)) × (3 * n ≤ length own.now)
        × (ranges_in n own.now ≡ ranges_of (entry_of (part_at sheet.now k))) }
    ensures { (h : Host) → result ≡ spot_at Overlaps h (entries_of sheet.now) (record_of sheet.now k) }
{
    for i in 0..n {
        let place = range_place::place_of(sheet::part(sheet, k), i);
        if let Some(other) = least_meeting(sheet, k, place, sheet_ranges::item_at(own, i)) {
            return Some(Wrong { place, other });
        }
    }
    None
}

// The least record and place that the range at this place of record k meets.
fn least_meeting(sheet: &[u8], k: usize, place: u8, x: Item) -> Option<Party>
    requires { Checked sheet.now × (k < length (entries_of sheet.now)) }
    ensures { IsLeastMeeting (entries_of sheet.now) (placed_at (record_of sheet.now k) place (range_of x)) result }
{
    for j in 0..sheet::count(sheet) {
        if let Some(met) = met_at(sheet, k, place, x, j) {
            return Some(Party {
                number: j + 1,
                place: met.place,
            });
        }
    }
    None
}

// Where in record j it meets one: nowhere on another bus.
fn met_at(sheet: &[u8], k: usize, place: u8, x: Item, j: usize) -> Option<Wrong>
    requires { Checked sheet.now × (k < length (entries_of sheet.now)) × (j < length (entries_of sheet.now)) }
    ensures { result ≡ met_at (placed_at (record_of sheet.now k) place (range_of x)) (record_of sheet.now j) }
{
    let part = sheet::part(sheet, j);
    if sheet_record::bus_of(sheet::part(sheet, k)) != sheet_record::bus_of(part) {
        return None;
    }
    let mut room = [0u64; sheet_ranges::ROOM];
    let n = sheet_ranges::ranges_of(part, &mut room);
    first_met(part, &room, n, x, j == k, place)
}

// The place of the first of a record's n ranges that is met. Of the record itself this place is left out.
fn first_met(part: &[u8], room: &[u64], n: usize, x: Item, same: bool, place: u8) -> Option<Wrong>
    requires { (length part.now ≡ record_size) × (breaks ReadBacks (entry_of part.now) ≡ false) × (3 * n ≤ length room.now)
        × (ranges_in n room.now ≡ ranges_of (entry_of part.now)) }
    ensures { (number : ℕ) → result ≡ met_in (range_of x) same place (record { number = number; entry = entry_of part.now }) }
{
    for i in 0..n {
        if meets_here(part, i, x, sheet_ranges::item_at(room, i), same, place) {
            return Some(Wrong::at(range_place::place_of(part, i)));
        }
    }
    None
}

// The place is looked at last: few ranges overlap.
fn meets_here(part: &[u8], i: usize, x: Item, y: Item, same: bool, place: u8) -> bool
    requires { (length part.now ≡ record_size) × (breaks ReadBacks (entry_of part.now) ≡ false) }
    ensures { result ≡ meets_here (range_of x) same place (get_or (places_of (entry_of part.now)) i 0) (range_of y) }
{
    if !audit_disjoint::overlap(x, y) {
        return false;
    }
    !(same & (range_place::place_of(part, i) == place))
}
