// The search by address: over a sheet's records, and over the BAR slots and windows of those that are on the bus and enabled.
ghost use Rattle.std.specs.Prelude.{◌≡◌, ◌≤◌, ◌<◌, length, take, drop};
ghost use Rattle.bar.specs.Bar.{slot_here};
ghost use Rattle.walk.specs.Tally.{join};
ghost use Rattle.sheet_record.specs.Places.{record_size};
ghost use Rattle.sheet.specs.Sheet.{entries_of};
ghost use Rattle.sheet.proofs.SheetLaws.{Checked};
ghost use Rattle.claims.specs.declared.Aim.TheVariants.{Address};
ghost use Rattle.claims.specs.Claims.{tally_of, tally_for};
ghost use Rattle.claims.specs.Search.{is_live, window_claim, window_claims};
ghost use Rattle.claims.specs.TurnLaws.{NextLive};

use super::{Claim, Tally};
use bar::Slot;
use pools::{Pool, Space};

// Every enabled BAR and open window of the bus that holds the address is one claim, and the second ends the search.
pub fn claims_on(sheet: &[u8], space: Space, bus: u8, address: u64) -> Tally
    requires { Checked sheet.now }
    ensures { tally_of result ≡ tally_for (Address space address) sheet.now bus }
{
    let records = sheet::count(sheet);
    let mut tally = Tally::Nothing;
    let mut k = next_live(sheet, space, bus, 0);
    'records: while k < records {
        let part = sheet::part(sheet, k);
        k += 1;
        let number = k as u16;
        let set = sheet_record::readbacks_of(part);
        let values = sheet_record::values_of(part);
        let slots = sheet_record::slot_count(part);
        let mut i: usize = 0;
        while i < slots {
            let slot = slot_from(set, slots, i);
            let value = bar::value_here(slot, values, slots, i);
            i += bar::span(slot);
            if sheet_record::spaces::bar_holds(space, slot, value, address) {
                tally = tally.with_claim(Claim::Bar(number));
                if tally.is_several() {
                    break 'records;
                }
            }
        }
        tally = with_windows(tally, part, space, number, address);
        if tally.is_several() {
            break 'records;
        }
        k = next_live(sheet, space, bus, k);
    }
    tally
}

// ---- which record

// The next record from this one on that is on the bus and enabled; where none is, as many as there are. Most records are passed over, so
// this is a loop of its own: joined with what is done to those that are not, it takes half as long again. Its answer stays a number: both
// calls stand where they do for speed, and would with an Option, so that the loop over them would be no plainer.
fn next_live(sheet: &[u8], space: Space, bus: u8, from: usize) -> usize
    requires { Checked sheet.now × (from ≤ length (entries_of sheet.now)) }
    ensures { NextLive space sheet.now bus from result }
{
    let records = sheet::count(sheet);
    for k in from..records {
        if is_live(sheet::part(sheet, k), space, bus) {
            return k;
        }
    }
    records
}

// ---- one record

// `bar::slot_at` of a set that is known to go on there, for this loop alone: a slot that another function hands over is waited for.
fn slot_from(set: [u32; 6], n: usize, i: usize) -> Slot
    requires { (i < n) × (n ≤ 6) }
    ensures { result ≡ slot_here (drop i (take n set)) }
{
    let r = set[i];
    if r == 0 {
        return Slot::Unused;
    }
    if bar::is_paired(r, i, n) {
        return bar::wide_slot(r, set[i + 1]);
    }
    bar::narrow_slot(r)
}

// A function of this bus whose space is enabled. The others are passed over.
fn is_live(part: &[u8], space: Space, bus: u8) -> bool
    requires { length part.now ≡ record_size }
    ensures { result ≡ is_live space bus part.now }
{
    sheet_record::bus_of(part) == bus && sheet_record::is_enabled(part, space)
}

// The tally with the claim that a bridge's window of this pool makes, if it does.
fn with_window(tally: Tally, part: &[u8], q: Pool, number: u16, address: u64) -> Tally
    requires { length part.now ≡ record_size }
    ensures { tally_of result ≡ join (tally_of tally) (window_claim q address number part.now) }
{
    if sheet_record::window_of(part, q).holds(q, address) {
        return tally.with_claim(Claim::Window(number, sheet_record::secondary_of(part)));
    }
    tally
}

// The same of each window that the function has in the space.
fn with_windows(tally: Tally, part: &[u8], space: Space, number: u16, address: u64) -> Tally
    requires { length part.now ≡ record_size }
    ensures { tally_of result ≡ join (tally_of tally) (window_claims space address number part.now) }
{
    if !sheet_record::is_bridge(part) {
        return tally;
    }
    match space {
        Space::Memory => {
            let low = with_window(tally, part, Pool::Low, number, address);
            with_window(low, part, Pool::High, number, address)
        }
        Space::Io => with_window(tally, part, Pool::Io, number, address),
    }
}
