// At which place of its record a BAR or open window stands, by its index among those that are decoded: slots before windows.
#![tactic(auto)]

ghost use Rattle.std.specs.Prelude.{◌≡◌, false, cond, [], ◌≤◌, length, get_or};
ghost use Rattle.window.specs.Window.{is_open};
ghost use Rattle.sheet_record.specs.Places.{record_size};
ghost use Rattle.sheet_record.specs.Entry.{entry_of, bridges, window_of};
ghost use Rattle.sheet.specs.declared.Rule.TheVariants.{ReadBacks};
ghost use Rattle.sheet.specs.Sheet.{breaks};
ghost use Rattle.audit_finding.specs.Zipped.{bar_place, window_places, places_of};

use bar::Slot;
use pools::Pool;

// The place of the BAR or open window at index n.
pub fn place_of(part: &[u8], n: usize) -> u8
    requires { (length part.now ≡ record_size) × (breaks ReadBacks (entry_of part.now) ≡ false) }
    ensures { result ≡ get_or (places_of (entry_of part.now)) n 0 }
{
    let set = sheet_record::readbacks_of(part);
    let slots = sheet_record::slot_count(part);
    let mut left = n;
    for (i, x) in bar::slots(set, slots) {
        let here = bars_in(x);
        if left < here {
            return i as u8;
        }
        left -= here;
    }
    window_place(part, left)
}

// A slot is one BAR or none.
fn bars_in(x: Slot) -> usize
    ensures { (result ≡ length (bar_place x 0)) × (result ≤ 1) }
{
    usize::from(matches!(x, Slot::Bar(..)))
}

// The place of the open window at index n: low, high, I/O.
fn window_place(part: &[u8], n: usize) -> u8
    requires { length part.now ≡ record_size }
    ensures { result ≡ get_or (cond (bridges (entry_of part.now)) (window_places (entry_of part.now)) []) n 0 }
{
    if !sheet_record::is_bridge(part) {
        return 0;
    }
    let low = open_in(part, Pool::Low);
    if n < low {
        return 6;
    }
    let memory = low + open_in(part, Pool::High);
    if n < memory {
        return 7;
    }
    if n < memory + open_in(part, Pool::Io) {
        return 8;
    }
    0
}

// A bridge's window is one where it is open.
fn open_in(part: &[u8], q: Pool) -> usize
    requires { length part.now ≡ record_size }
    ensures { (result ≡ cond (is_open q (window_of q part.now)) 1 0) × (result ≤ 1) }
{
    let w = sheet_record::window_of(part, q);
    usize::from(w.start(q) <= w.last(q))
}
