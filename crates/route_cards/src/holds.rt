// Whether a record's BARs or windows in a space hold an address, enabled or not.
ghost use Rattle.std.specs.Prelude.{◌≡◌, true, false, length};
ghost use Rattle.bar.specs.Bar.{any_bad};
ghost use Rattle.sheet_record.specs.Places.{record_size};
ghost use Rattle.sheet_record.specs.Entry.{header_of, is_bridge, window_of, entry_of};
ghost use Rattle.sheet_record.specs.Spaces.{slots_of, bars_of, open_range, windows_of};
ghost use Rattle.route_cards.specs.Search.{any_holds};

use pools::{Pool, Space};

// The BARs, slot by slot, of a record whose read-backs are lawful.
pub fn bars_hold(part: &[u8], space: Space, address: u64) -> bool
    requires { (length part.now ≡ record_size) × (any_bad (slots_of (entry_of part.now)) ≡ false) }
    ensures { result ≡ any_holds address (bars_of space (entry_of part.now)) }
{
    let set = sheet_record::readbacks_of(part);
    let values = sheet_record::values_of(part);
    let slots = sheet_record::slot_count(part);
    for (i, slot) in bar::slots(set, slots) {
        let value = bar::value_here(slot, values, slots, i);
        if sheet_record::spaces::bar_holds(space, slot, value, address) {
            return true;
        }
    }
    false
}

// The windows of a bridge.
pub fn windows_hold(part: &[u8], space: Space, address: u64) -> bool
    requires { (length part.now ≡ record_size) × (is_bridge (header_of part.now) ≡ true) }
    ensures { result ≡ any_holds address (windows_of space (entry_of part.now)) }
{
    match space {
        Space::Memory => window_holds(part, Pool::Low, address)
            | window_holds(part, Pool::High, address),
        Space::Io => window_holds(part, Pool::Io, address),
    }
}

// ---- one window

fn window_holds(part: &[u8], q: Pool, address: u64) -> bool
    requires { length part.now ≡ record_size }
    ensures { result ≡ any_holds address (open_range q (window_of q part.now)) }
{
    sheet_record::window_of(part, q).holds(q, address)
}
