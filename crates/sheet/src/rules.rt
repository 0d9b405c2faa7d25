// The checks of a record by itself: its header type, its buses, its read-backs and its window nibbles.
ghost use Rattle.std.specs.Prelude.{◌≡◌, ◌+◌, length};
ghost use Rattle.endian.specs.Endian.{be};
ghost use Rattle.sheet_record.specs.Places.{readbacks_at, record_size};
ghost use Rattle.sheet_record.specs.Entry.{dwords, entry_of};
ghost use Rattle.sheet.specs.Sheet.{all_zero, type_wrong, buses_wrong, read_backs_wrong, nibbles_wrong, breaks as breaks_of};

use super::Rule;
use pools::Pool;
use sheet_record::{is_bridge, places, window_of};

// The record breaks the rule.
#[tactic(auto, unfolding(crate::specs::Sheet::breaks))]
pub(crate) fn breaks(rule: Rule, part: &[u8]) -> bool
    requires { length part.now ≡ record_size }
    ensures { result ≡ breaks_of rule (entry_of part.now) }
{
    match rule {
        Rule::HeaderType => type_wrong(part),
        Rule::Buses => buses_wrong(part),
        Rule::ReadBacks => read_backs_wrong(part),
        Rule::Nibbles => nibbles_wrong(part),
    }
}

#[tactic(auto, unfolding(sheet_record::specs::Entry::entry_of))]
fn type_wrong(part: &[u8]) -> bool
    requires { length part.now ≡ record_size }
    ensures { result ≡ type_wrong (entry_of part.now) }
{
    1 < part[places::HEADER_TYPE] % 128
}

#[tactic(auto, unfolding(sheet_record::specs::Entry::entry_of))]
fn buses_wrong(part: &[u8]) -> bool
    requires { length part.now ≡ record_size }
    ensures { result ≡ buses_wrong (entry_of part.now) }
{
    if !is_bridge(part) {
        return false;
    }
    let primary = part[places::PRIMARY];
    let secondary = part[places::SECONDARY];
    let subordinate = part[places::SUBORDINATE];
    let own = sheet_record::bus_of(part);
    !((own == primary) & (primary < secondary) & (secondary <= subordinate))
}

fn read_backs_wrong(part: &[u8]) -> bool
    requires { length part.now ≡ record_size }
    ensures { result ≡ read_backs_wrong (entry_of part.now) }
{
    let set = sheet_record::readbacks_of(part);
    let values = sheet_record::values_of(part);
    let lawful = bar::values_lawful(set, values, sheet_record::slot_count(part));
    if is_bridge(part) {
        return !(lawful & rest_zero(part));
    }
    !lawful
}

// The last four read-backs, which a bridge does not have.
#[tactic(auto, unfolding(crate::specs::Sheet::all_zero, sheet_record::specs::Entry::dwords))]
fn rest_zero(part: &[u8]) -> bool
    requires { length part.now ≡ record_size }
    ensures { result ≡ all_zero (dwords (be 4) 4 part.now (readbacks_at + 8)) }
{
    (endian::read_be32(part, places::READBACK2) == 0)
        & (endian::read_be32(part, places::READBACK3) == 0)
        & (endian::read_be32(part, places::READBACK4) == 0)
        & (endian::read_be32(part, places::READBACK5) == 0)
}

#[tactic(auto, unfolding(sheet_record::specs::Entry::entry_of))]
fn nibbles_wrong(part: &[u8]) -> bool
    requires { length part.now ≡ record_size }
    ensures { result ≡ nibbles_wrong (entry_of part.now) }
{
    if !is_bridge(part) {
        return false;
    }
    let low = window_of(part, Pool::Low);
    let high = window_of(part, Pool::High);
    let io = window_of(part, Pool::Io);
    !(low.is_nibbled(Pool::Low) & high.is_nibbled(Pool::High) & io.is_nibbled(Pool::Io))
}
