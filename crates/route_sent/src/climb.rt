// The climb of a packet that goes by ID, or only up, from a bus on: on each bus the claims, and with none the way up.
ghost use Rattle.std.specs.Prelude.{◌≡◌, [], ◌∷◌, ◌+◌, ◌≤◌, length, true};
ghost use Rattle.walk.specs.Walk.{walk_from};
ghost use Rattle.walk.specs.Climb.{sent_of as outcome_sent};
ghost use Rattle.climb_ids.specs.ById.{up_past};
ghost use Rattle.sheet_record.specs.Places.{record_size};
ghost use Rattle.sheet_record.specs.Entry.{entry_of, header_of, is_bridge};
ghost use Rattle.sheet_record.specs.Spaces.{node_of};
ghost use Rattle.sheet.proofs.SheetLaws.{Checked};
ghost use Rattle.sheet_above.specs.Table.{BridgeAt};
ghost use Rattle.claims.specs.Claims.{tally_of};
ghost use Rattle.route_sent.specs.Going.{tally_going, stays_going, up_going, climbed, node_in, up_of, sent_of};

use claims::{Aim, Claim, Tally};
use route_cards::{Climbed, Up};
use sheet_above::Parent;

// How a packet goes: looked for by an ID, or only up.
#[derive(Clone, Copy)]
pub enum Going {
    ById(u16),
    OnlyUp,
}

// From a bus on, with so many bridges crossed. A bridge's own bus has a smaller number than its secondary, so the climb ends. Card to card
// climbs by the same steps, but has other claims and other bridges let it past: one climb over both would take each step as a closure, and
// its law with it, and be no plainer.
pub fn climb(sheet: &[u8], going: Going, root: u8, bus: u8, crossed: u16) -> Climbed
    requires { Checked sheet.now × (crossed + bus ≤ 255) }
    ensures { sent_of result ≡ climbed going sheet.now root bus crossed }
{
    match tally_on(sheet, going, bus) {
        Tally::Nothing => match way_up(sheet, going, root, bus) {
            Up::Host => Climbed::Leaves(crossed),
            Up::Across(_, own) => climb(sheet, going, root, own, crossed + 1),
            Up::Halts(n) => Climbed::Stops(n),
        },
        Tally::One(claim) => match claim {
            Claim::Bar(number) => Climbed::Arrives(number, crossed),
            Claim::Window(_, secondary) => descend(sheet, going, secondary, crossed + 1),
        },
        Tally::Several => Climbed::Stops(41),
    }
}

// ---- one bus

// Nothing claims what only travels up.
fn tally_on(sheet: &[u8], going: Going, bus: u8) -> Tally
    requires { Checked sheet.now }
    ensures { tally_of result ≡ tally_going going sheet.now bus }
{
    match going {
        Going::ById(id) => claims::tally_on(sheet, Aim::Id(id), bus),
        Going::OnlyUp => Tally::Nothing,
    }
}

// Down from a bridge's claim: document 01's walk from the secondary bus, and the bridges crossed before it added.
fn descend(sheet: &[u8], going: Going, bus: u8, crossed: u16) -> Climbed
    requires { Checked sheet.now × (crossed ≤ 256) }
    ensures { sent_of result ≡ outcome_sent (walk_from (tally_going going sheet.now) bus crossed) }
{
    match going {
        Going::ById(id) => route_cards::descend(sheet, Aim::Id(id), bus, crossed),
        Going::OnlyUp => Climbed::Stops(40),
    }
}

// ---- the way up

// The host from the root bus, else through the one bridge that leads here: none is 40, two are 41.
fn way_up(sheet: &[u8], going: Going, root: u8, bus: u8) -> Up
    requires { Checked sheet.now }
    ensures { up_of result ≡ up_going going sheet.now root bus }
{
    match sheet_above::parent_of(sheet, root, bus) {
        Parent::Host => Up::Host,
        Parent::Bridge(k) => through(sheet, going, k),
        Parent::Nothing => Up::Halts(40),
        Parent::Several => Up::Halts(41),
    }
}

// 40 where the bridge of record k, from 0, does not let it past.
fn through(sheet: &[u8], going: Going, k: usize) -> Up
    requires { Checked sheet.now × BridgeAt sheet.now k }
    ensures { up_of result ≡ up_past (stays_going going) (node_in sheet.now k ∷ []) }
{
    let part = sheet::part(sheet, k);
    if stays(part, going) {
        return Up::Halts(40);
    }
    Up::Across(k as u16 + 1, sheet_record::bus_of(part))
}

// By ID: the bridge's buses, secondary to subordinate, hold the ID's bus.
fn stays(part: &[u8], going: Going) -> bool
    requires { (length part.now ≡ record_size) × (is_bridge (header_of part.now) ≡ true) }
    ensures { result ≡ stays_going going (node_of 0 (entry_of part.now)) }
{
    match going {
        Going::ById(id) => {
            let target = (id / 256) as u8;
            (sheet_record::secondary_of(part) <= target)
                & (target <= sheet_record::subordinate_of(part))
        }
        Going::OnlyUp => false,
    }
}
