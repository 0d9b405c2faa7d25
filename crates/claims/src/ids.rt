// The search by ID: on the target's bus the function with that ID, else the bridges whose bus range holds the target's bus.
ghost use Rattle.std.specs.Prelude.{◌≡◌, map, ◌/◌, ◌%◌, length};
ghost use Rattle.lists.specs.Lists.{keep};
ghost use Rattle.walk.specs.Tally.{none, join};
ghost use Rattle.walk.specs.Ids.{has_id, leads_toward, bridge_claim, first_of};
ghost use Rattle.sheet_record.specs.Places.{record_size};
ghost use Rattle.sheet_record.specs.Entry.{entry_of};
ghost use Rattle.sheet.proofs.SheetLaws.{Checked};
ghost use Rattle.sheet_record.specs.Spaces.{node_of};
ghost use Rattle.sheet.specs.Spaces.{nodes_of};
ghost use Rattle.claims.specs.declared.Aim.TheVariants.{Id};
ghost use Rattle.claims.specs.Claims.{tally_of, tally_for};

use super::{Claim, Tally};

// On the target's bus the function itself, on any other the bridges toward it.
pub fn claims_on(sheet: &[u8], id: u16, bus: u8) -> Tally
    requires { Checked sheet.now }
    ensures { tally_of result ≡ tally_for (Id id) sheet.now bus }
{
    let target = (id / 256) as u8;
    if bus == target {
        return owner_of(sheet, id);
    }
    bridges_toward(sheet, target, bus)
}

// ---- the two searches

// The function with this ID, wherever it stands on its bus.
fn owner_of(sheet: &[u8], id: u16) -> Tally
    requires { Checked sheet.now }
    ensures { tally_of result ≡ first_of (keep (has_id (id / 256) (id % 256)) (nodes_of sheet.now)) }
{
    for k in 0..sheet::count(sheet) {
        if sheet_record::id_of(sheet::part(sheet, k)) == id {
            return Tally::One(Claim::Bar(k as u16 + 1));
        }
    }
    Tally::Nothing
}

// A bridge on this bus whose range holds the target's.
#[tactic(auto, unfolding(sheet_record::specs::Entry::entry_of))]
fn leads_toward(part: &[u8], target: u8, bus: u8) -> bool
    requires { length part.now ≡ record_size }
    ensures { result ≡ leads_toward target bus (node_of 0 (entry_of part.now)) }
{
    sheet_record::bus_of(part) == bus
        && sheet_record::is_bridge(part)
        && (sheet_record::secondary_of(part) <= target)
            & (target <= sheet_record::subordinate_of(part))
}

// The bridges on this bus that lead toward the target's. The second ends the search.
fn bridges_toward(sheet: &[u8], target: u8, bus: u8) -> Tally
    requires { Checked sheet.now }
    ensures { tally_of result ≡ join none (map bridge_claim (keep (leads_toward target bus) (nodes_of sheet.now))) }
{
    let mut tally = Tally::Nothing;
    for k in 0..sheet::count(sheet) {
        let part = sheet::part(sheet, k);
        if leads_toward(part, target, bus) {
            tally = tally.with_claim(Claim::Window(k as u16 + 1, sheet_record::secondary_of(part)));
            if tally.is_several() {
                break;
            }
        }
    }
    tally
}
