// The least other record that a record meets: by its ID (28), by the buses that it leads to, or by the bus that it is on (50).
#![tactic(auto)]

ghost use Rattle.std.specs.Prelude.{◌≡◌, ◌<◌, length};
ghost use Rattle.sheet_record.specs.Places.{record_size};
ghost use Rattle.sheet_record.specs.Entry.{entry_of};
ghost use Rattle.sheet.specs.Sheet.{Framed, entries_of};
ghost use Rattle.sheet_above.specs.Parents.{leads_to};
ghost use Rattle.audit_finding.specs.Placed.{numbered};
ghost use Rattle.audit_finding.specs.Fails.{related, is_met, least_met};
ghost use Rattle.audit_finding.specs.Spots.{record_of};
ghost use Rattle.audit_met.specs.Met.{IsNumber};

use audit_finding::Relation;

// Its number, from 1, where record k, from 0, meets one.
pub fn first_met(relation: Relation, sheet: &[u8], k: usize) -> Option<usize>
    requires { Framed 1 sheet.now × (k < length (entries_of sheet.now)) }
    ensures { IsNumber result (least_met relation (numbered (entries_of sheet.now)) (record_of sheet.now k)) }
{
    for j in 0..sheet::count(sheet) {
        if is_met(relation, sheet, k, j) {
            return Some(j + 1);
        }
    }
    None
}

// Record j is another one than record k, and stands in the relation to it.
fn is_met(relation: Relation, sheet: &[u8], k: usize, j: usize) -> bool
    requires { Framed 1 sheet.now × (k < length (entries_of sheet.now)) × (j < length (entries_of sheet.now)) }
    ensures { result ≡ is_met relation (record_of sheet.now k) (record_of sheet.now j) }
{
    j != k && is_related(relation, sheet::part(sheet, k), sheet::part(sheet, j))
}

fn is_related(relation: Relation, part: &[u8], other: &[u8]) -> bool
    requires { (length part.now ≡ record_size) × (length other.now ≡ record_size) }
    ensures { result ≡ related relation (entry_of part.now) (entry_of other.now) }
{
    match relation {
        Relation::SameId => sheet_record::id_of(other) == sheet_record::id_of(part),
        Relation::SharedBuses => audit_tree::buses_shared(part, other),
        Relation::Leads => leads_to(sheet_record::bus_of(part), other),
    }
}

// A bridge whose secondary bus it is.
fn leads_to(bus: u8, part: &[u8]) -> bool
    requires { length part.now ≡ record_size }
    ensures { result ≡ leads_to bus (entry_of part.now) }
{
    sheet_record::is_bridge(part) & (sheet_record::secondary_of(part) == bus)
}
