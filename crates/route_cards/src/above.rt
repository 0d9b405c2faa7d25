// The way up from a bus: who stands above it, and whether the bridge that does lets a request through.
ghost use Rattle.std.specs.Prelude.{◌≡◌, [], ◌∷◌};
ghost use Rattle.walk.specs.Climb.{up_through, up_from};
ghost use Rattle.sheet.proofs.SheetLaws.{Checked};
ghost use Rattle.sheet.specs.Spaces.{registers_of, master_of};
ghost use Rattle.route_cards.specs.Search.{function_at, IsBridgeAt, up_of};

use super::{Up, holds};
use pools::Space;
use sheet_above::Parent;

// The host from the root bus, else through the one bridge that leads here: none is 40, two are 41.
pub fn way_up(sheet: &[u8], space: Space, address: u64, root: u8, bus: u8) -> Up
    requires { Checked sheet.now }
    ensures { up_of result ≡ up_from (master_of sheet.now) (registers_of space sheet.now) address root bus }
{
    match sheet_above::parent_of(sheet, root, bus) {
        Parent::Host => Up::Host,
        Parent::Bridge(k) => through(sheet, space, address, k as u16 + 1),
        Parent::Nothing => Up::Halts(40),
        Parent::Several => Up::Halts(41),
    }
}

// ---- through one bridge

// 40 where a window of the bridge holds the address, then 44 without its bus master.
fn through(sheet: &[u8], space: Space, address: u64, number: u16) -> Up
    requires { Checked sheet.now × IsBridgeAt sheet.now number }
    ensures { up_of result ≡ up_through (master_of sheet.now) address (function_at space sheet.now number ∷ []) }
{
    let part = sheet::part(sheet, number as usize - 1);
    if holds::windows_hold(part, space, address) {
        return Up::Halts(40);
    }
    if !sheet_record::is_master(part) {
        return Up::Halts(44);
    }
    Up::Across(number, sheet_record::bus_of(part))
}
