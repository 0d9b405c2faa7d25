// The router: a header and a register sheet to the function that gets the packet, to every function, to the port, or to a number. Any bytes
// may be given as either.
#![tactic(auto)]

ghost use Rattle.std.specs.Prelude.{◌≡◌, ◌≤◌, length};
ghost use Rattle.sheet.specs.Sheet.{sheet_number};
ghost use Rattle.sheet.proofs.SheetLaws.{Checked};
ghost use Rattle.route_answer.specs.Routing.{answer};
ghost use Rattle.route_answer.specs.Listed.{on_room};
ghost use Rattle.route.specs.Route.{outcome_of, walked, root, route_packet, route_of};
ghost use Rattle.route.specs.Listed.{list_after};

use claims::{Aim, Claim, Tally};
use packet::Packet;
use route_answer::{Next, Routing};
use tlp::Reading;

// A header over a sheet: the header's number before the sheet is read, then the sheet's. What is left is a packet over a sheet that passes.
#[tactic(auto, unfolding(crate::specs::Route::route_of, crate::specs::Route::from_sheet))]
pub fn route(header: &[u8], sheet: &[u8]) -> Routing
    ensures { result ≡ route_of header.now sheet.now }
{
    let reading = tlp::read(header);
    let Reading::Accepted(p) = reading else {
        return Routing::Refused(reading.number());
    };
    let n = sheet::check(sheet);
    if n != 0 {
        return Routing::Refused(n);
    }
    route_packet(p, sheet)
}

// The same, with a broadcast's list: the number of every record, in order, from the start of the slice. A slice too short is 11 and stays
// as it was.
pub fn route_listed(header: &[u8], sheet: &[u8], list: &mut [u64]) -> Routing
    ensures value { result ≡ on_room (route_of header.now sheet.now) (length list.old) }
    ensures list_after { list.new ≡ list_after result sheet.now list.old }
{
    route_answer::listed(route(header, sheet), list)
}

// A packet over a sheet that is known to pass its checks: 40 for no functions, 42 and 43, then where it is headed. For who checks a sheet
// once and then routes over it many times.
pub fn route_packet(p: Packet, sheet: &[u8]) -> Routing
    requires { sheet_number sheet.now ≡ 0 }
    ensures { result ≡ route_packet p sheet.now }
{
    let root = root_of(sheet);
    match route_answer::onward(p, sheet::count(sheet) as u16, root) {
        Next::Aimed(aim) => route_aimed(p, sheet, aim, root),
        Next::Answered(r) => r,
    }
}

// The bus of the first record, on which a walk starts; 0 where there is none.
pub fn root_of(sheet: &[u8]) -> u8
    requires { Checked sheet.now }
    ensures { result ≡ root sheet.now }
{
    if sheet::count(sheet) == 0 {
        return 0;
    }
    sheet_record::bus_of(sheet::part(sheet, 0))
}

// ---- the walk

// Where a walk ends: at a record after so many bridges, or refused by number.
#[derive(Clone, Copy)]
pub enum Walked {
    Delivered(u16, u8),
    Refused(u8),
}

// A packet that is looked for by an address or an ID, from the root bus on.
fn route_aimed(p: Packet, sheet: &[u8], aim: Aim, root: u8) -> Routing
    requires { Checked sheet.now }
    ensures { result ≡ answer p (walked aim sheet.now root 0) }
{
    match walk(sheet, aim, root, 0) {
        Walked::Delivered(number, crossed) => route_answer::deliver(p, number, crossed),
        Walked::Refused(n) => Routing::Refused(n),
    }
}

// From a bus on, with so many bridges crossed. A bridge's secondary bus has a greater number than its own, so the walk ends.
pub fn walk(sheet: &[u8], aim: Aim, bus: u8, crossed: u8) -> Walked
    requires { Checked sheet.now × (crossed ≤ bus) }
    ensures { outcome_of result ≡ walked aim sheet.now bus crossed }
{
    match claims::tally_on(sheet, aim, bus) {
        Tally::Nothing => Walked::Refused(40),
        Tally::One(claim) => match claim {
            Claim::Bar(number) => Walked::Delivered(number, crossed),
            Claim::Window(_, secondary) => walk(sheet, aim, secondary, crossed + 1),
        },
        Tally::Several => Walked::Refused(41),
    }
}
