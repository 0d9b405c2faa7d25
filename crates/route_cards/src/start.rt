// Where a request starts: which packets are requests, and which records they may start at.
ghost use Rattle.std.specs.Prelude.{◌≡◌};
ghost use Rattle.sheet.proofs.SheetLaws.{Checked};
ghost use Rattle.route_cards.specs.Sending.{request_of};
ghost use Rattle.route_cards.specs.Search.{Type0Told};

use packet::Packet;
use pools::Space;

// A memory or I/O request, in its space from its start address on.
pub fn request_of(p: Packet) -> Option<(Space, u64)>
    ensures { result ≡ request_of p }
{
    match p {
        Packet::Memory(_, _, _, a) => Some((Space::Memory, a)),
        Packet::Io(_, _, _, a) => Some((Space::Io, a)),
        _ => None,
    }
}

// A record of the sheet, numbered from 1, that is no bridge.
pub fn is_type_0(sheet: &[u8], number: u16) -> bool
    requires { Checked sheet.now }
    ensures { Type0Told sheet.now number result }
{
    let record = number as usize;
    if record == 0 {
        return false;
    }
    if sheet::count(sheet) < record {
        return false;
    }
    !sheet_record::is_bridge(sheet::part(sheet, record - 1))
}
