// The claims to a packet on one bus of a checked sheet, by address or by ID: none, one or several.
#![tactic(auto)]

mod address;
mod ids;

ghost use Rattle.std.specs.Prelude.{◌≡◌, [], ◌∷◌};
ghost use Rattle.walk.specs.Tally.{join};
ghost use Rattle.claims.specs.Claims.{claim_of, tally_of, is_several, tally_for};
ghost use Rattle.sheet.proofs.SheetLaws.{Checked};

use pools::Space;

// What a packet is looked for by: the start address of a request, or an ID.
#[derive(Clone, Copy)]
pub enum Aim {
    Address(Space, u64),
    Id(u16),
}

// One claim: a BAR of the record with this number, or a window of that record, to this secondary bus.
#[derive(Clone, Copy)]
pub enum Claim {
    Bar(u16),
    Window(u16, u8),
}

#[derive(Clone, Copy)]
pub enum Tally {
    Nothing,
    One(Claim),
    Several,
}

// The tally of a bus, by address or by ID.
pub fn tally_on(sheet: &[u8], aim: Aim, bus: u8) -> Tally
    requires { Checked sheet.now }
    ensures { tally_of result ≡ tally_for aim sheet.now bus }
{
    match aim {
        Aim::Address(space, address) => address::claims_on(sheet, space, bus, address),
        Aim::Id(id) => ids::claims_on(sheet, id, bus),
    }
}

// ---- counting claims

impl Tally {
    // With one claim more. The second makes it several, and no other changes that.
    #[tactic(auto, unfolding(walk::specs::Tally::join))]
    fn with_claim(self, claim: Claim) -> Tally
        ensures { tally_of result ≡ join (tally_of self) (claim_of claim ∷ []) }
    {
        match self {
            Tally::Nothing => Tally::One(claim),
            Tally::One(_) | Tally::Several => Tally::Several,
        }
    }

    fn is_several(self) -> bool
        ensures { result ≡ is_several self }
    {
        matches!(self, Tally::Several)
    }
}
