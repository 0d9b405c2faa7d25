// Who a refusal is about: a record and a place in it and, where two meet, the other one. What is found under each number is said by those
// who find it.
#![tactic(auto)]

ghost use Rattle.std.specs.Prelude.{◌≡◌};
ghost use Rattle.finding.specs.Places.{nobody, wrong_if};

// The number of a record, from 1, and a place in it: 0 to 5 a BAR slot, 6 the low, 7 the high and 8 the I/O window, 9 the bus registers, 10
// the ID. Both are 0 where there is no record.
#[derive(Clone, Copy)]
pub struct Party {
    pub number: usize,
    pub place: u8,
}

// The one that fails and the one that it meets.
#[derive(Clone, Copy)]
pub struct Parties {
    pub party: Party,
    pub other: Party,
}

// The number of the check that fails, 0 where none does, and who fails it.
#[derive(Clone, Copy)]
pub struct Finding {
    pub number: u8,
    pub party: Party,
    pub other: Party,
}

// What a check says of one record that is wrong: the place, and the other one that it meets there. Of a record that is right it says None.
#[derive(Clone, Copy)]
pub struct Wrong {
    pub place: u8,
    pub other: Party,
}

pub const NOBODY: Party = Party {
    number: 0,
    place: 0,
};

pub const NOBODIES: Parties = Parties {
    party: NOBODY,
    other: NOBODY,
};

impl Wrong {
    // At this place, and nobody else has to do with it.
    pub fn at(place: u8) -> Wrong
        ensures { result ≡ record { place = place; other = nobody } }
    {
        Wrong {
            place,
            other: NOBODY,
        }
    }
}

// Wrong at this place, where the test says so.
pub fn wrong_if(wrong: bool, place: u8) -> Option<Wrong>
    ensures { result ≡ wrong_if wrong place }
{
    wrong.then_some(Wrong::at(place))
}
