// Who fails an audit: for each number the first record at which its check fails, the place in it, and the other one that it meets.
// Definitions and theorems only, in specs/. There is no code here.
#![tactic(auto)]

// What is asked of each record, by the numbers that name one: 24, 27, 28, 25, 29, then 50, 51 and 52. `Whole` stands for every other
// number, which is about the host record or about the sheet as a whole.
#[derive(Clone, Copy)]
pub enum Check {
    Whole,
    HeaderType,
    Buses,
    Ids,
    ReadBacks,
    Nibbles,
    Tree,
    Places,
    Overlaps,
}

// What two records can have in common: an ID (28), as bridges of one bus a bus that both lead to (50), or that the second leads to the bus
// of the first (50).
#[derive(Clone, Copy)]
pub enum Relation {
    SameId,
    SharedBuses,
    Leads,
}
