// The plan of a board, as a definition, and the planner's answer as a type.
#![tactic(auto)]

// A board that was planned: the sheet's length, or the number of the first check that it fails.
#[derive(Clone, Copy)]
pub enum Planning {
    Planned(usize),
    Refused(u8),
}
