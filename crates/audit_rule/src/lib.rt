// Another firmware's sheet, judged over a host record: which sheets are accepted, which have one owner for every address, and the number of
// the first check that fails. Definitions and theorems, in specs/.
#![tactic(auto)]

// What check 51 asks each BAR and open window to lie in: a window or pool of its own kind, where document 01 puts it, or any of its address
// space.
#[derive(Clone, Copy)]
pub enum Nesting {
    OfKind,
    OfSpace,
}
