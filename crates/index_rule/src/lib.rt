// The index of an accepted sheet: the owners of addresses and IDs, and that a search among them by key answers as the walk does.
// Definitions and theorems only, in specs/. There is no code here.
#![tactic(auto)]
