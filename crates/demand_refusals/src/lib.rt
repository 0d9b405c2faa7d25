// Demand 1 as theorems over the definitions of the crates below, the C boundary among them, so that it stands apart from demands. No
// code: everything stands in specs/.
#![tactic(auto)]
