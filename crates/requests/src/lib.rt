// What document 02 asked for, as theorems over the definitions of the crates below, beside the user's demands (demands). No code:
// everything stands in specs/.
#![tactic(auto)]
