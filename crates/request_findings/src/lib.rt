// Who a refusal is about, and what a board needs, as theorems over the definitions of the crates below, beside document 02's requests
// (requests). No code: everything stands in specs/.
#![tactic(auto)]
