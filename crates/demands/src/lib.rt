// What was asked for, as theorems over the definitions of the crates below: the worked examples P1 to
// P10 of document 01 and the demands. Document 02's requests stand in requests. No code: everything stands in specs/.
#![tactic(auto)]
