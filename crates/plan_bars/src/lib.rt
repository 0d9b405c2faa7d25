// A set of read-backs as the placing rule takes it. Definitions and laws only, in specs/. There is no code here.
#![tactic(auto)]
