// The numbers that a refusal has, as a definition and laws only: see specs/. No code.
#![tactic(auto)]
