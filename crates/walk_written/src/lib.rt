// The walk over registers that are written one after another: definitions and laws only, in specs/. No code.
#![tactic(auto)]
