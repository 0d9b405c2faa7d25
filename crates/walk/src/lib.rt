// The walk of a packet from bus to bus, as definitions and laws only: see specs/. No code.
#![tactic(auto)]
