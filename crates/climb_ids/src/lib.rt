// The way of a packet that a function sends by ID, or that only travels up. Definitions and laws only, in specs/. There is no code here.
#![tactic(auto)]
