// What the C boundary's call that plans a board answers and leaves: definitions and laws, in specs/. The planner is called in capi: through
// a crate between them a part of it is compiled with data below the stack pointer, which boot code must not have. There is no code here.
#![tactic(auto)]
