// The C boundary's calls together: a refused call changes nothing, 0 is returned just where a call is accepted, the round trip, an index
// answers as its sheet does. Definitions and theorems only, in specs/. There is no code here.
#![tactic(auto)]
