// Planned boards over registers: every planned board is good, and so has demand 3's delivery. Definitions and theorems only, in specs/.
// There is no code here.
#![tactic(auto)]
