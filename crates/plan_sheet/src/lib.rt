// The planned sheet as bytes: it passes the sheet's checks, its registers are the plan's, and so it has demand 3's delivery. Definitions
// and theorems only, in specs/. There is no code here.
#![tactic(auto)]
