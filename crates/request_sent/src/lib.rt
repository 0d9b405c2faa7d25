// Document 03's request, as a record of theorems. Definitions and theorems only, in specs/. There is no code here.
#![tactic(auto)]
