// What a write script does: the model that it starts from, the walk of each write, and where it ends. Definitions and theorems only, in
// specs/. There is no code here.
#![tactic(auto)]
