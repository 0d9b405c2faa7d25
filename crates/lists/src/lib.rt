// What is said of lists: every, some and each two elements, and those that pass a test. Definitions and laws only, in specs/. There is no
// code here.
#![tactic(auto)]
