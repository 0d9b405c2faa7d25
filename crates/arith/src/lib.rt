// What is said of numbers and of tests: cases, both sides of a test, powers of two, alignment. Definitions and laws only, in specs/. There
// is no code here.
#![tactic(auto)]
