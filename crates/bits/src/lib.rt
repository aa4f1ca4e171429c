// What the rooms above say of numbers: a bit of one, and a test of every number below a bound.
// It has definitions (specs/) and laws of them (proofs/), and no code.
#![tactic(auto)]
