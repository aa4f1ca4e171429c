// What a user links: each public call once more, thin, with C's calling convention. The definitions are those of the rooms below. C has no Result,
// Option or enum of ours, and takes what a call is handed one by one: so numbers, flags and arrays with a count stand here.
#![tactic(auto)]

pub mod allowances;
pub mod digests;
pub mod matches;
pub mod nestings;
pub mod walks;
