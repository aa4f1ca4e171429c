// The starred bench cards of document 01, shown from the definitions by one check over one list (specs/). It has no code.
#![tactic(auto)]
