// 01's sample table (specs/Sample.antt). It has no code.
#![tactic(auto)]
