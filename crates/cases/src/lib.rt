// The cases that document 01 marks P, proved by one equation (proofs/Cases.antt). It has no code.
#![tactic(auto)]
