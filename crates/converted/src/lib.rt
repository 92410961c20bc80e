// What a converted table lists and walks (proofs/Same.antt), and that V8's names have V8's flows (proofs/V8Names.antt). It has no code.
#![tactic(auto)]
