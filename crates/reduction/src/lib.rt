// No code: the crate is a theorem, of specs/Reduction.antt, proved in proofs/Reduction.antt.
#![tactic(auto)]
