// The blocks of an accepted program are atomic: demand 3, its statement and its proof. No code is needed for it.
#![tactic(auto)]
