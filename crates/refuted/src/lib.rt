// Managers that are wrong in one rule, each refuted: proofs/ shows that they don't meet demand 3, or not demand 1. There is no code here.
#![tactic(auto)]
