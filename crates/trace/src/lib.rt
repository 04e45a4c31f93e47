// The trace theorem, demand 3: specs/ states it and proofs/ proves it. There is no code here.
#![tactic(auto)]
