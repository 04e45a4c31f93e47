// Demand 1, what a call may do to any memory and record: specs/ states it and proofs/ proves it. There is no code here.
#![tactic(auto)]
