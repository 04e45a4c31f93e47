// What a user sees: of the program and of the library by the receipts alone, and of the library's gauge by its readings. specs/ states
// it, proofs/ proves it. There is no code here.
#![tactic(auto)]
