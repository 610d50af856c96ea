// The rules of a program's certificate (document 01's sheet), what the check answers, and demand 3: definitions (specs/) and theorems (proofs/).
// No function.
#![tactic(auto)]
