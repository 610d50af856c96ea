// The text of instructions, printed and read by one table, and the source texts that an assembler takes: definitions (specs/) and theorems (proofs/).
// No function.
#![tactic(auto)]
