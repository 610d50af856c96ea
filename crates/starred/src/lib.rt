// Document 01's starred cases: one list with one claim (specs/Cases.antt); readings that are easily taken otherwise: a second (specs/Readings.antt); and, computed,
// document 02's context switches (specs/Contexts.antt) and double-length sums (specs/DoubleSums.antt). All are proved of the definitions (proofs/). No function.
#![tactic(auto)]
