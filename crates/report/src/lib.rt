// What the commands run and trace print of a machine: the report of a run, and the line of a step (docs/commands.md). All writers take any page and any
// place (printing/specs/Puts.antt).
#![tactic(auto, using(printing::proofs::Printers::prints_then))]

mod cells;
mod fields;
mod report;
mod snapshot;
mod trace;

pub use report::put_report;
pub use snapshot::{Lists, Outcome, Snapshot};
pub use trace::put_trace;
