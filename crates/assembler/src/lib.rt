// Source text read into words (document 02, K1).
#![tactic(auto)]

mod bytes;
mod columns;
mod errors;
mod forms;
mod gathering;
mod keys;
mod labels;
mod lines;
mod openings;
mod source;
mod tables;
mod writing;
mod zeros;

pub use errors::{AssembleError, LineError};
pub use source::assemble;
