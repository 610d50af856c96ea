// Instruction text and the listing of an image.
#![tactic(auto)]

mod columns;
mod errors;
mod forms;
mod lines;
pub mod listing;
pub mod pages;
mod pairs;
mod pieces;
mod texts;
mod writers;

pub use errors::{ListError, TextError};
pub use listing::{Listed, list, shown};
pub use pages::Page;
pub use texts::text;
pub use writers::{has_room, put_bytes, put_hex};
