// The refusals before a step, 1, 2 and 3: a configuration that is not lawful, lengths that do not fit it, and a record or memories out of their ranges.
#![tactic(auto)]

ghost use Rattle.std.specs.Prelude.{◌≡◌};
ghost use Rattle.guards.specs.Answers.{refused_number};

mod memories;
mod ranges;

pub use memories::joined;
pub use ranges::{Lent, validate};

// What refuses a step before it: document 01's 1, 2 and 3.
#[derive(Clone, Copy, Debug, PartialEq, Eq)]
pub enum Refused {
    Unlawful = 1,
    WrongLength = 2,
    OutOfRange = 3,
}

impl Refused {
    // Document 01's number.
    pub fn number(self) -> u32
        ensures { result ≡ refused_number self }
    {
        self as u32
    }
}
