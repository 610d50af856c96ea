// The check of a certificate (document 01's sheet): the first address that breaks a rule, and its lowest rule.
#![tactic(auto)]

ghost use Rattle.std.specs.Prelude.{◌≡◌};
ghost use Rattle.certificate.specs.Answers.{rule_number, fault_number};

mod judging;
mod marks;
pub mod searching;
mod settling;
mod sheet;
mod successors;

pub use searching::check;

// The eight rules, in document 01's order.
#[derive(Clone, Copy, Debug, PartialEq, Eq)]
pub enum Rule {
    // Address 0 is used, main, in normal mode.
    Start = 1,
    // A level is at most the return stack's limit.
    Limit = 2,
    // A word can be read, and is none that jumps where a register says.
    Word = 3,
    // Each successor is inside the image, and used.
    Successor = 4,
    // A call's target is a subroutine, a return stands in one, and all else stays where it is.
    Subroutine = 5,
    // A successor's level is no higher; a call's target's is lower.
    Level = 6,
    // Successors are in the mode that a word leaves, and special-register mode holds only what it allows.
    Mode = 7,
    // A port write has no port read after it.
    Port = 8,
}

impl Rule {
    // Document 01's number of the rule.
    pub fn number(self) -> u32
        ensures { result ≡ rule_number self }
    {
        self as u32
    }
}

// Why a check does not pass: document 01's 1; its 2; its 17, with the first address that breaks a rule and its lowest rule.
#[derive(Clone, Copy, Debug, PartialEq, Eq)]
pub enum Fault {
    Unlawful,
    WrongLength,
    Broken { address: u32, rule: Rule },
}

impl Fault {
    // Document 01's number.
    pub fn number(self) -> u32
        ensures { result ≡ fault_number self }
    {
        match self {
            Fault::Unlawful => 1,
            Fault::WrongLength => 2,
            Fault::Broken { .. } => 17,
        }
    }
}
