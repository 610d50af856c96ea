// Stepping and running the machine.
#![tactic(auto)]

ghost use Rattle.std.specs.Prelude.{◌≡◌};
ghost use Rattle.guards.specs.Answers.{refused_number};
ghost use Rattle.machine.specs.Numbers.{stop_number, number_of, Numbered};

mod advance;
mod exec;
mod memories;
mod single;
mod stepping;
mod stretching;
mod turning;

use guards::Refused;
use state::{Change, Core};
pub use stepping::{run, run_lent, step, step_lent};

// What the word at PC does by its cell: its change or stop, and, where it is not stopped, its cycles.
#[derive(Clone, Copy)]
struct Decision {
    pub cycles: u64,
    pub change: Change,
}

// What one step gives beside the memories: `stop` is document 01's number, 0 for none, or from 256 on where the step is made apart. It is a number and no enum
// since the loop hands it on: an Option of an enum cost four instructions of 45 a step, a Result a hundred and more.
#[derive(Clone, Copy)]
struct Turn {
    pub stop: u32,
    pub cycles: u64,
    pub core: Core,
}

// What steps give beside the memories.
#[derive(Clone, Copy)]
struct Turns {
    pub stop: u32,
    pub steps: u64,
    pub cycles: u64,
    pub core: Core,
}

// Why a step is not carried out, or a run ends before its budget is spent.
#[derive(Clone, Copy, Debug, PartialEq, Eq)]
pub enum Stop {
    Unlawful = 1,
    WrongLength = 2,
    OutOfRange = 3,
    PastImage = 4,
    NoRow = 5,
    Unavailable = 6,
    PartTooLarge = 7,
    SpecialMode = 8,
    ReadAfterWrite = 9,
    CallsFull = 10,
    CallsEmpty = 11,
    BankOutside = 12,
    AddressOutside = 13,
    NoInput = 14,
    LogFull = 15,
    BudgetTooLarge = 16,
    IndexNotLoaded = 27,
}

impl Stop {
    // Document 01's number.
    pub fn number(self) -> u32
        ensures { result ≡ stop_number self }
    {
        self as u32
    }

    // The stop of a number of document 01, none for 0.
    fn numbered(n: u32) -> Option<Stop>
        ensures { Numbered n → number_of result ≡ n }
    {
        match n {
            1 => Some(Stop::Unlawful),
            2 => Some(Stop::WrongLength),
            3 => Some(Stop::OutOfRange),
            4 => Some(Stop::PastImage),
            5 => Some(Stop::NoRow),
            6 => Some(Stop::Unavailable),
            7 => Some(Stop::PartTooLarge),
            8 => Some(Stop::SpecialMode),
            9 => Some(Stop::ReadAfterWrite),
            10 => Some(Stop::CallsFull),
            11 => Some(Stop::CallsEmpty),
            12 => Some(Stop::BankOutside),
            13 => Some(Stop::AddressOutside),
            14 => Some(Stop::NoInput),
            15 => Some(Stop::LogFull),
            16 => Some(Stop::BudgetTooLarge),
            27 => Some(Stop::IndexNotLoaded),
            _ => None,
        }
    }
}

// What refuses a step before it.
impl From<Refused> for Stop {
    ghost from_gives = { λ r x. stop_number x ≡ refused_number r };

    fn from(r: Refused) -> Stop {
        match r {
            Refused::Unlawful => Stop::Unlawful,
            Refused::WrongLength => Stop::WrongLength,
            Refused::OutOfRange => Stop::OutOfRange,
        }
    }
}

// A step that is carried out: its cycles, and the machine after it, or its core where the return stack is lent.
#[derive(Clone, Copy)]
pub struct Stepped<M> {
    pub cycles: u64,
    pub after: M,
}

// What a run answers: why it ended, none for a spent budget; how many steps were done and their cycles; and the machine after them, or its core.
#[derive(Clone, Copy)]
pub struct Ran<M> {
    pub stop: Option<Stop>,
    pub steps: u64,
    pub cycles: u64,
    pub after: M,
}

impl<M> Ran<M> {
    // Document 01's number of what ended the run, 0 for a spent budget.
    pub fn number(&self) -> u32
        ensures { result ≡ number_of self.now.stop }
    {
        match self.stop {
            Some(stop) => stop.number(),
            None => 0,
        }
    }
}
