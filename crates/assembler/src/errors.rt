// Why a text is refused, and document 02's number for each refusal.
ghost use Rattle.std.specs.Prelude.{◌≡◌};
ghost use Rattle.assembler.specs.Errors.{line_error_number, error_number, error_line};
ghost use Rattle.assembler.specs.declared.errors.LineError.TheVariants.{Refused};

use words::Refusal;

// Why a line has no word: it is in no form, its target's label is unknown, or the instruction is refused.
#[derive(Clone, Copy, Debug, PartialEq, Eq)]
pub enum LineError {
    NotInForm,
    UnknownLabel,
    Refused(Refusal),
}

impl LineError {
    pub fn number(self) -> u32
        ensures { result ≡ line_error_number self }
    {
        match self {
            LineError::NotInForm => 26,
            LineError::UnknownLabel => 25,
            LineError::Refused(refusal) => refusal.number(),
        }
    }
}

impl From<Refusal> for LineError {
    ghost from_gives = { λ refusal error. error ≡ Refused refusal };

    fn from(refusal: Refusal) -> LineError {
        LineError::Refused(refusal)
    }
}

// Why a text is refused: the configuration breaks the rules; more lines start with a label than the table holds, or there are more words than are lent; a line
// repeats a label; a line has no word. Lines are counted from 1.
#[derive(Clone, Copy, Debug, PartialEq, Eq)]
pub enum AssembleError {
    Unlawful,
    TooMany,
    DoubledLabel(usize),
    BadLine(usize, LineError),
}

impl AssembleError {
    pub fn number(self) -> u32
        ensures { result ≡ error_number self }
    {
        match self {
            AssembleError::Unlawful => 1,
            AssembleError::TooMany => 36,
            AssembleError::DoubledLabel(_) => 24,
            AssembleError::BadLine(_, error) => error.number(),
        }
    }

    // The line that the refusal names, if it names one.
    pub fn line(self) -> Option<usize>
        ensures { result ≡ error_line self }
    {
        match self {
            AssembleError::Unlawful | AssembleError::TooMany => None,
            AssembleError::DoubledLabel(line) | AssembleError::BadLine(line, _) => Some(line),
        }
    }
}
