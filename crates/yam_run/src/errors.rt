// Why nothing is run.
use crate::inputs::INPUT_BYTES;
use files::Failure;
use opening::Refusal;
use parsing::BadLine;
use std::fmt;

// The line that is printed in place of a report.
#[derive(Clone, Copy)]
pub enum Answer {
    // The image file is refused.
    Refused(Refusal),
    // The inputs' text is too long.
    TooLong,
    // A line of the inputs that is no word, counted from 1.
    Malformed(usize),
}

impl fmt::Display for Answer {
    fn fmt<W: fmt::Write>(&self, f: &mut fmt::Formatter<W>) -> fmt::Result {
        match self {
            Answer::Refused(refusal) => write!(f, "{refusal}"),
            Answer::TooLong => write!(f, "malformed length {INPUT_BYTES}"),
            Answer::Malformed(line) => write!(f, "malformed line {line}"),
        }
    }
}

impl From<BadLine> for Answer {
    fn from(bad: BadLine) -> Answer {
        Answer::Malformed(bad.line)
    }
}

// What is said on standard error, or the line that is printed.
#[derive(Drop)]
pub enum RunError<'a> {
    Failure(Failure<'a>),
    Answered(Answer),
}

impl<'a> From<Failure<'a>> for RunError<'a> {
    fn from(failure: Failure<'a>) -> RunError<'a> {
        RunError::Failure(failure)
    }
}

impl<'a> From<Answer> for RunError<'a> {
    fn from(answer: Answer) -> RunError<'a> {
        RunError::Answered(answer)
    }
}

impl<'a> From<Refusal> for RunError<'a> {
    fn from(refusal: Refusal) -> RunError<'a> {
        RunError::Answered(Answer::Refused(refusal))
    }
}
