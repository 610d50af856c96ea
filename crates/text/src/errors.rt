// Why no text or no whole listing was written: document 01's numbers.
ghost use Rattle.std.specs.Prelude.{◌≡◌};
ghost use Rattle.text.specs.Answers.{text_error_number, list_error_number};
ghost use Rattle.text.specs.declared.errors.TextError.TheVariants.{Unread};

use words::Refusal;

#[derive(Clone, Copy, Debug, PartialEq, Eq)]
pub enum TextError {
    // The word can't be read.
    Unread(Refusal),
    // The page has no room for the text.
    NoRoom,
    // The text is longer than 20 bytes.
    TooLong,
}

impl TextError {
    pub fn number(self) -> u32
        ensures { result ≡ text_error_number self }
    {
        match self {
            TextError::Unread(why) => why.number(),
            TextError::NoRoom => 18,
            TextError::TooLong => 23,
        }
    }
}

impl From<Refusal> for TextError {
    ghost from_gives = { λ why e. e ≡ Unread why };

    fn from(why: Refusal) -> TextError {
        TextError::Unread(why)
    }
}

#[derive(Clone, Copy, Debug, PartialEq, Eq)]
pub enum ListError {
    // The configuration isn't lawful.
    Unlawful,
    // The image isn't as long as the configuration says.
    WrongSize,
    // The page has no room for the next line, or the place is beyond it.
    NoRoom,
}

impl ListError {
    pub fn number(self) -> u32
        ensures { result ≡ list_error_number self }
    {
        match self {
            ListError::Unlawful => 1,
            ListError::WrongSize => 2,
            ListError::NoRoom => 18,
        }
    }
}
