// Why two texts give no file.
ghost use Rattle.std.specs.Prelude.{◌≡◌};
ghost use Rattle.yam_pack.specs.declared.errors.PackError.TheVariants.{BadEntry, BadLine, Refused};

use image::Refusal;
use parsing::{BadEntry, BadLine};

#[derive(Clone, Copy, Debug)]
pub enum PackError {
    // A text has more than so many bytes.
    TooLong(usize),
    // The number of the first malformed entry.
    BadEntry(usize),
    // The number of the first line that is no word.
    BadLine(usize),
    // What is wrong with the configuration or with the number of words.
    Refused(Refusal),
}

impl From<BadEntry> for PackError {
    ghost from_gives = { λ x e. e ≡ BadEntry x.entry };

    fn from(bad: BadEntry) -> PackError {
        PackError::BadEntry(bad.entry)
    }
}

impl From<BadLine> for PackError {
    ghost from_gives = { λ x e. e ≡ BadLine x.line };

    fn from(bad: BadLine) -> PackError {
        PackError::BadLine(bad.line)
    }
}

impl From<Refusal> for PackError {
    ghost from_gives = { λ x e. e ≡ Refused x };

    fn from(refusal: Refusal) -> PackError {
        PackError::Refused(refusal)
    }
}
