// The image file of document 01: loading one, and writing one.
#![tactic(auto)]

ghost use Rattle.std.specs.Prelude.{◌≡◌};
ghost use Rattle.image.specs.Answers.{refusal_number};

mod blocks;
pub mod loading;
pub mod storing;

pub use loading::load;
pub use storing::store;

// Why a file is not loaded, or not written: document 01's 1, 2 and 19 to 22.
#[derive(Clone, Copy, Debug, PartialEq, Eq)]
pub enum Refusal {
    Unlawful,
    WrongLength,
    FileLength,
    BlockNumber,
    Checksum,
    Filling,
}

impl Refusal {
    // Document 01's number.
    pub fn number(self) -> u32
        ensures { result ≡ refusal_number self }
    {
        match self {
            Refusal::Unlawful => 1,
            Refusal::WrongLength => 2,
            Refusal::FileLength => 19,
            Refusal::BlockNumber => 20,
            Refusal::Checksum => 21,
            Refusal::Filling => 22,
        }
    }
}
