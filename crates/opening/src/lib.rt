// Opening an image file as the programs do, which hold 8,192 words: past 34,304 bytes, the file of so many, a file is refused by 2.
#![tactic(auto)]

ghost use Rattle.std.specs.Prelude.{◌≡◌, take};
ghost use Rattle.opening.specs.declared.Refusal.TheVariants.{Load};
ghost use Rattle.opening.specs.Opening.{open_of, refusal_number, Answers, Counted};

use std::fmt;
use words::Config;

// The words that a program has room for, and the bytes of the file of so many: 67 blocks of 512.
pub const WORDS: usize = 8192;

pub const FILE_BYTES: usize = 34304;

// Why a file is not opened.
#[derive(Clone, Copy, Debug, PartialEq, Eq)]
pub enum Refusal {
    // It is longer than the file of `WORDS` words. Its configuration, where it loads all the same.
    TooLong(Option<Config>),
    // What is wrong in it.
    Load(image::Refusal),
}

impl Refusal {
    // The documents' number.
    pub fn number(self) -> u32
        ensures { result ≡ refusal_number self }
    {
        match self {
            Refusal::TooLong(_) => 2,
            Refusal::Load(why) => why.number(),
        }
    }
}

impl fmt::Display for Refusal {
    fn fmt<W: fmt::Write>(&self, f: &mut fmt::Formatter<W>) -> fmt::Result {
        let number = self.number();
        write!(f, "refused {number}")
    }
}

impl From<image::Refusal> for Refusal {
    ghost from_gives = { λ why e. e ≡ Load why };

    fn from(why: image::Refusal) -> Refusal {
        Refusal::Load(why)
    }
}

// Loads the file into the image.
pub fn open(file: &[u8], image: &mut [u32]) -> Result<Config, Refusal>
    ensures { Answers (open_of file.now image.old) result image.new }
{
    let loaded = image::load(file, image);
    if FILE_BYTES < file.len() {
        return Err(Refusal::TooLong(loaded.ok()));
    }
    Ok(loaded?)
}

// So many of the words as `n` says, all where it says more.
pub fn count(n: usize, words: &[u32]) -> usize
    ensures { Counted n words.now result }
{
    n.min(words.len())
}

// The first n words, all where there are fewer.
pub fn first(n: usize, words: &[u32]) -> &[u32]
    ensures { result.now ≡ take n words.now }
{
    &words[..n.min(words.len())]
}
