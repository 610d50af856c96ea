// Reading texts: words of hex digits one a line, decimal numbers, named generics. No call asks anything of its text; specs/ says what a text gives.
#![tactic(auto)]

ghost use Rattle.std.specs.Prelude.{◌≡◌};
ghost use Rattle.parsing.specs.Generics.{config_of, defaults};

mod decimals;
mod entries;
mod hex;
mod naming;
mod numbers;

pub use decimals::decimal_of;
pub use hex::hex_words;
pub use naming::generics_of;
use words::Config;

// The number of a text's first line that is no word, counted from 1.
#[derive(Clone, Copy, Debug)]
pub struct BadLine {
    pub line: usize,
}

// The number of a text's first malformed entry, counted from 1.
#[derive(Clone, Copy, Debug)]
pub struct BadEntry {
    pub entry: usize,
}

impl BadEntry {
    // The configuration beside a malformed entry: the manual's defaults, whatever the text names.
    pub fn config(self) -> Config
        ensures { result ≡ config_of defaults }
    {
        naming::default_config()
    }
}
