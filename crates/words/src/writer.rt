// Writing words under one configuration that is known to be lawful, its options and limits taken once.
ghost use Rattle.std.specs.Prelude.{◌≡◌, ◌↔◌, IfSome, IsNone, true, false};
ghost use Rattle.laws.specs.Test.{test};
ghost use Rattle.words.specs.Answers.{writing_of};
ghost use Rattle.words.specs.Configs.{lawful};
ghost use Rattle.words.specs.Packed.{option_table, limit_table};
ghost use Rattle.words.specs.Words.{write_lawful};

use crate::columns::{BASES, ROWS};
use crate::encode::write_word_lent;
use crate::tables::{limit_table, option_table};
use crate::{Config, Instruction, Refusal};

// A lawful configuration with what writing asks of it: the options that are there, and what each part stays below.
#[derive(Drop)]
pub struct Writer {
    pub config: Config,
    options: [bool; 16],
    limits: [u32; 16],
    pub ghost is_lawful: { test (lawful config) ≡ true },
    pub ghost options_right: { options ≡ option_table config },
    pub ghost limits_right: { limits ≡ limit_table config },
}

impl Writer {
    // The writer of a lawful configuration.
    pub fn of(c: Config) -> Option<Writer>
        ensures some { IfSome result (λ w. w.config ≡ c) }
        ensures none { IsNone result ↔ (test (lawful c) ≡ false) }
    {
        if !c.lawful() {
            return None;
        }
        Some(Writer {
            config: c,
            options: option_table(c),
            limits: limit_table(c),
        })
    }

    // The word of an instruction, or refusal 5, 6 or 7.
    pub fn write(&self, i: Instruction) -> Result<u32, Refusal>
        ensures { writing_of result ≡ write_lawful self.now.config i }
    {
        write_word_lent(&BASES, &ROWS, &self.options, &self.limits, self.config, i)
    }
}
