// Reading words under one configuration that is known to be lawful, its limits taken once.
ghost use Rattle.std.specs.Prelude.{◌≡◌, ◌↔◌, IfSome, IsNone, true, false};
ghost use Rattle.laws.specs.Test.{test};
ghost use Rattle.words.specs.Answers.{reading_of};
ghost use Rattle.words.specs.Claims.{ClassesExact};
ghost use Rattle.words.specs.Configs.{lawful};
ghost use Rattle.words.specs.Facts.{facts_of};
ghost use Rattle.words.specs.Lookup.{Limits, entry_table, uppers, lowers, below_lent};
ghost use Rattle.words.specs.Packed.{class_table, base_table, row_table, option_table, limit_table, number_lent, parts_lent};
ghost use Rattle.words.specs.Words.{read_lawful};

use crate::classes::CLASSES;
use crate::columns::{BASES, ENTRIES, ROWS};
use crate::decode::{below_limits, parts_lent, row_lent};
use crate::entries::{lower_limits, upper_limits};
use crate::meaning::{facts_in, packed_lent};
use crate::tables::{limit_table, option_table};
use crate::verdict::allow;
use crate::{Config, Facts, Instruction, Refusal};

// A lawful configuration with what reading asks of it: what words stay below by each check, the options that are there, and what each part stays below.
#[derive(Drop)]
pub struct Reader {
    pub config: Config,
    uppers: [u64; 64],
    lowers: [u64; 64],
    options: [bool; 16],
    bounds: [u32; 16],
    pub ghost is_lawful: { test (lawful config) ≡ true },
    pub ghost limits: { Limits config entry_table uppers lowers },
    ghost options_right: { options ≡ option_table config },
    ghost bounds_right: { bounds ≡ limit_table config },
}

impl Reader {
    // The reader of a lawful configuration. By the table that it reads by (`row`) the class of each value of bits 31-23 names exactly the rows that have it.
    pub fn of(c: Config) -> Option<Reader>
        ensures some { IfSome result (λ r. r.config ≡ c) }
        ensures none { IsNone result ↔ (test (lawful c) ≡ false) }
        ensures classes { ClassesExact }
    {
        if !c.lawful() {
            return None;
        }
        Some(Reader {
            config: c,
            uppers: upper_limits(c),
            lowers: lower_limits(c),
            options: option_table(c),
            bounds: limit_table(c),
        })
    }

    // What a word says: the instruction, or refusal 5, 6 or 7.
    pub fn read(&self, w: u32) -> Result<Instruction, Refusal>
        ensures { reading_of result ≡ read_lawful self.now.config w }
    {
        let i = self.parts(self.row(w), w);
        allow(&ROWS, &self.options, &self.bounds, self.config, i)?;
        Ok(i)
    }

    // The quick way, in three calls, for callers that read many words: a word below the limits of its row's check is read, and has these parts
    // (proofs/Quick.antt, `quick_lent`). Whether another word can be read, `read` answers. Each call is small, so that it is compiled into the caller's
    // loop.

    // The row of word w.
    pub fn row(&self, w: u32) -> u32
        ensures { result ≡ number_lent class_table w }
    {
        row_lent(&CLASSES, w)
    }

    // Whether word w, of row n, is below the two limits of its check.
    pub fn below_limits(&self, n: u32, w: u32) -> bool
        ensures { result ≡ below_lent entry_table (uppers self.now.config) (lowers self.now.config) n w }
    {
        below_limits(&ENTRIES, &self.uppers, &self.lowers, n, w)
    }

    // The parts of word w, of row n.
    pub fn parts(&self, n: u32, w: u32) -> Instruction
        ensures { result ≡ parts_lent base_table row_table self.now.config n w }
    {
        parts_lent(&BASES, &ROWS, self.config, n, w)
    }

    // What rules, stops and text ask of the instructions of row n.
    pub fn facts(&self, n: u32) -> Facts
        ensures { result ≡ facts_of n }
    {
        facts_in(packed_lent(&ROWS, n))
    }
}
