// Writing a word: refusals 1, 5, 6, 7, or the word.
ghost use Rattle.std.specs.Prelude.{◌≡◌, ◌%◌};
ghost use Rattle.words.specs.Answers.{writing_of};
ghost use Rattle.words.specs.declared.Config.{Config};
ghost use Rattle.words.specs.Claims.{Writes};
ghost use Rattle.words.specs.Packed.{write_lent};
ghost use Rattle.words.specs.Words.{word_from, gather};

use crate::columns::{BASES, ROWS};
use crate::rows::at_or;
use crate::tables::{limit_table, option_table};
use crate::verdict::allow;
use crate::{Config, Fields, Instruction, Refusal, layout};

// How many words there are, of 32 bits.
const WORDS: u64 = 0x100000000;

// The word's fields, from the instruction's parts.
impl From<Instruction> for Fields {
    ghost from_gives = { λ i s. (c : Config) → s ≡ gather c i };

    fn from(i: Instruction) -> Fields {
        Fields {
            row: i.row,
            flag: i.flag,
            number: i.number,
            upper: i.destination,
            lower: i.source,
            value: i.value,
        }
    }
}

// The word that has these fields over a row's base, cut to 32 bits. It is summed up in 64, so that
// any fields may be given.
fn word_from(base: u32, s: Fields) -> u32
    ensures { result ≡ word_from base s % 4294967296 }
{
    let sum = base as u64
        + layout::FLAG as u64 * s.flag as u64
        + layout::NUMBER as u64 * s.number as u64
        + layout::UPPER as u64 * s.upper as u64
        + s.lower as u64
        + s.value as u64;
    (sum % WORDS) as u32
}

// Writing by lent tables, without a look at refusal 1: for callers that hold the tables and have validated the configuration. Whatever the tables
// hold, the answer is `write_lent` of them; with the tables of this crate and a lawful configuration that is `write_lawful`
// (proofs/Answers.antt, `write_lent_lem`).
pub fn write_word_lent(
    bases: &[u32],
    packs: &[u64],
    options: &[bool; 16],
    limits: &[u32; 16],
    c: Config,
    i: Instruction,
) -> Result<u32, Refusal>
    ensures { writing_of result ≡ write_lent bases.now packs.now options.now limits.now c i }
{
    allow(packs, options, limits, c, i)?;
    Ok(word_from(at_or(bases, i.row, 0), Fields::from(i)))
}

// The word of an instruction, or the refusal. Where it is a word, reading that gives the instruction.
pub fn write_word(c: Config, i: Instruction) -> Result<u32, Refusal>
    ensures { Writes c i result }
{
    if !c.lawful() {
        return Err(Refusal::Unlawful);
    }
    let options = option_table(c);
    let limits = limit_table(c);
    write_word_lent(&BASES, &ROWS, &options, &limits, c, i)
}
