// Reading a word: refusals 1, 5, 6, 7, or the instruction.
ghost use Rattle.std.specs.Prelude.{◌≡◌, ◌/◌, ◌%◌, ◌<◌};
ghost use Rattle.words.specs.Answers.{reading_of};
ghost use Rattle.words.specs.declared.Config.{Config};
ghost use Rattle.words.specs.Claims.{Reads};
ghost use Rattle.words.specs.Classes.{class_of, row_of};
ghost use Rattle.words.specs.Lookup.{below_lent};
ghost use Rattle.words.specs.Kinds.{unsupported};
ghost use Rattle.words.specs.Codes.{part_at};
ghost use Rattle.words.specs.Packed.{unpack, number_lent, parts_lent, read_lent};
ghost use Rattle.words.specs.Words.{flag_in, fields_in, spread, read_lawful};

use crate::classes::CLASSES;
use crate::columns::{BASES, ROWS};
use crate::rows::{at_or, digit, named_at, pick, row_of};
use crate::tables::limit_table;
use crate::verdict::{available_in, fits_lent, judge, parts_fit};
use crate::{Config, Fields, Instruction, Refusal, codes, layout, numbers};

// Bits 31-23, which choose the row; what lies below are bits 22-0.
const KEY: u32 = 0x800000;

// Bit 26 of key k, where the row has a flag.
fn flag_in(p: u64, k: u32) -> u32
    ensures { (result ≡ flag_in (part_at (p % 16)) k) × (result < 2) }
{
    let holds = digit(p, codes::FLAG_DIGIT);
    if holds == codes::FLAG { k / 8 % 2 } else { 0 }
}

// The fields of a word of row n: k is bits 31-23, f bits 22-0.
fn fields_in(c: Config, n: u32, base: u32, p: u64, k: u32, f: u32) -> Fields
    ensures { result ≡ fields_in c n (unpack base p unsupported) k f }
{
    let rest = f.saturating_sub(base % KEY);
    let flag = flag_in(p, k);
    let number = k.saturating_sub(base / KEY + 8 * flag);
    let holds = digit(p, codes::VALUE_DIGIT);
    let high = rest / layout::UPPER;
    let low = rest % layout::UPPER;
    Fields {
        row: n,
        flag,
        number,
        upper: pick(holds == codes::TARGET, 0, high),
        lower: pick(holds == codes::UNUSED, low, 0),
        value: pick(
            holds == codes::TARGET,
            rest,
            pick(holds == codes::UNUSED, 0, low),
        ),
    }
}

// The instruction's parts, from the word's fields.
impl From<Fields> for Instruction {
    ghost from_gives = { λ s i. (c : Config) → i ≡ spread c s };

    fn from(s: Fields) -> Instruction {
        Instruction {
            row: s.row,
            flag: s.flag,
            destination: s.upper,
            source: s.lower,
            number: s.number,
            value: s.value,
        }
    }
}

// Reading by lent tables, without a look at refusal 1: for callers that hold the tables and have validated the configuration. Whatever the tables
// hold, the answer is `read_lent` of them; with the tables of this crate that is `read_lawful` (proofs/Packed.antt, `lent`).
pub fn read_word_lent(
    classes: &[u8],
    bases: &[u32],
    packs: &[u64],
    c: Config,
    w: u32,
) -> Result<Instruction, Refusal>
    ensures { reading_of result ≡ read_lent classes.now bases.now packs.now c w }
{
    let n = row_lent(classes, w);
    if n >= numbers::ROW_COUNT {
        return Err(Refusal::NoRow);
    }
    let p = at_or(packs, n, codes::NO_ROW);
    let i = parts_lent(bases, packs, c, n, w);
    let there = available_in(c, digit(p, codes::OPTION_DIGIT));
    judge(there, parts_fit(c, p, i))?;
    Ok(i)
}

// The quick way by lent tables, in three calls, for callers that read many words: a word below the limits of its row's check is read, and has these parts
// (proofs/Quick.antt, `quick_lent`). Whether another word can be read, `read_word_lent` answers. Each call is small, so that it is compiled into the
// caller's loop.

// The row of word w.
pub fn row_lent(classes: &[u8], w: u32) -> u32
    ensures { result ≡ number_lent classes.now w }
{
    row_of(named_at(classes, w / KEY), w % KEY)
}

// Whether word w, of row n, is below the two limits of its check.
pub fn below_limits(entries: &[u32], uppers: &[u64], lowers: &[u64], n: u32, w: u32) -> bool
    ensures { result ≡ below_lent entries.now uppers.now lowers.now n w }
{
    let t = at_or(entries, n, 0) % 64;
    let upper = (w / layout::UPPER % layout::UPPER_VALUES) as u64;
    let lower = (w % layout::UPPER) as u64;
    (upper < at_or(uppers, t, 0)) & (lower < at_or(lowers, t, 0))
}

// The parts of word w, of row n.
pub fn parts_lent(bases: &[u32], packs: &[u64], c: Config, n: u32, w: u32) -> Instruction
    ensures { result ≡ parts_lent bases.now packs.now c n w }
{
    let base = at_or(bases, n, 0);
    let p = at_or(packs, n, codes::NO_ROW);
    Instruction::from(fields_in(c, n, base, p, w / KEY, w % KEY))
}

// The row of a single word.
pub fn row_of_word(w: u32) -> u32
    ensures { result ≡ row_of (class_of (w / 0x800000)) (w % 0x800000) }
{
    row_lent(&CLASSES, w)
}

// Reading without a look at refusal 1.
fn read_lawful(c: Config, w: u32) -> Result<Instruction, Refusal>
    ensures { reading_of result ≡ read_lawful c w }
{
    let n = row_of_word(w);
    if n >= numbers::ROW_COUNT {
        return Err(Refusal::NoRow);
    }
    let p = at_or(&ROWS, n, codes::NO_ROW);
    let instruction = parts_lent(&BASES, &ROWS, c, n, w);
    let there = available_in(c, digit(p, codes::OPTION_DIGIT));
    judge(there, fits_lent(&limit_table(c), c, p, instruction))?;
    Ok(instruction)
}

// What a word says: the instruction, or the refusal. Where it is an instruction, writing that gives the word.
pub fn read_word(c: Config, w: u32) -> Result<Instruction, Refusal>
    ensures { Reads c w result }
{
    if !c.lawful() {
        return Err(Refusal::Unlawful);
    }
    read_lawful(c, w)
}
