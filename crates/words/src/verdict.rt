// The verdict on an instruction's parts: refusals 6 and 7, by the configuration for reading, by lent tables for writing.
ghost use Rattle.std.specs.Prelude.{◌≡◌, false, ◌<◌, ltb, get_or};
ghost use Rattle.laws.specs.First.{first_failing};
ghost use Rattle.laws.specs.Test.{test};
ghost use Rattle.words.specs.Answers.{verdict_of, refusals_by};
ghost use Rattle.words.specs.Parts.{available};
ghost use Rattle.words.specs.Codes.{option_at};
ghost use Rattle.words.specs.Kinds.{unsupported};
ghost use Rattle.words.specs.Packed.{no_packed, unpack, in_limit, fits_lent, refusals_lent};
ghost use Rattle.words.specs.Words.{fits};

use crate::rows::{at_or, digit};
use crate::tables::limit_table;
use crate::{Config, Instruction, Refusal, codes, numbers};

// What refuses a row's parts: its option is not there, or they are not in range.
pub fn judge(there: bool, fit: bool) -> Result<(), Refusal>
    ensures { verdict_of result ≡ first_failing (refusals_by there fit) }
{
    if !there {
        return Err(Refusal::Unavailable);
    }
    if !fit {
        return Err(Refusal::OutOfRange);
    }
    Ok(())
}

// Whether the configuration has the option that a row needs, by its number (specs/Codes.antt).
pub fn available_in(c: Config, option: u32) -> bool
    ensures { result ≡ test (available c (option_at option)) }
{
    match option {
        codes::ALWAYS => true,
        codes::MULT => c.alumult == 1,
        codes::LEVEL1 => 0 < c.alulevel,
        codes::LEVEL2 => 1 < c.alulevel,
        codes::LEVEL2_MEMORY => (1 < c.alulevel) & (0 < c.dmsize),
        codes::MEMORY => 0 < c.dmsize,
        codes::PORTS => c.iopif == 1,
        codes::RMW => c.ioprmw == 1,
        codes::BANKS => c.regsize < c.rmsize,
        codes::SPR => c.aluspr == 1,
        _ => false,
    }
}

// Whether an option is there, by its number.
pub fn option_lent(options: &[bool; 16], option: u32) -> bool
    requires { option < 16 }
    ensures { result ≡ get_or options.now option false }
{
    options[option as usize]
}

// Whether v is below the limit of a part, by its number.
fn below(limits: &[u32; 16], part: u32, v: u32) -> bool
    requires { part < 16 }
    ensures { result ≡ ltb v (get_or limits.now part 0) }
{
    v < limits[part as usize]
}

// The same for a value, which alone can be a shift count: at level 0 that is 1.
fn value_below(limits: &[u32; 16], c: Config, part: u32, v: u32) -> bool
    requires { part < 16 }
    ensures { result ≡ test (in_limit limits.now c part v) }
{
    (!((part == codes::COUNT) & (c.alulevel == 0)) | (v == 1)) & below(limits, part, v)
}

// Whether each part is below the limit of what the row, packed in p, says that it holds.
pub fn fits_lent(limits: &[u32; 16], c: Config, p: u64, i: Instruction) -> bool
    ensures { result ≡ test (fits_lent limits.now c p i) }
{
    let flag = below(limits, digit(p, codes::FLAG_DIGIT), i.flag);
    let number = below(limits, digit(p, codes::NUMBER_DIGIT), i.number);
    let destination = below(limits, digit(p, codes::DESTINATION_DIGIT), i.destination);
    let source = below(limits, digit(p, codes::SOURCE_DIGIT), i.source);
    let value = value_below(limits, c, digit(p, codes::VALUE_DIGIT), i.value);
    flag & (number & (destination & (source & value)))
}

// Whether each part is in the range that a row gives it, whatever p holds: there any part may be a shift count.
pub fn parts_fit(c: Config, p: u64, i: Instruction) -> bool
    ensures { result ≡ test (fits c (unpack 0 p unsupported) i) }
{
    let limits = limit_table(c);
    let flag = value_below(&limits, c, digit(p, codes::FLAG_DIGIT), i.flag);
    let number = value_below(&limits, c, digit(p, codes::NUMBER_DIGIT), i.number);
    let destination = value_below(
        &limits,
        c,
        digit(p, codes::DESTINATION_DIGIT),
        i.destination,
    );
    let source = value_below(&limits, c, digit(p, codes::SOURCE_DIGIT), i.source);
    let value = value_below(&limits, c, digit(p, codes::VALUE_DIGIT), i.value);
    flag & (number & (destination & (source & value)))
}

// Refusals 5, 6 and 7 by lent tables, whatever they hold: with this crate's rows and the configuration's own options and limits they are document 01's
// (proofs/Answers.antt, `refused_alike`).
pub fn allow(
    packs: &[u64],
    options: &[bool; 16],
    limits: &[u32; 16],
    c: Config,
    i: Instruction,
) -> Result<(), Refusal>
    ensures { verdict_of result ≡ first_failing (refusals_lent options.now limits.now c (get_or packs.now i.row no_packed) i) }
{
    if i.row >= numbers::ROW_COUNT {
        return Err(Refusal::NoRow);
    }
    let p = at_or(packs, i.row, codes::NO_ROW);
    let there = option_lent(options, digit(p, codes::OPTION_DIGIT));
    judge(there, fits_lent(limits, c, p, i))
}
