// The word of an instruction's line.
ghost use Rattle.std.specs.Prelude.{◌≡◌, ◌+◌, ◌≤◌, length};
ghost use Rattle.std.proofs.Math.Seq.{slice};
ghost use Rattle.words.specs.Words.{write_lawful};
ghost use Rattle.syntax.specs.Labels.{set_target};
ghost use Rattle.syntax.specs.Reading.{unread, read_line};
ghost use Rattle.assembler.specs.Packed.{line_of};
ghost use Rattle.assembler.specs.Writing.{outcome_of, Worded};
ghost use Rattle.assembler.specs.Zeros.{zeroed};

use crate::bytes::{is_beyond, letters, name_length};
use crate::keys::Key;
use crate::labels::Labels;
use crate::zeros::{LONGEST, TARGET, zeroed};
use crate::{LineError, forms};
use words::{Instruction, Writer};

// The place of a line's fifth byte.
const FIFTH: usize = 4;

// The word of an instruction.
fn write(writer: &Writer, i: Instruction) -> Result<u32, LineError>
    ensures { outcome_of result ≡ write_lawful writer.now.config i }
{
    Ok(writer.write(i)?)
}

// The instruction with another target.
fn aim_at(i: Instruction, a: u32) -> Instruction
    ensures { result ≡ set_target i a }
{
    Instruction { value: a, ..i }
}

// What a line reads as with six zeros for the m letters from `from` on.
fn read_zeroed(line: &[u8], from: usize, m: usize) -> Option<Instruction>
    requires { from + m ≤ length line.now }
    ensures { line_of result ≡ read_line (zeroed line.now from m) }
{
    let n = line.len() - m + TARGET;
    if LONGEST < n {
        return None;
    }
    forms::read(&zeroed(line, from, m, n), 0, n)
}

// What the n bytes from `at` on read as. Most labels are told by the fifth byte, behind a name of three letters and a space: a line with such a byte is in no form.
fn read_plain(text: &[u8], at: usize, n: usize) -> Option<Instruction>
    requires { at + n ≤ length text.now }
    ensures { line_of result ≡ read_line (slice at (at + n) text.now) }
{
    if FIFTH < n {
        if is_beyond(text[at + FIFTH]) {
            return None;
        }
    }
    forms::read(text, at, n)
}

// The word of a line that is in no form as it stands: it may have a label for its target.
fn write_target(writer: &Writer, labels: &Labels, line: &[u8]) -> Result<u32, LineError>
    requires { read_line line.now ≡ unread }
    ensures { Worded writer.now.config labels.now line.now result }
{
    let name = name_length(line);
    if line.len() <= name {
        return Err(LineError::NotInForm);
    }
    let from = name + 1;
    let letters = letters(&line[from..]);
    let key = Key::of(letters).ok_or(LineError::NotInForm)?;
    let i = read_zeroed(line, from, letters.len()).ok_or(LineError::NotInForm)?;
    let a = labels.address_of(key).ok_or(LineError::UnknownLabel)?;
    write(writer, aim_at(i, a))
}

// The word of the instruction that stands from `at` up to `end`.
pub fn word_at(
    writer: &Writer,
    labels: &Labels,
    text: &[u8],
    at: usize,
    end: usize,
) -> Result<u32, LineError>
    requires { (at ≤ end) × (end ≤ length text.now) }
    ensures { Worded writer.now.config labels.now (slice at end text.now) result }
{
    let Some(i) = read_plain(text, at, end - at) else {
        return write_target(writer, labels, &text[at..end]);
    };
    write(writer, i)
}
