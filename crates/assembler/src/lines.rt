// A pass over all lines of a text.
ghost use Rattle.std.specs.Prelude.{◌≡◌, [], ◌≤◌, length, set, Ok, Err, MatchResult};
ghost use Rattle.std.proofs.Math.Seq.{slice};
ghost use Rattle.syntax.specs.Lines.{lines_of};
ghost use Rattle.syntax.specs.Labels.{gathered};
ghost use Rattle.assembler.specs.declared.errors.AssembleError.TheVariants.{BadLine};
ghost use Rattle.assembler.specs.Passing.{Gives, Passes};
ghost use Rattle.assembler.specs.Tables.{Tabled};

use crate::bytes::line_end;
use crate::labels::Labels;
use crate::openings::{body_start, counts, open_line};
use crate::writing::word_at;
use crate::{AssembleError, LineError};
use words::Writer;

// The word of the line from s up to e, if it counts as one.
fn word_of_line(
    writer: &Writer,
    labels: &Labels,
    text: &[u8],
    s: usize,
    e: usize,
) -> Result<Option<u32>, LineError>
    requires { (s ≤ e) × (e ≤ length text.now) }
    ensures { Gives writer.now.config labels.now (slice s e text.now) result }
{
    let l = &text[s..e];
    let o = open_line(l);
    if !counts(l, o) {
        return Ok(None);
    }
    let word = word_at(writer, labels, text, s + body_start(l, o), e)?;
    Ok(Some(word))
}

// A line's word, or why the text is refused for this line.
fn at_line(line: usize, word: Result<Option<u32>, LineError>) -> Result<Option<u32>, AssembleError>
    ensures { MatchResult word (λ x. result ≡ Ok x) (λ e. result ≡ Err (BadLine line e)) }
{
    word.map_err(|error| AssembleError::BadLine(line, error))
}

// Keeps a word, where there is room for it.
fn keep_word(words: &mut [u32], n: usize, w: u32)
    ensures { words.new ≡ set words.old n w }
{
    if n < words.len() {
        words[n] = w;
    }
}

// Reads every line: how many words there are, or the first line that has none. The words are kept as far as there is room.
pub fn read_lines(
    writer: &Writer,
    labels: &Labels,
    text: &[u8],
    words: &mut [u32],
) -> Result<usize, AssembleError>
    requires { Tabled labels.now (gathered [] 0 (lines_of text.now)) }
    ensures { Passes writer.now.config text.now words.old result words.new }
{
    let mut s = 0;
    let mut line = 1;
    let mut count = 0;
    while s <= text.len() {
        let e = line_end(text, s);
        let word = at_line(line, word_of_line(writer, labels, text, s, e))?;
        if let Some(word) = word {
            keep_word(words, count, word);
            count += 1;
        }
        line += 1;
        s = e + 1;
    }
    Ok(count)
}
