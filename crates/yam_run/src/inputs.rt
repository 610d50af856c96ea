// The inputs: a text of words.
ghost use Rattle.std.specs.Prelude.{IfOk};
ghost use Rattle.files.specs.Counts.{IsPrefixLen};

use crate::errors::{Answer, RunError};
use std::rt::Files;

// The bytes of the inputs' text, and how many words so many bytes can hold: a digit and a newline each.
pub const INPUT_BYTES: usize = 1048576;

pub const INPUT_WORDS: usize = 524288;

// Puts the words of a text at the start of `words`, and answers how many they are.
fn words_of(text: &[u8], words: &mut [u32]) -> Result<usize, Answer>
    ensures { IfOk result (λ n. IsPrefixLen n words.new) }
{
    if INPUT_BYTES < text.len() {
        return Err(Answer::TooLong);
    }
    let count = parsing::hex_words(text, words)?;
    Ok(opening::count(count, words))
}

// Reads the words of the named file, none where there is no name.
pub fn read_inputs<'a>(
    rt: &impl Files,
    name: &'a [u8],
    text: &mut [u8],
    words: &mut [u32],
) -> Result<usize, RunError<'a>>
    ensures { IfOk result (λ n. IsPrefixLen n words.new) }
{
    if name.is_empty() {
        return Ok(0);
    }
    let bytes = files::read_file(rt, name, text)?;
    let n = words_of(&text[..bytes], words)?;
    Ok(n)
}
