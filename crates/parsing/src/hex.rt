// Words of hex digits, one a line.
ghost use Rattle.std.specs.Prelude.{◌<◌, length};
ghost use Rattle.parsing.specs.Claims.{FirstWord, Heard, ReadsWords};

use crate::BadLine;

const BASE: u32 = 16;

const MOST_DIGITS: usize = 8;

// The word of the line at a text's head, and how many bytes that line has; none where it is in another form. No byte past a line's ninth is looked at.
fn first_word(text: &[u8]) -> Option<(u32, usize)>
    requires { 0 < length text.now }
    ensures { FirstWord text.now result }
{
    let mut word = 0;
    for i in 0..text.len() {
        let b = text[i];
        if b == b'\n' {
            if i == 0 {
                return None;
            }
            return Some((word, i + 1));
        }
        if i == MOST_DIGITS {
            return None;
        }
        let digit = char::from(b).to_digit(BASE)?;
        word = BASE * word + digit;
    }
    Some((word, text.len()))
}

// Puts the words of a text where there is room for them, up to its first line in another form.
fn put_words(text: &[u8], words: &mut [u32]) -> Result<usize, BadLine>
    ensures { Heard text.now words.old result words.new }
{
    let mut count = 0;
    let mut rest = text;
    while !rest.is_empty() {
        let (word, bytes) = first_word(rest).ok_or(BadLine { line: count + 1 })?;
        if count < words.len() {
            words[count] = word;
        }
        count += 1;
        rest = &rest[bytes..];
    }
    Ok(count)
}

// The words of a text: as many as there is room for are put into the words lent, from place 0 on. Where a line is in another form, nothing is put. What is
// printed hex 8, one a line, is read back.
pub fn hex_words(text: &[u8], words: &mut [u32]) -> Result<usize, BadLine>
    ensures { ReadsWords text.now words.old result words.new }
{
    put_words(text, &mut [])?;
    put_words(text, words)
}
