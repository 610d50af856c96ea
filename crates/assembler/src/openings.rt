// How a line opens: its label, whether it counts as a word, and where its instruction starts.
ghost use Rattle.std.specs.Prelude.{◌≡◌, ◌≤◌, length, drop};
ghost use Rattle.syntax.specs.Lines.{letters_of, body_of, counts as countsAsWord};
ghost use Rattle.assembler.specs.Openings.{opening_key, Opens};
ghost use Rattle.assembler.specs.Keys.{key_number};

use crate::bytes::{COLON, SPACE, byte_at, letters};
use crate::keys::Key;

// How many small letters a line starts with, and its label, if it starts with one.
#[derive(Clone, Copy)]
pub struct Opening {
    pub letters: usize,
    pub key: Option<Key>,
}

// The label of a line that starts with these small letters.
fn key_before_colon(line: &[u8], letters: &[u8]) -> Option<Key>
    requires { letters.now ≡ letters_of line.now }
    ensures { key_number result ≡ opening_key line.now }
{
    if byte_at(line, letters.len()) != COLON {
        return None;
    }
    Key::of(letters)
}

pub fn open_line(line: &[u8]) -> Opening
    ensures { Opens line.now result }
{
    let letters = letters(line);
    Opening {
        letters: letters.len(),
        key: key_before_colon(line, letters),
    }
}

// Whether the line counts as a word.
pub fn counts(line: &[u8], o: Opening) -> bool
    requires { Opens line.now o }
    ensures { result ≡ countsAsWord line.now }
{
    (0 < line.len()) & (o.key.is_none() | (o.letters + 1 != line.len()))
}

// Where the instruction of a line starts.
pub fn body_start(line: &[u8], o: Opening) -> usize
    requires { Opens line.now o }
    ensures { (drop result line.now ≡ body_of line.now) × (result ≤ length line.now) }
{
    if o.key.is_none() {
        return 0;
    }
    if byte_at(line, o.letters + 1) == SPACE {
        return o.letters + 2;
    }
    0
}
