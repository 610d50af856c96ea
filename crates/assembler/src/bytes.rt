// Bytes of a line: total readers, and the classes of bytes.
ghost use Rattle.std.specs.Prelude.{◌≡◌, ◌==◌, not, ◌+◌, ◌≤◌, length, get_or, take, position, unwrap_or};
ghost use Rattle.syntax.specs.Pieces.{is_hex};
ghost use Rattle.syntax.specs.Lines.{is_small, letters_of};
ghost use Rattle.syntax.specs.Labels.{name_length};
ghost use Rattle.assembler.specs.Bytes.{byte_before, is_beyond, newlines_in, Ended, LineEnd};

// How many bytes are looked at in one go.
const BLOCK: usize = 16;

pub const NEWLINE: u8 = b'\n';

pub const SPACE: u8 = b' ';

pub const DIGIT_0: u8 = b'0';

pub const DIGIT_9: u8 = b'9';

pub const COLON: u8 = b':';

pub const SMALL_A: u8 = b'a';

pub const SMALL_F: u8 = b'f';

pub const SMALL_Z: u8 = b'z';

// A byte; past the end 0.
pub fn byte_at(t: &[u8], i: usize) -> u8
    ensures { result ≡ get_or t.now i 0 }
{
    t.get(i).copied().unwrap_or(0)
}

// Byte j from the end, counted from 1; before the start 0.
pub fn byte_before(t: &[u8], j: usize) -> u8
    ensures { result ≡ byte_before t.now j }
{
    let n = t.len();
    if j <= n { byte_at(t, n - j) } else { 0 }
}

pub fn is_hex(b: u8) -> bool
    ensures { result ≡ is_hex b }
{
    ((DIGIT_0 <= b) & (b <= DIGIT_9)) | ((SMALL_A <= b) & (b <= SMALL_F))
}

pub fn is_small(b: u8) -> bool
    ensures { result ≡ is_small b }
{
    (SMALL_A <= b) & (b <= SMALL_Z)
}

// A small letter beyond f, which no form has.
pub fn is_beyond(b: u8) -> bool
    ensures { result ≡ is_beyond b }
{
    (SMALL_F < b) & (b <= SMALL_Z)
}

// Which of the 16 bytes from `from` on are newlines: bit j says it of byte j. No early end, so that they are compared at once.
fn newlines(text: &[u8], from: usize) -> u32
    requires { from + 16 ≤ length text.now }
    ensures { result ≡ newlines_in 16 text.now from }
{
    let mut m: u32 = 0;
    for j in (0..BLOCK).rev() {
        m = 2 * m + u32::from(text[from + j] == NEWLINE);
    }
    m
}

// The next newline from `from` on, or the text's end.
fn next_newline(text: &[u8], from: usize) -> usize
    requires { from ≤ length text.now }
    ensures { Ended text.now from result }
{
    for j in from..text.len() {
        if text[j] == NEWLINE {
            return j;
        }
    }
    text.len()
}

// Where the line that starts at `from` ends: at the next newline, or at the text's end.
pub fn line_end(text: &[u8], from: usize) -> usize
    requires { from ≤ length text.now }
    ensures { LineEnd text.now from result }
{
    let mut j = from;
    while BLOCK <= text.len() - j {
        let m = newlines(text, j);
        if m != 0 {
            return j + u32::trailing_zeros(m) as usize;
        }
        j += BLOCK;
    }
    next_newline(text, j)
}

// Where a line's first space stands.
fn first_space(t: &[u8]) -> Option<usize>
    ensures { result ≡ position (λ b. b == 32) t.now }
{
    t.iter().position(|b| *b == SPACE)
}

// Where the first byte stands that is no small letter.
fn letters_end(t: &[u8]) -> Option<usize>
    ensures { result ≡ position (λ b. not (is_small b)) t.now }
{
    t.iter().position(|b| !is_small(*b))
}

// How many bytes stand before a line's first space.
pub fn name_length(t: &[u8]) -> usize
    ensures { result ≡ name_length t.now }
{
    first_space(t).unwrap_or(t.len())
}

// The small letters that a line starts with.
pub fn letters(t: &[u8]) -> &[u8]
    ensures { result.now ≡ letters_of t.now }
{
    let end = letters_end(t).unwrap_or(t.len());
    &t[..end]
}
