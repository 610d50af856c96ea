// The source of the next case: a buffer, of which the first bytes are the text.
ghost use Rattle.std.specs.Prelude.{◌<◌, IfOk};

use case_input::{byte, digit};
use std::io;

const NEWLINE: u8 = b'\n';

const BACKSLASH: u8 = b'\\';

// How many bytes of a line are taken at most.
const LINE_BYTES: usize = 100000;

// Adds a byte, where there is room; answers how many there are.
pub fn add(source: &mut [u8], size: usize, byte: u8) -> usize {
    if size < source.len() {
        source[size] = byte;
        return size + 1;
    }
    size
}

// The value of the next byte as a hex digit, 0 where it is none.
fn hex(rt: &impl Input) -> io::Result<u8>
    ensures { IfOk result (λ d. d < 16) }
{
    Ok(byte(rt)?.and_then(digit).unwrap_or(0) % 16)
}

// A byte of a text, none where the line ends; after a backslash the byte of two hex digits.
fn text_byte(rt: &impl Input) -> io::Result<Option<u8>> {
    Ok(match byte(rt)? {
        Some(NEWLINE) => None,
        Some(BACKSLASH) => {
            let high = hex(rt)?;
            let low = hex(rt)?;
            Some(high * 16 + low)
        },
        other => other,
    })
}

// Adds what is left of the line.
pub fn add_text(rt: &impl Input, source: &mut [u8], size: usize) -> io::Result<usize> {
    let mut end = size;
    for _ in 0..LINE_BYTES {
        match text_byte(rt)? {
            Some(b) => end = add(source, end, b),
            None => return Ok(end),
        }
    }
    Ok(end)
}

// Adds what is left of the line, so many times.
pub fn add_times(rt: &impl Input, source: &mut [u8], size: usize, times: u32) -> io::Result<usize> {
    let end = add_text(rt, source, size)?;
    let mut after = end;
    for _ in 1..times {
        for at in size..end {
            let b = source.get(at).copied().unwrap_or(0);
            after = add(source, after, b);
        }
    }
    Ok(after)
}

// Letter k of label n, of the twenty from g on.
fn letter(n: u32) -> u8 {
    b'g' + (n % 20) as u8
}

// Adds lone labels of three letters, one a line, which differ up to 8,000.
pub fn add_labels(source: &mut [u8], size: usize, count: u32) -> usize {
    let mut after = size;
    for n in 0..count {
        for b in [letter(n / 400), letter(n / 20), letter(n), b':', NEWLINE] {
            after = add(source, after, b);
        }
    }
    after
}
