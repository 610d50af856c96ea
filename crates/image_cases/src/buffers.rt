// The file and the image slice, as a case gives them.
use case_input::{length, word};
use std::io;

pub const WORD_BYTES: usize = 4;

// Puts the little-endian word at a place of the file, where the file has it.
fn put_word(file: &mut [u8], at: usize, w: u32) {
    if at < file.len() / WORD_BYTES {
        let from = at * WORD_BYTES;
        file[from..from + WORD_BYTES].copy_from_slice(&w.to_le_bytes());
    }
}

// The image slice: its length, what fills it, a count, and as many pairs of place and word.
pub fn image(rt: &impl Input, image: &mut [u32]) -> io::Result<usize> {
    let n = length(rt)?;
    image.fill(word(rt)?);
    for _ in 0..word(rt)? {
        let at = length(rt)?;
        let value = word(rt)?;
        if at < image.len() {
            image[at] = value;
        }
    }
    Ok(n)
}

// The file: its length, what fills it, a count, and as many pairs of place and word.
pub fn file(rt: &impl Input, file: &mut [u8]) -> io::Result<usize> {
    let n = length(rt)?;
    let value = word(rt)?;
    for bytes in file.chunks_exact_mut(WORD_BYTES) {
        bytes.copy_from_slice(&value.to_le_bytes());
    }
    for _ in 0..word(rt)? {
        let at = length(rt)?;
        let value = word(rt)?;
        put_word(file, at, value);
    }
    Ok(n)
}
