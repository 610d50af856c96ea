// The blocks of an image file: words, checksums, and what is asked of a block.
ghost use Rattle.std.specs.Prelude.{◌≡◌, ◌+◌, ◌*◌, ◌<◌, ◌≤◌, length};
ghost use Rattle.laws.specs.Test.{test};
ghost use Rattle.laws.specs.First.{first_failing};
ghost use Rattle.image.specs.Answers.{number_of};
ghost use Rattle.image.specs.File.{word_at, words_at, checksum, blocks_for};
ghost use Rattle.image.specs.Loading.{zeros, block_tests, blocks_tests};

use crate::Refusal;

// A word, a block's words and bytes, and the words that its checksum is made of.
pub const WORD_BYTES: usize = 4;

pub const BLOCK_WORDS: usize = 128;

pub const BLOCK_BYTES: usize = 512;

pub const CHECKED_WORDS: usize = 127;

// The words of the image in a block.
pub const IMAGE_WORDS: usize = 126;

// What a checksum starts from.
pub const CHECKSUM_START: u32 = 512;

// The first word of the image, in block 1 behind its number.
pub const FIRST_IMAGE_WORD: usize = 129;

// The first word of block 0's filling: the words before it carry generics.
pub const FIRST_FILLING: usize = 15;

// The little-endian word at place i.
pub fn word(file: &[u8], i: usize) -> u32
    requires { i * 4 + 4 ≤ length file.now }
    ensures { result ≡ word_at file.now i }
{
    let at = i * WORD_BYTES;
    u32::from_le_bytes([file[at], file[at + 1], file[at + 2], file[at + 3]])
}

// The blocks that hold n words, as few as do.
pub fn blocks_for(n: usize) -> usize
    requires { n ≤ 32768 }
    ensures { result ≡ blocks_for n }
{
    n.div_ceil(IMAGE_WORDS)
}

// The checksum (document 01: check) of the 127 words from place `from` on.
pub fn checksum_at(file: &[u8], from: usize) -> u32
    requires { (from + 127) * 4 ≤ length file.now }
    ensures { result ≡ checksum (words_at file.now from 127) }
{
    let mut sum: u32 = CHECKSUM_START;
    for i in 0..CHECKED_WORDS {
        sum = sum.wrapping_add(word(file, from + i));
    }
    sum
}

// 20 or 21 of block b.
pub fn check_block(file: &[u8], b: usize) -> Result<(), Refusal>
    requires { b * 512 + 512 ≤ length file.now }
    ensures { number_of result ≡ first_failing (block_tests file.now b) }
{
    let first = b * BLOCK_WORDS;
    if word(file, first) as usize != b {
        return Err(Refusal::BlockNumber);
    }
    if word(file, first + CHECKED_WORDS) != checksum_at(file, first) {
        return Err(Refusal::Checksum);
    }
    Ok(())
}

// The first refusal of the n blocks from `from` on.
pub fn check_blocks(file: &[u8], from: usize, n: usize) -> Result<(), Refusal>
    requires { (from + n) * 512 ≤ length file.now }
    ensures { number_of result ≡ first_failing (blocks_tests file.now from n) }
{
    for b in from..from + n {
        check_block(file, b)?;
    }
    Ok(())
}

// Whether the n words from place `from` on are zero.
pub fn zero_words(file: &[u8], from: usize, n: usize) -> bool
    requires { (from + n) * 4 ≤ length file.now }
    ensures { result ≡ test (zeros (words_at file.now from n)) }
{
    for i in 0..n {
        if word(file, from + i) != 0 {
            return false;
        }
    }
    true
}
