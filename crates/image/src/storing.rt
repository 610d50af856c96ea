// Writing an image file, in one pass.
ghost use Rattle.std.specs.Prelude.{◌≡◌, ◌+◌, ◌*◌, ◌<◌, ◌≤◌, [], ◌∷◌, length};
ghost use Rattle.std.proofs.lemmas.List.Edits.{sets};
ghost use Rattle.laws.specs.First.{first_failing};
ghost use Rattle.image.specs.Answers.{number_of};
ghost use Rattle.image.specs.File.{file_size};
ghost use Rattle.image.specs.Storing.{Put, bytes_of, filled, block_of, blocks_of, head_of, file_of, store_tests};
ghost use Rattle.image.specs.Claims.{Stores};

use crate::Refusal;
use crate::blocks::{
    BLOCK_BYTES, BLOCK_WORDS, CHECKED_WORDS, CHECKSUM_START, IMAGE_WORDS, WORD_BYTES, blocks_for,
};
use words::Config;

// Puts the little-endian word w at place i.
fn put_word(file: &mut [u8], i: usize, w: u32)
    requires { i * 4 + 4 ≤ length file.old }
    ensures { file.new ≡ sets file.old (i * 4) (bytes_of (w ∷ [])) }
{
    let at = i * WORD_BYTES;
    let bytes = w.to_le_bytes();
    file[at] = bytes[0];
    file[at + 1] = bytes[1];
    file[at + 2] = bytes[2];
    file[at + 3] = bytes[3];
}

// Puts n of the words from word `from` on at place `place`, zeros past their end; answers the sum with them added.
fn put_words(file: &mut [u8], place: usize, words: &[u32], from: usize, n: usize, sum: u32) -> u32
    requires { ((place + n) * 4 ≤ length file.old) × (from + n < 0x100000000) }
    ensures { Put file.old place (filled words.now from n) sum result file.new }
{
    let mut s = sum;
    for i in 0..n {
        let w = words.get(from + i).copied().unwrap_or(0);
        put_word(file, place + i, w);
        s = s.wrapping_add(w);
    }
    s
}

// Writes block b: its number, 126 of the words from word `from` on, and the checksum.
fn put_block(file: &mut [u8], b: usize, words: &[u32], from: usize)
    requires { (b * 512 + 512 ≤ length file.old) × (b < 0x10000) × (from < 0x10000) }
    ensures { file.new ≡ sets file.old (b * 512) (bytes_of (block_of b words.now from)) }
{
    let number = b as u32;
    let first = b * BLOCK_WORDS;
    put_word(file, first, number);
    let sum = put_words(
        file,
        first + 1,
        words,
        from,
        IMAGE_WORDS,
        CHECKSUM_START.wrapping_add(number),
    );
    put_word(file, first + CHECKED_WORDS, sum);
}

// Writes n blocks of the image from block 1 on.
fn put_image(file: &mut [u8], image: &[u32], n: usize)
    requires { (n ≤ 300) × (n * 512 + 512 ≤ length file.old) }
    ensures { file.new ≡ sets file.old 512 (bytes_of (blocks_of 1 image.now 0 n)) }
{
    for b in 0..n {
        put_block(file, b + 1, image, b * IMAGE_WORDS);
    }
}

// The words of block 0.
fn head_words(c: Config) -> [u32; 14]
    ensures { result ≡ head_of c }
{
    [
        c.imsize, c.regwidth, c.regsize, c.rmsize, c.pcstack, c.dmsize, c.dmpipe, c.alulevel,
        c.alumult, c.aluspr, c.iopif, c.ioprmw, c.yamclk, c.yamsreg3,
    ]
}

// Why nothing is written: 1, 2 or 19.
fn check_store(c: Config, words: usize, bytes: usize) -> Result<(), Refusal>
    ensures { number_of result ≡ first_failing (store_tests c words bytes) }
{
    if !c.lawful() {
        return Err(Refusal::Unlawful);
    }
    let size = c.imsize as usize;
    if words != size {
        return Err(Refusal::WrongLength);
    }
    if bytes != blocks_for(size) * BLOCK_BYTES + BLOCK_BYTES {
        return Err(Refusal::FileLength);
    }
    Ok(())
}

// Writes the whole file.
fn put_file(c: Config, image: &[u32], file: &mut [u8])
    requires { (length image.now ≡ c.imsize) × (c.imsize ≤ 32768) × (length file.old ≡ file_size c.imsize) }
    ensures { file.new ≡ file_of c image.now }
{
    let head = head_words(c);
    put_block(file, 0, &head, 0);
    put_image(file, image, blocks_for(image.len()));
}

// Writes the image file of a configuration and an image into the buffer, or on a refusal nothing: 1; 2 where the image is not IM_SIZE long; 19 where the
// buffer is not exactly as long as the file. What it writes loads back to the same configuration and words.
pub fn store(c: Config, image: &[u32], file: &mut [u8]) -> Result<(), Refusal>
    ensures { Stores c image.now file.old result file.new }
{
    check_store(c, image.len(), file.len())?;
    put_file(c, image, file);
    Ok(())
}
