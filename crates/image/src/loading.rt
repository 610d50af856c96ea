// Loading an image file: all is checked, in document 01's order, before a word of the image is written.
ghost use Rattle.std.specs.Prelude.{◌≡◌, ◌+◌, ◌-◌, ◌*◌, ◌<◌, ◌≤◌, length, IfOk};
ghost use Rattle.std.proofs.lemmas.List.Edits.{sets};
ghost use Rattle.laws.specs.First.{first_failing};
ghost use Rattle.image.specs.Answers.{number_of};
ghost use Rattle.image.specs.File.{words_at, file_size, config_of, image_words};
ghost use Rattle.image.specs.Loading.{head_tests, rest_tests};
ghost use Rattle.image.specs.Claims.{Loads};

use crate::Refusal;
use crate::blocks::{
    BLOCK_BYTES, BLOCK_WORDS, CHECKED_WORDS, FIRST_FILLING, FIRST_IMAGE_WORD, IMAGE_WORDS,
    blocks_for, check_block, check_blocks, word, zero_words,
};
use words::Config;

// The configuration that block 0 carries.
fn config_of(file: &[u8]) -> Config
    requires { 512 ≤ length file.now }
    ensures { result ≡ config_of file.now }
{
    Config {
        imwidth: 32,
        imsize: word(file, 1),
        regwidth: word(file, 2),
        regsize: word(file, 3),
        rmsize: word(file, 4),
        pcstack: word(file, 5),
        dmsize: word(file, 6),
        dmpipe: word(file, 7),
        alulevel: word(file, 8),
        alumult: word(file, 9),
        aluspr: word(file, 10),
        iopif: word(file, 11),
        ioprmw: word(file, 12),
        yamclk: word(file, 13),
        yamsreg3: word(file, 14),
        alu3op: 0,
        irqif: 0,
        copmsize: 0,
        yamdbg: 0,
    }
}

// What the length and block 0 say: 19, 20, 21, 22 and 1; where nothing, the configuration in it.
fn load_head(file: &[u8]) -> Result<Config, Refusal>
    ensures number { number_of result ≡ first_failing (head_tests file.now) }
    ensures config { IfOk result (λ c. c ≡ config_of file.now) }
{
    if !((0 < file.len()) & (file.len() % BLOCK_BYTES == 0)) {
        return Err(Refusal::FileLength);
    }
    check_block(file, 0)?;
    if !zero_words(file, FIRST_FILLING, CHECKED_WORDS - FIRST_FILLING) {
        return Err(Refusal::Filling);
    }
    let c = config_of(file);
    if !c.lawful() {
        return Err(Refusal::Unlawful);
    }
    Ok(c)
}

// What the rest says of an image of n words and a slice of len: 19, 2, 20, 21 and 22.
fn check_rest(file: &[u8], n: usize, len: usize) -> Result<(), Refusal>
    requires { (1 ≤ n) × (n ≤ 32768) }
    ensures { number_of result ≡ first_failing (rest_tests file.now n len) }
{
    let blocks = blocks_for(n);
    if file.len() != blocks * BLOCK_BYTES + BLOCK_BYTES {
        return Err(Refusal::FileLength);
    }
    if len < n {
        return Err(Refusal::WrongLength);
    }
    check_blocks(file, 1, blocks)?;
    let left = blocks * IMAGE_WORDS - n;
    if !zero_words(file, blocks * BLOCK_WORDS + CHECKED_WORDS - left, left) {
        return Err(Refusal::Filling);
    }
    Ok(())
}

// Copies n words, from place `place` of the file to place `at` of the image.
fn copy_words(file: &[u8], place: usize, image: &mut [u32], at: usize, n: usize)
    requires { ((place + n) * 4 ≤ length file.now) × (at + n ≤ length image.old) }
    ensures { image.new ≡ sets image.old at (words_at file.now place n) }
{
    for i in 0..n {
        image[at + i] = word(file, place + i);
    }
}

// Copies the first n words of the image, block by block.
fn copy_image(file: &[u8], image: &mut [u32], n: usize)
    requires { (n ≤ 32768) × ((n ≤ length image.old) × (file_size n ≤ length file.now)) }
    ensures { image.new ≡ sets image.old 0 (image_words file.now 0 n) }
{
    for b in 0..blocks_for(n) {
        let at = b * IMAGE_WORDS;
        copy_words(
            file,
            b * BLOCK_WORDS + FIRST_IMAGE_WORD,
            image,
            at,
            IMAGE_WORDS.min(n - at),
        );
    }
}

// Loads an image file into the slice: all IM_SIZE words, or on a refusal nothing. What lies beyond them stays.
pub fn load(file: &[u8], image: &mut [u32]) -> Result<Config, Refusal>
    ensures { Loads file.now image.old result image.new }
{
    let c = load_head(file)?;
    let n = c.imsize as usize;
    check_rest(file, n, image.len())?;
    copy_image(file, image, n);
    Ok(c)
}
