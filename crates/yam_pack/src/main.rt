// Packs: named generics (CONFIG) stand on standard input, the argument names a file of hex words, one a line (WORDS); the image file of the two goes to
// standard output. A text that is not in its form gives a line "malformed", a refusal the line "refused" with document 01's number (specs/Packing.antt). What
// cannot be opened, read or written is said on standard error.
#![tactic(auto)]

ghost use Rattle.std.specs.Prelude.{◌≡◌, ◌≤◌, length, take};
ghost use Rattle.image.specs.File.{file_size};
ghost use Rattle.printing.specs.Puts.{Puts};
ghost use Rattle.yam_pack.specs.Packing.{image_of, packed_of, malformed_line, printed_of};
ghost use Rattle.yam_pack.specs.Claims.{Passes, Packs, text_of_error};

mod errors;

use errors::PackError;
use files::{Failure, NAME_BYTES, argument, argument_count, read_all, read_file};
use image::Refusal;
use opening::{FILE_BYTES, WORDS};
use printing::{put_bytes, put_decimal, put_refusal};
use std::io::Read;
use std::rt::{Env, Files};
use words::Config;

const CONFIG_BYTES: usize = 4096;

const TEXT_BYTES: usize = 1048576;

const BLOCK_BYTES: usize = 512;

const BLOCK_WORDS: usize = 126;

// Whether n words are packed.
fn check(c: Config, n: usize) -> Result<(), Refusal>
    ensures { Passes c n result }
{
    if !c.lawful() {
        return Err(Refusal::Unlawful);
    }
    if n != c.imsize as usize {
        return Err(Refusal::WrongLength);
    }
    if WORDS < n {
        return Err(Refusal::WrongLength);
    }
    Ok(())
}

// The bytes of the file of n words.
fn file_size(n: usize) -> usize
    requires { n ≤ 8192 }
    ensures { (result ≡ file_size n) × (result ≤ 34304) }
{
    n.div_ceil(BLOCK_WORDS) * BLOCK_BYTES + BLOCK_BYTES
}

// Packs n words, of which those that there is room for stand in `words`, and answers how many bytes the file has.
fn pack_words(c: Config, n: usize, words: &[u32], page: &mut [u8]) -> Result<usize, PackError>
    requires { (length words.now ≡ 8192) × (length page.old ≡ 34304) }
    ensures { Packs (image_of c n (take n words.now)) page.old result page.new }
{
    check(c, n)?;
    let size = file_size(n);
    image::store(c, &words[..n], &mut page[..size])?;
    Ok(size)
}

// Packs the words of a text under the configuration that another names.
fn pack(
    config: &[u8],
    text: &[u8],
    words: &mut [u32; WORDS],
    page: &mut [u8; FILE_BYTES],
) -> Result<usize, PackError>
    ensures { Packs (packed_of config.now text.now) page.old result page.new }
{
    if CONFIG_BYTES < config.len() {
        return Err(PackError::TooLong(CONFIG_BYTES));
    }
    let c = parsing::generics_of(config)?;
    if TEXT_BYTES < text.len() {
        return Err(PackError::TooLong(TEXT_BYTES));
    }
    let count = parsing::hex_words(text, words)?;
    pack_words(c, count, words, page)
}

fn put_malformed(page: &mut [u8], name: &[u8], n: usize) -> usize
    ensures { Puts page.old 0 (malformed_line name.now n) result page.new }
{
    let i = put_bytes(page, 0, name);
    let j = put_decimal(page, i, n as u64);
    put_bytes(page, j, b"\n")
}

fn put_error(page: &mut [u8], why: PackError) -> usize
    ensures { Puts page.old 0 (text_of_error why) result page.new }
{
    match why {
        PackError::TooLong(n) => put_malformed(page, b"malformed length ", n),
        PackError::BadEntry(n) => put_malformed(page, b"malformed entry ", n),
        PackError::BadLine(n) => put_malformed(page, b"malformed line ", n),
        PackError::Refused(refusal) => put_refusal(page, 0, refusal.number()),
    }
}

// Packs the two texts and puts what comes of them.
fn put_packed(
    config: &[u8],
    text: &[u8],
    words: &mut [u32; WORDS],
    page: &mut [u8; FILE_BYTES],
) -> usize
    ensures { Puts page.old 0 (printed_of config.now text.now) result page.new }
{
    match pack(config, text, words, page) {
        Ok(size) => size,
        Err(why) => put_error(page, why),
    }
}

// Reads WORDS, packs the two texts and prints what comes of them.
fn pack_file<'a>(
    rt: &(impl Files + Print),
    name: &'a [u8],
    config: &[u8],
    text: &mut [u8],
    words: &mut [u32; WORDS],
    page: &mut [u8; FILE_BYTES],
) -> Result<(), Failure<'a>> {
    let bytes = read_file(rt, name, text)?;
    let end = put_packed(config, &text[..bytes], words, page);
    files::print(rt, page, end)
}

// Reads CONFIG first. `name` takes the name of WORDS.
fn pack_named<'a>(
    rt: &(impl Env + Files + Print),
    from: &mut impl Read,
    name: &'a mut [u8],
    config: &mut [u8],
    text: &mut [u8; TEXT_BYTES + 1],
    words: &mut [u32; WORDS],
    page: &mut [u8; FILE_BYTES],
) -> Result<(), Failure<'a>> {
    if argument_count(rt) != 2 {
        return Err(Failure::Usage("usage: yam_pack WORDS <CONFIG >OUT.img"));
    }
    let Ok(length) = argument(rt, 1, name) else {
        return Err(Failure::Usage("yam_pack: the argument is too long"));
    };
    let bytes = read_all("standard input", from, config)?;
    pack_file(rt, &name[..length], &config[..bytes], text, words, page)
}

fn main(rt: HostRuntime) {
    let mut name = [0u8; NAME_BYTES];
    let mut config = [0u8; CONFIG_BYTES + 1];
    let mut text = [0u8; TEXT_BYTES + 1];
    let mut words = [0u32; WORDS];
    let mut page = [0u8; FILE_BYTES];
    let packed = pack_named(
        &rt,
        &mut rt.stdin(),
        &mut name,
        &mut config,
        &mut text,
        &mut words,
        &mut page,
    );
    if let Err(why) = packed {
        let _ = eprintln!(rt; "{why}");
    }
}
