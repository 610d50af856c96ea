// Runs cases of instruction text and of listings and prints their answers: what stands on standard input is in `stdin`, what must come out in `stdout`.
//
// A case is a letter and numbers in hex, each after a space or a newline; there are no empty lines:
//   k  the configuration of the cases that follow: 19 numbers in the order of words::Config
//   t  the text of a word: the page's length, the place, the word; prints the word, document 01's number and the place, then the page
//   l  a listing: the page's length, the place, the first address, the image's length and its words; prints document 01's number, the place and
//      the next address, then the page
// A page is filled with full stops before the call, and printed between bars. It has at most 512 bytes, an image 64 words: what is beyond is left out.
// From # to the end of a line is a comment, which is printed as it stands.
#![tactic(auto)]

use case_input::{place, word};
use std::io;
use words::Config;

// How many cases are read at most.
const MOST_CASES: u32 = 1000000;

// What a page is filled with, and how long page and image are at most.
const FILLING: u8 = b'.';

const PAGE_BYTES: usize = 512;

const IMAGE_WORDS: usize = 64;

// The first n bytes of a page, or all of it, between bars.
fn put_page(rt: &impl Print, page: &[u8], n: usize) -> io::Result<()> {
    let m = n.min(page.len());
    print!(rt; " |")?;
    rt.write_all(&page[..m])?;
    println!(rt; "|")
}

fn text_case(rt: &(impl Input + Print), c: Config) -> io::Result<()> {
    let n = place(rt)?;
    let at = place(rt)?;
    let w = word(rt)?;
    let mut page = [FILLING; PAGE_BYTES];
    let m = n.min(page.len());
    let (number, after) = match text::text(c, w, &mut page[..m], at) {
        Ok(after) => (0, after),
        Err(why) => (why.number(), at),
    };
    print!(rt; "text {w:08x} {number:x} {after:x}")?;
    put_page(rt, &page, n)
}

// n words, of which those that have room are kept.
fn image_words(rt: &impl Input, image: &mut [u32], n: usize) -> io::Result<()> {
    for at in 0..n {
        let w = word(rt)?;
        if at < image.len() {
            image[at] = w;
        }
    }
    Ok(())
}

fn list_case(rt: &(impl Input + Print), c: Config) -> io::Result<()> {
    let n = place(rt)?;
    let at = place(rt)?;
    let first = place(rt)?;
    let words = place(rt)?;
    let mut image = [0u32; IMAGE_WORDS];
    image_words(rt, &mut image, words)?;
    let mut page = [FILLING; PAGE_BYTES];
    let w = words.min(image.len());
    let m = n.min(page.len());
    let r = text::list(c, &image[..w], first, &mut page[..m], at);
    let number = r.outcome.map_or_else(|why| why.number(), |()| 0);
    print!(rt; "list {number:x} {:x} {:x}", r.place, r.next)?;
    put_page(rt, &page, n)
}

// One case, and the configuration of the next.
fn case(rt: &(impl Input + Print), letter: u8, c: Config) -> io::Result<Config> {
    if letter == b'#' {
        case_input::echo_line(rt)?;
        return Ok(c);
    }
    let _ = case_input::byte(rt)?;
    match letter {
        b'k' => return case_input::config(rt),
        b't' => text_case(rt, c)?,
        b'l' => list_case(rt, c)?,
        _ => (),
    }
    Ok(c)
}

fn main(rt: HostRuntime) -> io::Result<()> {
    let mut c = Config::default();
    for _ in 0..MOST_CASES {
        match case_input::byte(&rt)? {
            Some(letter) => c = case(&rt, letter, c)?,
            None => return Ok(()),
        }
    }
    Ok(())
}
