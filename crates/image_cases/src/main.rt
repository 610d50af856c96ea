// Runs cases of image files through the library and prints its answers: what stands on standard input is in `stdin`, what must come out in `stdout`.
//
// A case is a letter and numbers in hex, each after a space or a newline; there are no empty lines.
//   k  the configuration that is stored: 19 numbers in the order of words::Config
//   f  the file: its length in bytes, a word that fills the buffer, a count, and as many pairs of place and word
//   i  the image slice: its length, a word that fills it, a count, and as many pairs of place and word
//   l  loads the file into the slice: prints document 01's number, the configuration, and the cells of the slice that are not as they were before
//   s  stores the configuration and the slice into the file: prints the number, and the words of the file that are not as they were before
// A call keeps what it leaves for the next one. A file holds at most 2,048 bytes, a slice at most 512 words: what is beyond is left out.
// From # to the end of a line is a comment, which is printed as it stands.
#![tactic(auto)]

mod buffers;
mod cases;

use std::io;
use words::Config;

// How many cases are read at most.
const MOST_CASES: u32 = 100000;

// The configuration that is stored, and how much of the file and of the slice is lent.
#[derive(Drop)]
struct Setting {
    config: Config,
    bytes: usize,
    words: usize,
}

// One case.
fn case(
    rt: &(impl Input + Print),
    letter: u8,
    s: &mut Setting,
    file: &mut [u8; 2048],
    image: &mut [u32; 512],
) -> io::Result<()> {
    if letter == b'#' {
        return case_input::echo_line(rt);
    }
    let _ = case_input::byte(rt)?;
    match letter {
        b'k' => s.config = case_input::config(rt)?,
        b'f' => s.bytes = buffers::file(rt, file)?,
        b'i' => s.words = buffers::image(rt, image)?,
        b'l' => cases::load_case(rt, s.bytes, s.words, file, image)?,
        b's' => cases::store_case(rt, s.config, s.bytes, s.words, file, image)?,
        _ => (),
    }
    Ok(())
}

fn main(rt: HostRuntime) -> io::Result<()> {
    let mut s = Setting {
        config: Config::default(),
        bytes: 0,
        words: 0,
    };
    let mut file = [0u8; 2048];
    let mut image = [0u32; 512];
    for _ in 0..MOST_CASES {
        match case_input::byte(&rt)? {
            Some(letter) => case(&rt, letter, &mut s, &mut file, &mut image)?,
            None => return Ok(()),
        }
    }
    Ok(())
}
