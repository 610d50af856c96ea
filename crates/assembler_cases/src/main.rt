// Assembles source texts and prints the answers: what stands on standard input is in `stdin`, what must come out in `stdout`.
//
// A case is a letter, a space, and numbers in hex or a text; there are no empty lines. A text goes to the end of the line; a backslash and two hex digits
// in it are that byte, so \0a is a newline.
//   k  the configuration of the cases that follow: 19 numbers in the order of words::Config
//   t  adds a text to the source
//   r  a number, and a text that is added so many times
//   l  adds so many lone labels, one a line, all different
//   a  assembles the source with so many words lent, and empties it; prints document 02's number, the line and the count in decimal, and the words that
//      are not as they were before, in hex
//   e  assembles the source with each byte value after it, as many words lent, and empties it; prints the byte in hex and the answer, where that is
//      another than the byte's before it
// A source has at most 16,384 bytes, and 64 words are lent at most: what is beyond is left out.
// From # to the end of a line is a comment, which is printed as it stands.
#![tactic(auto)]

mod source;

use assembler::AssembleError;
use std::io;
use words::Config;

// How many cases are read at most.
const MOST_CASES: u32 = 100000;

// What a word holds before it is written, and how many are lent at most.
const OLD: u32 = 0xa5a5a5a5;

const LENT: usize = 64;

const SOURCE_BYTES: usize = 16384;

// Assembles the first bytes of the source with the first words lent.
fn assemble_lent(
    c: Config,
    source: &[u8],
    bytes: usize,
    words: &mut [u32],
    lent: usize,
) -> Result<usize, AssembleError> {
    let end = bytes.min(source.len());
    let size = lent.min(words.len());
    assembler::assemble(c, &source[..end], &mut words[..size])
}

fn put_answer(rt: &impl Print, r: Result<usize, AssembleError>) -> io::Result<()> {
    match r {
        Ok(count) => print!(rt; " 0 0 {count}"),
        Err(error) => print!(rt; " {} {} 0", error.number(), error.line().unwrap_or(0)),
    }
}

fn assemble_case(
    rt: &impl Print,
    c: Config,
    source: &[u8],
    bytes: usize,
    lent: usize,
) -> io::Result<()> {
    let mut words = [OLD; LENT];
    let r = assemble_lent(c, source, bytes, &mut words, lent);
    print!(rt; "assemble")?;
    put_answer(rt, r)?;
    print!(rt; ":")?;
    for (at, word) in words.iter().enumerate() {
        if *word != OLD {
            print!(rt; " {at:x}={word:08x}")?;
        }
    }
    println!(rt)
}

// Assembles with each byte more; prints an answer unless it is the one of the byte before.
fn every_byte(
    rt: &impl Print,
    c: Config,
    source: &mut [u8],
    bytes: usize,
    lent: usize,
) -> io::Result<()> {
    let mut before: Option<Result<usize, AssembleError>> = None;
    for byte in 0..=255 {
        let end = source::add(source, bytes, byte);
        let mut words = [OLD; LENT];
        let r = assemble_lent(c, source, end, &mut words, lent);
        if before != Some(r) {
            print!(rt; "byte {byte:02x}")?;
            put_answer(rt, r)?;
            println!(rt)?;
        }
        before = Some(r);
    }
    Ok(())
}

// One case that is not a configuration; answers the bytes of the source after it.
fn case(
    rt: &(impl Input + Print),
    letter: u8,
    c: Config,
    source: &mut [u8],
    bytes: usize,
) -> io::Result<usize> {
    if letter == b't' {
        return source::add_text(rt, source, bytes);
    }
    let n = case_input::word(rt)?;
    match letter {
        b'r' => return source::add_times(rt, source, bytes, n),
        b'l' => return Ok(source::add_labels(source, bytes, n)),
        b'a' => assemble_case(rt, c, source, bytes, n as usize)?,
        b'e' => every_byte(rt, c, source, bytes, n as usize)?,
        _ => (),
    }
    Ok(0)
}

fn main(rt: HostRuntime) -> io::Result<()> {
    let mut c = Config::default();
    let mut source = [0u8; SOURCE_BYTES];
    let mut bytes: usize = 0;
    for _ in 0..MOST_CASES {
        let letter = match case_input::byte(&rt)? {
            Some(letter) => letter,
            None => return Ok(()),
        };
        if letter == b'#' {
            case_input::echo_line(&rt)?;
        } else {
            let _ = case_input::byte(&rt)?;
            if letter == b'k' {
                c = case_input::config(&rt)?;
            } else {
                bytes = case(&rt, letter, c, &mut source, bytes)?;
            }
        }
    }
    Ok(())
}
