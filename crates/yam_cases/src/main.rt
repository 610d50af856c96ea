// Runs cases through the library and prints their answers: what stands on standard input is in `stdin`, what must come out in `stdout`.
//
// A case is a letter and numbers in hex, each after a space or a newline; there are no empty lines. Cases of words:
//   k  the configuration of the cases that follow: 19 numbers in the order of words::Config
//   r  reads a word: the word; prints the word, document 01's number, and the parts row, flag, destination, source, number, value
//   w  writes parts: row, flag, destination, source, number, value; prints the parts, the number and the word
// Cases of certificates:
//   t  checks: an image and a certificate, each a length and as many numbers, under the configuration; prints document 01's number, and but for 1 and 2
//      the address and rule that it names and the level at address 0
// Cases of steps give a state first, and keep what a call leaves for the next call:
//   i, p, a, v  the image, the inputs, the log's addresses, the log's values: a length and as many numbers
//   g, d  register memory, data memory: the length, a count, and as many pairs of cell and value; the other cells are 0
//   m  the machine record: the 16 numbers of the core: PC, WP, RX, RY, loaded, N, Z, SPR7, depth, IMask, the saved mask,
//      mode, posted, port, taken, logged; then the return stack: a count and as many addresses; the rest is 0
//   z  the machine at reset
//   s  one step: prints document 01's number, the cycles, the core, the return stack's cells that are not 0, and the cells of both memories and of
//      the log that are not as they were before the call
//   u  a run: its budget; prints the number, steps and cycles, then as for a step
// Lists hold at most 256 words of image, 64 inputs, 64 places of log, 1,024 registers, 2,048 data cells and 63 addresses: what is beyond is left out.
// From # to the end of a line is a comment, which is printed as it stands.
#![tactic(auto)]

mod check_cases;
mod print;
mod step_cases;
mod word_cases;

use std::io;
use step_cases::{Lists, Setting};

// How many cases are read at most.
const MOST_CASES: u32 = 1000000;

// One case.
fn case(
    rt: &(impl Input + Print),
    letter: u8,
    s: &mut Setting,
    lists: &mut Lists,
) -> io::Result<()> {
    if letter == b'#' {
        return case_input::echo_line(rt);
    }
    let _ = case_input::byte(rt)?;
    match letter {
        b'r' => word_cases::read_case(rt, s.config),
        b'w' => word_cases::write_case(rt, s.config),
        b't' => check_cases::check_case(rt, s.config),
        b's' => step_cases::step_case(rt, s, lists),
        b'u' => step_cases::run_case(rt, s, lists),
        _ => step_cases::given(rt, letter, s, lists),
    }
}

fn main(rt: HostRuntime) -> io::Result<()> {
    let mut lists = Lists::new();
    let mut s = Setting::new();
    for _ in 0..MOST_CASES {
        match case_input::byte(&rt)? {
            Some(letter) => case(&rt, letter, &mut s, &mut lists)?,
            None => return Ok(()),
        }
    }
    Ok(())
}
