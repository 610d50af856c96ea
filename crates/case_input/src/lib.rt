// What the programs that run cases read: bytes and numbers of standard input, and a configuration.
//
// A number is hex digits up to the first byte that is none, which is passed over. From # to the end
// of a line is a comment, which a program prints as it stands.
#![tactic(auto)]

ghost use Rattle.std.specs.Prelude.{◌≡◌, ◌+◌, ◌*◌, ◌%◌, ◌^◌, ◌<◌};
ghost use Rattle.case_input.specs.Digits.{hex_digit};

use std::io;
use std::io::Read;
use words::Config;

const NEWLINE: u8 = 10;

// How many values a word has.
const WORDS: u64 = 1 << 32;

// How many digits of a number are read, and how many bytes of a comment are printed.
const DIGITS: usize = 64;

const COMMENT: usize = 200;

// The next byte, where there is one.
pub fn byte(rt: &impl Input) -> io::Result<Option<u8>> {
    let mut one = [0u8; 1];
    let got = rt.reader().read(&mut one)?;
    Ok(if got == 1 { Some(one[0]) } else { None })
}

// The value of a hex digit.
#[tactic(auto, unfolding(crate::specs::Digits::hex_digit))]
pub fn digit(b: u8) -> Option<u8>
    ensures { result ≡ hex_digit b }
{
    match b {
        b'0'..=b'9' => Some(b - b'0'),
        b'a'..=b'f' => Some(b - b'a' + 10),
        _ => None,
    }
}

// A number with one digit more: its low 64 bits.
pub fn shifted_in(number: u64, digit: u8) -> u64
    ensures { result ≡ (number * 16 + digit) % 2 ^ 64 }
{
    number.wrapping_mul(16).wrapping_add(digit as u64)
}

// The next number: its low 64 bits.
pub fn number(rt: &impl Input) -> io::Result<u64> {
    let mut v = 0;
    for _ in 0..DIGITS {
        match byte(rt)?.and_then(digit) {
            Some(d) => v = shifted_in(v, d),
            None => return Ok(v),
        }
    }
    Ok(v)
}

// The low 32 bits of the next number.
pub fn word(rt: &impl Input) -> io::Result<u32> {
    Ok((number(rt)? % WORDS) as u32)
}

// The same as a length.
pub fn length(rt: &impl Input) -> io::Result<usize> {
    Ok(word(rt)? as usize)
}

// The next number as a place, of 64 bits.
pub fn place(rt: &impl Input) -> io::Result<usize> {
    Ok(number(rt)? as usize)
}

// A configuration: its 19 numbers in the order of words::Config.
pub fn config(rt: &impl Input) -> io::Result<Config> {
    Ok(Config {
        imwidth: word(rt)?,
        imsize: word(rt)?,
        regwidth: word(rt)?,
        regsize: word(rt)?,
        rmsize: word(rt)?,
        pcstack: word(rt)?,
        dmsize: word(rt)?,
        dmpipe: word(rt)?,
        alulevel: word(rt)?,
        alumult: word(rt)?,
        aluspr: word(rt)?,
        iopif: word(rt)?,
        ioprmw: word(rt)?,
        yamclk: word(rt)?,
        yamsreg3: word(rt)?,
        alu3op: word(rt)?,
        irqif: word(rt)?,
        copmsize: word(rt)?,
        yamdbg: word(rt)?,
    })
}

// Prints what is left of the line, with a # before it.
pub fn echo_line(rt: &(impl Input + Print)) -> io::Result<()> {
    rt.write_all(b"#")?;
    for _ in 0..COMMENT {
        match byte(rt)? {
            Some(b) => {
                rt.write_all(&[b])?;
                if b == NEWLINE {
                    return Ok(());
                }
            }
            None => return Ok(()),
        }
    }
    Ok(())
}
