// Prints the generics of an image file, which stands on standard input, by their names; with the argument "words" its words. A file that is refused gives
// the line "refused" with document 01's number (specs/Generics.antt). What cannot be read or written is said on standard error.
#![tactic(auto, using(printing::proofs::Printers::prints_then))]

ghost use Rattle.parsing.specs.Words.{printed};
ghost use Rattle.printing.specs.Printers.{Prints};
ghost use Rattle.yam_config.specs.Claims.{ReadBack};
ghost use Rattle.yam_config.specs.Generics.{generic_line, generics_text, printed_of};

use files::{Failure, NAME_BYTES, argument, argument_count, read_all};
use opening::{FILE_BYTES, WORDS};
use printing::Printer;
use std::io::Read;
use std::rt::Env;
use words::Config;

// The bytes of 8,192 lines of a word.
const PAGE_BYTES: usize = 73728;

const WORD_DIGITS: usize = 8;

const GENERICS: usize = 19;

const USAGE: &str = "usage: yam_config [words] <IMAGE";

fn put_generic(p: &mut Printer, name: &[u8], value: u32)
    ensures { Prints p.old (generic_line name.now value) p.new }
{
    p.bytes(name);
    p.bytes(b"=");
    p.decimal(u64::from(value));
    p.bytes(b"\n");
}

// Puts the generics' lines, which name the configuration again (specs/Claims.antt).
fn put_generics(p: &mut Printer, c: Config)
    ensures { Prints p.old (generics_text c) p.new × ReadBack }
{
    let generics: [(&[u8], u32); GENERICS] = [
        (b"IM_SIZE", c.imsize),
        (b"REG_WIDTH", c.regwidth),
        (b"REG_SIZE", c.regsize),
        (b"RM_SIZE", c.rmsize),
        (b"PC_STACK", c.pcstack),
        (b"DM_SIZE", c.dmsize),
        (b"DM_PIPE", c.dmpipe),
        (b"ALU_LEVEL", c.alulevel),
        (b"ALU_MULT", c.alumult),
        (b"ALU_SPR", c.aluspr),
        (b"IOP_IF", c.iopif),
        (b"IOP_RMW", c.ioprmw),
        (b"YAM_CLK", c.yamclk),
        (b"YAM_SREG3", c.yamsreg3),
        (b"ALU_3OP", c.alu3op),
        (b"IRQ_IF", c.irqif),
        (b"COPM_SIZE", c.copmsize),
        (b"IM_WIDTH", c.imwidth),
        (b"YAM_DBG", c.yamdbg),
    ];
    for (name, value) in generics {
        put_generic(p, name, value);
    }
}

fn put_words(p: &mut Printer, words: &[u32])
    ensures { Prints p.old (printed words.now) p.new }
{
    for w in words {
        p.hex(WORD_DIGITS, u64::from(*w));
        p.bytes(b"\n");
    }
}

// Opens the file and puts its generics, its words where they are asked for, or its refusal.
fn put_file(p: &mut Printer, file: &[u8], asked: bool, image: &mut [u32])
    ensures { Prints p.old (printed_of asked file.now image.old) p.new }
{
    match opening::open(file, image) {
        Err(refusal) => p.refusal(refusal.number()),
        Ok(c) => {
            if asked {
                put_words(p, opening::first(c.imsize as usize, image));
            } else {
                put_generics(p, c);
            }
        }
    }
}

// Whether the words are asked for.
fn words_asked<'a>(rt: &impl Env) -> Result<bool, Failure<'a>> {
    let arguments = argument_count(rt);
    if arguments == 1 {
        return Ok(false);
    }
    let mut word = [0u8; NAME_BYTES];
    let Ok(length) = argument(rt, 1, &mut word) else {
        return Err(Failure::Usage("yam_config: the argument is missing or too long"));
    };
    let words: &[u8] = b"words";
    if (arguments != 2) | (&word[..length] != words) {
        return Err(Failure::Usage(USAGE));
    }
    Ok(true)
}

// Reads the image file and prints what is asked for.
fn print<'a>(rt: &(impl Env + Print), from: &mut impl Read) -> Result<(), Failure<'a>> {
    let asked = words_asked(rt)?;
    let mut file = [0u8; FILE_BYTES + 1];
    let bytes = read_all("standard input", from, &mut file)?;
    let mut image = [0u32; WORDS];
    let mut page = [0u8; PAGE_BYTES];
    let mut p = Printer {
        page: &mut page,
        at: 0,
    };
    put_file(&mut p, &file[..bytes], asked, &mut image);
    let end = p.at;
    files::print(rt, &page, end)
}

fn main(rt: HostRuntime) {
    if let Err(why) = print(&rt, &mut rt.stdin()) {
        let _ = eprintln!(rt; "{why}");
    }
}
