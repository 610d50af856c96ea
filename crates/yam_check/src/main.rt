// Checks an image file against its certificate (document 01's sheet): the image file stands on standard input, the argument names the certificate, a byte
// an address. It prints "passes level" and the level at address 0, or the line of a refusal, and under 17 the address, its rule and the listing's line of
// that address. specs/Verdict.antt says what is printed. What cannot be read or written is said on standard error.
#![tactic(auto, using(printing::proofs::Printers::prints_then))]

ghost use Rattle.std.specs.Prelude.{Err};
ghost use Rattle.certificate.specs.Answers.{answer_of};
ghost use Rattle.printing.specs.Printers.{Prints};
ghost use Rattle.yam_check.specs.Verdict.{passes_line, broken_lines, verdict_text, verdict_of};

use certificate::Fault;
use files::{Failure, NAME_BYTES, argument, argument_count, read_all, read_file};
use opening::{FILE_BYTES, WORDS};
use printing::Printer;
use std::io::Read;
use std::rt::{Env, Files};
use words::Config;

// More than the longest answer has.
const PAGE_BYTES: usize = 256;

const ADDRESS_DIGITS: usize = 6;

fn put_passes(p: &mut Printer, level: u32)
    ensures { Prints p.old (passes_line level) p.new }
{
    p.bytes(b"passes level ");
    p.decimal(level as u64);
    p.bytes(b"\n");
}

fn put_broken(p: &mut Printer, c: Config, image: &[u32], address: u32, rule: u32)
    ensures { Prints p.old (broken_lines c image.now address rule) p.new }
{
    p.bytes(b"refused 17 address ");
    p.hex(ADDRESS_DIGITS, address as u64);
    p.bytes(b" rule ");
    p.decimal(rule as u64);
    p.bytes(b"\n");
    p.entry(c, image, address as usize);
    p.bytes(b"\n");
}

// What is printed of a check that does not pass.
fn put_fault(p: &mut Printer, c: Config, image: &[u32], fault: Fault)
    ensures { Prints p.old (verdict_text c image.now (answer_of (Err fault))) p.new }
{
    match fault {
        Fault::Unlawful => p.refusal(1),
        Fault::WrongLength => p.refusal(2),
        Fault::Broken { address, rule } => put_broken(p, c, image, address, rule.number()),
    }
}

// What is printed of the check's answer.
fn put_verdict(p: &mut Printer, c: Config, image: &[u32], r: Result<u32, Fault>)
    ensures { Prints p.old (verdict_text c image.now (answer_of r)) p.new }
{
    match r {
        Ok(level) => put_passes(p, level),
        Err(fault) => put_fault(p, c, image, fault),
    }
}

// Opens the file, checks its words and puts the verdict.
fn verdict(p: &mut Printer, file: &[u8], certificate: &[u8], image: &mut [u32])
    ensures { Prints p.old (verdict_of file.now certificate.now image.old) p.new }
{
    match opening::open(file, image) {
        Err(refusal) => p.refusal(refusal.number()),
        Ok(c) => {
            let words = opening::first(c.imsize as usize, image);
            let r = certificate::check(c, words, certificate);
            put_verdict(p, c, words, r);
        }
    }
}

// Reads the image file and the certificate, and prints the verdict. `name` takes the certificate's name.
fn check<'a>(
    rt: &(impl Env + Files + Print),
    from: &mut impl Read,
    name: &'a mut [u8],
) -> Result<(), Failure<'a>> {
    if argument_count(rt) != 2 {
        return Err(Failure::Usage("usage: yam_check CERTIFICATE <IMAGE"));
    }
    let Ok(length) = argument(rt, 1, name) else {
        return Err(Failure::Usage("yam_check: the argument is too long"));
    };
    let mut file = [0u8; FILE_BYTES + 1];
    let bytes = read_all("standard input", from, &mut file)?;
    let mut certificate = [0u8; WORDS + 1];
    let marks = read_file(rt, &name[..length], &mut certificate)?;
    let mut image = [0u32; WORDS];
    let mut page = [0u8; PAGE_BYTES];
    let mut p = Printer {
        page: &mut page,
        at: 0,
    };
    verdict(&mut p, &file[..bytes], &certificate[..marks], &mut image);
    let end = p.at;
    files::print(rt, &page, end)
}

fn main(rt: HostRuntime) {
    let mut name = [0u8; NAME_BYTES];
    if let Err(why) = check(&rt, &mut rt.stdin(), &mut name) {
        let _ = eprintln!(rt; "{why}");
    }
}
