// Prints the listing of an image file: the file stands on standard input, the listing goes to standard output. A file that is refused gives the line
// "refused" with document 01's number; so does one past 34,304 bytes (67 blocks, the file of 8,192 words), with 2. specs/Printing.antt says what is printed.
// What cannot be read or written is said on standard error.
#![tactic(auto)]

ghost use Rattle.std.specs.Prelude.{◌<◌, ◌≤◌, length, take};
ghost use Rattle.laws.specs.Test.{Holds};
ghost use Rattle.text.specs.Claims.{Lists, lines_to_end};
ghost use Rattle.printing.specs.Numerals.{refusal_line};
ghost use Rattle.words.specs.Configs.{lawful};
ghost use Rattle.yam_list.specs.Claims.{Opens, Prints, Ready, size_of, to_come};

use files::Failure;
use opening::{FILE_BYTES, Refusal, WORDS};
use std::io::Read;
use text::Listed;
use words::Config;

const PAGE_BYTES: usize = 65536;

// The bytes of the longest line of a refusal.
const REFUSAL_BYTES: usize = 11;

// How many bytes of a page were filled, and the address of the next line where more is to come.
#[derive(Clone, Copy)]
struct Printed {
    bytes: usize,
    next: Option<usize>,
}

// Loads the file into the image.
fn load_file(file: &[u8], image: &mut [u32; WORDS]) -> Result<Config, Refusal>
    ensures { Opens file.now image.old result image.new }
{
    opening::open(file, image)
}

// Prints the line of a refusal on a page.
fn print_refusal(n: u32, next: usize, page: &mut [u8]) -> Printed
    requires { n < 100 }
    ensures { Prints (λ _. refusal_line n) 0 next page.old result page.new }
{
    if page.len() < REFUSAL_BYTES {
        return Printed {
            bytes: 0,
            next: Some(next),
        };
    }
    let bytes = printing::put_refusal(page, 0, n);
    Printed { bytes, next: None }
}

// Lists as many of the image's lines from address `first` on as a page holds.
fn list_page(c: Config, image: &[u32], first: usize, page: &mut [u8]) -> Listed
    ensures { Lists c image.now first page.old 0 result page.new }
{
    text::list(c, image, first, page, 0)
}

// Prints lines of a listing on a page.
fn print_lines(c: Config, image: &[u32], next: usize, page: &mut [u8]) -> Printed
    requires { Holds (lawful c) × (c.imsize ≤ length image.now) }
    ensures { Prints (lines_to_end c (take c.imsize image.now)) c.imsize next page.old result page.new }
{
    let size = c.imsize as usize;
    let r = list_page(c, &image[..size], next, page);
    Printed {
        bytes: r.place,
        next: match r.outcome {
            Ok(()) => None,
            Err(_) => Some(r.next),
        },
    }
}

// Prints on a page what is to come, from the line of address `next` on.
fn print_page(
    loaded: Result<Config, Refusal>,
    image: &[u32],
    next: usize,
    page: &mut [u8],
) -> Printed
    requires { Ready loaded image.now }
    ensures { Prints (to_come loaded image.now) (size_of loaded) next page.old result page.new }
{
    match loaded {
        Ok(c) => print_lines(c, image, next, page),
        Err(refusal) => print_refusal(refusal.number(), next, page),
    }
}

// Writes page after page, until no more is to come.
fn print_all(
    rt: &impl Print,
    loaded: Result<Config, Refusal>,
    image: &[u32],
) -> Result<(), Failure<'static>>
    requires { Ready loaded image.now }
{
    let mut page = [0u8; PAGE_BYTES];
    let mut come = Some(0);
    while let Some(next) = come {
        let r = print_page(loaded, image, next, &mut page);
        files::print(rt, &page, r.bytes)?;
        come = r.next;
    }
    Ok(())
}

// Reads the image file and prints its listing.
fn list(rt: &impl Print, from: &mut impl Read) -> Result<(), Failure<'static>> {
    let mut file = [0u8; FILE_BYTES + 1];
    let bytes = files::read_all("standard input", from, &mut file)?;
    let mut image = [0u32; WORDS];
    let loaded = load_file(&file[..bytes], &mut image);
    print_all(rt, loaded, &image)
}

fn main(rt: HostRuntime) {
    if let Err(why) = list(&rt, &mut rt.stdin()) {
        let _ = eprintln!(rt; "{why}");
    }
}
