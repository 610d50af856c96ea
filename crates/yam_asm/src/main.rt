// Assembles: source text stands on standard input, the image file of its words goes to standard output, IM_SIZE words with zeros after the source's. The
// argument names an image file, whose block 0 is the configuration. A refusal gives the line "refused" with the documents' number, and beside 24, 25,
// 26, 6 and 7 "line" with the source's line; so does, with 2, an image file past 34,304 bytes (67 blocks, the file of 8,192 words) or a source past
// 1,048,576 bytes. What cannot be opened, read or written is said on standard error.
#![tactic(auto)]

ghost use Rattle.std.specs.Prelude.{◌≡◌};
ghost use Rattle.yam_asm.specs.Making.{made_by, made_of, refused_line, refused_number};
ghost use Rattle.yam_asm.specs.declared.Refused.TheVariants.{Open, Assemble, Store};

use assembler::AssembleError;
use files::{Failure, NAME_BYTES, argument, argument_count, read_all, read_file};
use opening::{FILE_BYTES, WORDS};
use std::fmt;
use std::io::Read;
use std::rt::{Env, Files};
use words::Config;

const SOURCE_BYTES: usize = 1048576;

// Why there is no image.
#[derive(Clone, Copy)]
enum Refused {
    // The source is past 1,048,576 bytes.
    TooLong,
    Open(opening::Refusal),
    Assemble(AssembleError),
    Store(image::Refusal),
}

impl Refused {
    // The documents' number.
    fn number(self) -> u32
        ensures { result ≡ refused_number self }
    {
        match self {
            Refused::TooLong => 2,
            Refused::Open(why) => why.number(),
            Refused::Assemble(why) => why.number(),
            Refused::Store(why) => why.number(),
        }
    }

    // The source's line, where it is one of a line.
    fn line(self) -> Option<usize>
        ensures { result ≡ refused_line self }
    {
        match self {
            Refused::Assemble(why) => why.line(),
            _ => None,
        }
    }
}

impl fmt::Display for Refused {
    fn fmt<W: fmt::Write>(&self, f: &mut fmt::Formatter<W>) -> fmt::Result {
        let number = self.number();
        match self.line() {
            Some(line) => write!(f, "refused {number} line {line}"),
            None => write!(f, "refused {number}"),
        }
    }
}

impl From<opening::Refusal> for Refused {
    ghost from_gives = { λ why e. e ≡ Open why };

    fn from(why: opening::Refusal) -> Refused {
        Refused::Open(why)
    }
}

impl From<AssembleError> for Refused {
    ghost from_gives = { λ why e. e ≡ Assemble why };

    fn from(why: AssembleError) -> Refused {
        Refused::Assemble(why)
    }
}

impl From<image::Refusal> for Refused {
    ghost from_gives = { λ why e. e ≡ Store why };

    fn from(why: image::Refusal) -> Refused {
        Refused::Store(why)
    }
}

// Why the program ends without an image: what is said on standard error, or the line that it prints.
#[derive(Drop)]
enum Stop<'a> {
    Failure(Failure<'a>),
    Refused(Refused),
}

impl<'a> From<Failure<'a>> for Stop<'a> {
    fn from(failure: Failure<'a>) -> Stop<'a> {
        Stop::Failure(failure)
    }
}

impl<'a> From<Refused> for Stop<'a> {
    fn from(refused: Refused) -> Stop<'a> {
        Stop::Refused(refused)
    }
}

impl<'a> From<opening::Refusal> for Stop<'a> {
    fn from(refusal: opening::Refusal) -> Stop<'a> {
        Stop::Refused(Refused::from(refusal))
    }
}

// Assembles the source into the image and writes the image's file. Where the image was IM_SIZE zeros and the file is as long as one of the
// configuration, no number is answered but those of `assembler::assemble`.
fn assemble_image(
    c: Config,
    source: &[u8],
    image: &mut [u32],
    file: &mut [u8],
) -> Result<(), Refused>
    ensures { made_by result file.new ≡ made_of c source.now image.old file.old }
{
    assembler::assemble(c, source, image)?;
    image::store(c, image, file)?;
    Ok(())
}

// Reads the source and assembles it; writes the image file, which is as long as the configuration's.
fn assemble_source<'a>(
    rt: &impl Print,
    from: &mut impl Read,
    c: Config,
    source: &mut [u8],
    image: &mut [u32],
    file: &mut [u8],
) -> Result<(), Stop<'a>> {
    let bytes = read_all("standard input", from, source)?;
    if SOURCE_BYTES < bytes {
        return Err(Stop::from(Refused::TooLong));
    }
    let size = opening::count(c.imsize as usize, image);
    assemble_image(c, &source[..bytes], &mut image[..size], file)?;
    files::print(rt, file, file.len())?;
    Ok(())
}

// Takes the configuration from the named file, and assembles. `name` takes the file's name, `source` the source.
fn assemble<'a>(
    rt: &(impl Env + Files + Print),
    from: &mut impl Read,
    name: &'a mut [u8],
    source: &mut [u8; SOURCE_BYTES + 1],
) -> Result<(), Stop<'a>> {
    if argument_count(rt) != 2 {
        return Err(Stop::from(Failure::Usage("usage: yam_asm CONFIG.img <SOURCE >OUT.img")));
    }
    let Ok(length) = argument(rt, 1, name) else {
        return Err(Stop::from(Failure::Usage("yam_asm: the argument is too long")));
    };
    let mut file = [0u8; FILE_BYTES + 1];
    let bytes = read_file(rt, &name[..length], &mut file)?;
    let mut loaded = [0u32; WORDS];
    let c = opening::open(&file[..bytes], &mut loaded)?;
    let mut image = [0u32; WORDS];
    assemble_source(rt, from, c, source, &mut image, &mut file[..bytes])
}

fn main(rt: HostRuntime) {
    let mut name = [0u8; NAME_BYTES];
    let mut source = [0u8; SOURCE_BYTES + 1];
    let why = match assemble(&rt, &mut rt.stdin(), &mut name, &mut source) {
        Ok(()) => return,
        Err(Stop::Failure(why)) => why,
        Err(Stop::Refused(refused)) => match println!(rt; "{refused}") {
            Ok(()) => return,
            Err(why) => Failure::Io("standard output", why),
        },
    };
    let _ = eprintln!(rt; "{why}");
}
