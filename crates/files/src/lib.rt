// Writing a page, and reading a file, so that a read that fails is told from the file's end.
#![tactic(auto)]

ghost use Rattle.std.specs.Prelude.{◌↔◌, ◌<◌, IfErr, IfOk, IsErrOf, length, take};
ghost use Rattle.std.specs.Io.KnownBytes.{Consumes, IsAtEnd};
ghost use Rattle.files.specs.Counts.{IsPrefixLen};
ghost use Rattle.files.specs.Failures.{bytes_before};

use std::env::FillError;
use std::fs::File;
use std::io::Read;
use std::rt::{Env, Files};
use std::{fmt, io};

// The bytes of the longest argument that is taken: no file has a longer name.
pub const NAME_BYTES: usize = 4096;

// Why a program ends without an answer.
#[derive(Drop)]
pub enum Failure<'a> {
    // What could not be opened or written, as the caller names it, and why.
    Io(&'a str, io::Error),
    // What could not be read to its end, how many bytes of it were read before that, and why.
    Read(&'a str, usize, io::Error),
    // A name that is no UTF-8 cannot be opened.
    Name,
    // The answer has no room on its page.
    Room,
    // The arguments are not what the program takes, as it says itself.
    Usage(&'static str),
}

impl fmt::Display for Failure<'_> {
    fn fmt<W: fmt::Write>(&self, f: &mut fmt::Formatter<W>) -> fmt::Result {
        match self {
            Failure::Io(name, why) => write!(f, "{name}: {why}"),
            Failure::Read(name, _, why) => write!(f, "{name}: {why}"),
            Failure::Name => write!(f, "a file cannot be opened whose name is no UTF-8"),
            Failure::Room => write!(f, "the answer has no room on its page"),
            Failure::Usage(text) => write!(f, "{text}"),
        }
    }
}

// Reads until the buffer is full or the reader ends, and answers how many bytes were read.
pub fn read_all<'a, R: Read>(
    name: &'a str,
    from: &mut R,
    to: &mut [u8],
) -> Result<usize, Failure<'a>>
    ensures in_bounds { IfOk result (λ n. IsPrefixLen n to.new) }
    ensures bytes { IfOk result (λ n. Consumes (R.remaining from.old) (R.remaining from.new) (take n to.new)) }
    ensures end { IfOk result (λ n. n < length to.new → IsAtEnd (R.remaining from.new)) }
    ensures failed { IfErr result (λ why. IsPrefixLen (bytes_before why) to.new) }
{
    let mut done = 0;
    while done < to.len() {
        match from.read(&mut to[done..]) {
            Ok(0) => break,
            Ok(n) => done += n,
            Err(why) => return Err(Failure::Read(name, done, why)),
        }
    }
    Ok(done)
}

// Reads the named file.
pub fn read_file<'a>(rt: &impl Files, path: &'a [u8], to: &mut [u8]) -> Result<usize, Failure<'a>>
    ensures in_bounds { IfOk result (λ n. IsPrefixLen n to.new) }
    ensures failed { IfErr result (λ why. IsPrefixLen (bytes_before why) to.new) }
{
    let Ok(name) = str::from_utf8(path) else {
        return Err(Failure::Name);
    };
    let mut file = File::open(rt, name).map_err(|why| Failure::Io(name, why))?;
    read_all(name, &mut file, to)
}

// How many arguments the program was started with, its own name among them.
pub fn argument_count(rt: &impl Env) -> usize {
    for i in 0..usize::MAX {
        if let Err(FillError::NotPresent) = rt.arg(i, &mut []) {
            return i;
        }
    }
    usize::MAX
}

// Puts an argument at the buffer's start, and answers its length.
pub fn argument(rt: &impl Env, i: usize, to: &mut [u8]) -> Result<usize, FillError>
    ensures { IfOk result (λ n. IsPrefixLen n to.new) }
{
    rt.arg(i, to)
}

// Writes the first so many bytes of a page to standard output. A place beyond the page, which its
// writers answer where they had no room, writes nothing.
pub fn print(rt: &impl Print, page: &[u8], bytes: usize) -> Result<(), Failure<'static>>
    ensures { IsErrOf result Failure.Room ↔ (length page.now < bytes) }
{
    if page.len() < bytes {
        return Err(Failure::Room);
    }
    rt.write_all(&page[..bytes])
        .map_err(|why| Failure::Io("standard output", why))
}
