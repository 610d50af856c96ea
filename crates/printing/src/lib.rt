// Writers of bytes on a lent page that take any page and any place (specs/Puts.antt): a writer without room answers a place beyond the page, and so does
// every writer from such a place on.
#![tactic(auto)]

ghost use Rattle.std.specs.Prelude.{◌<◌, ◌≡◌, length, get_or};
ghost use Rattle.syntax.specs.Digits.{hex};
ghost use Rattle.printing.specs.Numerals.{decimal, refusal_line};
ghost use Rattle.printing.specs.Entries.{shown_word, IsAfterError, entry_of, EntryIsLine};
ghost use Rattle.printing.specs.Puts.{Puts};

mod digits;
mod printer;

use digits::decimal;
pub use printer::Printer;
use text::{TextError, has_room};
use words::Config;

// The bytes of the largest decimal number of 64 bits.
const DECIMAL_BYTES: usize = 20;

const ADDRESS_DIGITS: usize = 6;

const WORD_DIGITS: usize = 8;

// A place beyond a page of so many bytes.
fn beyond(page: &[u8]) -> usize
    ensures { length page.now < result }
{
    page.len() + 1
}

// Puts the bytes.
pub fn put_bytes(page: &mut [u8], at: usize, bytes: &[u8]) -> usize
    ensures { Puts page.old at bytes.now result page.new }
{
    if !has_room(page.len(), at, bytes.len()) {
        return beyond(page);
    }
    text::put_bytes(page, at, bytes)
}

// Puts the low w hex digits of n.
pub fn put_hex(page: &mut [u8], at: usize, w: usize, n: u64) -> usize
    ensures { Puts page.old at (hex w n) result page.new }
{
    if !has_room(page.len(), at, w) {
        return beyond(page);
    }
    text::put_hex(page, at, w, n)
}

// Puts n in decimal.
pub fn put_decimal(page: &mut [u8], at: usize, n: u64) -> usize
    ensures { Puts page.old at (decimal n) result page.new }
{
    let mut digits = [0u8; DECIMAL_BYTES];
    let k = decimal(n, &mut digits);
    put_bytes(page, at, &digits[..k])
}

// Puts the line of a refusal.
pub fn put_refusal(page: &mut [u8], at: usize, number: u32) -> usize
    ensures { Puts page.old at (refusal_line number) result page.new }
{
    let i = put_bytes(page, at, b"refused ");
    let j = put_decimal(page, i, number as u64);
    put_bytes(page, j, b"\n")
}

// The place after an error: beyond the page where it has no room, else the given place.
fn after_error(why: TextError, page: &[u8], at: usize) -> usize
    ensures { IsAfterError why page.now at result }
{
    match why {
        TextError::NoRoom => beyond(page),
        TextError::Unread(_) => at,
        TextError::TooLong => at,
    }
}

// Puts what stands in a listing for word w; nothing where the configuration is unlawful.
pub fn put_shown(c: Config, w: u32, page: &mut [u8], at: usize) -> usize
    ensures { Puts page.old at (shown_word c w) result page.new }
{
    match text::shown(c, w, page, at) {
        Ok(after) => after,
        Err(why) => after_error(why, page, at),
    }
}

fn word_at(image: &[u32], address: usize) -> u32
    ensures { result ≡ get_or image.now address 0 }
{
    image.get(address).copied().unwrap_or(0)
}

// Puts a listing's line of an address, but for its newline.
pub fn put_entry(c: Config, image: &[u32], address: usize, page: &mut [u8], at: usize) -> usize
    ensures { Puts page.old at (entry_of c image.now address) result page.new × EntryIsLine }
{
    let w = word_at(image, address);
    let i = put_hex(page, at, ADDRESS_DIGITS, address as u64);
    let j = put_bytes(page, i, b" ");
    let k = put_hex(page, j, WORD_DIGITS, w as u64);
    let l = put_bytes(page, k, b" ");
    put_shown(c, w, page, l)
}
