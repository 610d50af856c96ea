// A page with the place reached on it, and the writers as its methods.
ghost use Rattle.printing.specs.Numerals.{decimal, refusal_line};
ghost use Rattle.printing.specs.Entries.{entry_of};
ghost use Rattle.printing.specs.Printers.{Prints};
ghost use Rattle.syntax.specs.Digits.{hex};

use crate::{put_bytes, put_decimal, put_entry, put_hex, put_refusal};
use words::Config;

// A page, and the place reached on it: beyond the page once a writer had no room.
#[derive(Drop)]
pub struct Printer<'a> {
    pub page: &'a mut [u8],
    pub at: usize,
}

impl Printer<'_> {
    // Puts the bytes.
    pub fn bytes(&mut self, bytes: &[u8])
        ensures { Prints self.old bytes.now self.new }
    {
        self.at = put_bytes(self.page, self.at, bytes);
    }

    // Puts the low w hex digits of n.
    pub fn hex(&mut self, w: usize, n: u64)
        ensures { Prints self.old (hex w n) self.new }
    {
        self.at = put_hex(self.page, self.at, w, n);
    }

    // Puts n in decimal.
    pub fn decimal(&mut self, n: u64)
        ensures { Prints self.old (decimal n) self.new }
    {
        self.at = put_decimal(self.page, self.at, n);
    }

    // Puts the line of a refusal.
    pub fn refusal(&mut self, number: u32)
        ensures { Prints self.old (refusal_line number) self.new }
    {
        self.at = put_refusal(self.page, self.at, number);
    }

    // Puts a listing's line of an address, but for its newline.
    pub fn entry(&mut self, c: Config, image: &[u32], address: usize)
        ensures { Prints self.old (entry_of c image.now address) self.new }
    {
        self.at = put_entry(c, image, address, self.page, self.at);
    }
}
