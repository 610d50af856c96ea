// The tables: a caller that reads or writes many words takes them once and lends them to `read_word_lent` or `write_word_lent`.
ghost use Rattle.std.specs.Prelude.{◌≡◌};
ghost use Rattle.words.specs.Claims.{ClassesExact};
ghost use Rattle.words.specs.Packed.{class_table, base_table, row_table, option_table, limit_table};

use crate::classes::CLASSES;
use crate::columns::{BASES, ROWS};
use crate::{Config, layout};

// The class of each value of bits 31-23, which names exactly the rows that have it.
pub fn class_table() -> [u8; 512]
    ensures { (result ≡ class_table) × ClassesExact }
{
    CLASSES
}

pub fn base_table() -> [u32; 131]
    ensures { result ≡ base_table }
{
    BASES
}

pub fn row_table() -> [u64; 131]
    ensures { result ≡ row_table }
{
    ROWS
}

// Whether the configuration has an option, by its number (specs/Codes.antt).
pub fn option_table(c: Config) -> [bool; 16]
    ensures { result ≡ option_table c }
{
    [
        true, // always
        c.alumult == 1, // mult
        0 < c.alulevel, // level 1
        1 < c.alulevel, // level 2
        (1 < c.alulevel) & (0 < c.dmsize), // level 2 with memory
        0 < c.dmsize, // memory
        c.iopif == 1, // ports
        c.ioprmw == 1, // rmw
        c.regsize < c.rmsize, // banks
        c.aluspr == 1, // spr
        false, // never
        false,
        false,
        false,
        false,
        false,
    ]
}

// What a part stays below, by its number (specs/Codes.antt).
pub fn limit_table(c: Config) -> [u32; 16]
    ensures { result ≡ limit_table c }
{
    [
        1, // unused
        2, // flag
        c.regwidth / 8, // byte number
        32, // coprocessor
        c.regsize, // register
        64, // unit
        16, // mask
        layout::LOWER_VALUES, // immediate
        c.dmsize, // address that is read
        c.dmsize, // address that is written
        c.imsize, // target
        16, // shift count
        c.imsize, // JSRWP's address
        256, // short immediate
        256,
        256,
    ]
}
