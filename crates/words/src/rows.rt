// The row of a word, and what a lent table holds of it.
ghost use Rattle.std.specs.Prelude.{◌≡◌, ◌/◌, ◌%◌, ◌<◌, get_or};
ghost use Rattle.laws.specs.Choice.{pick as choice};
ghost use Rattle.words.specs.Classes.{none, lookup, port_rows, mask_rows, row_of};

use crate::classes::{INDEX, IRQ_SWITCH, MISC, NONE, PORT, UPPER_BYTES};
use crate::numbers::{BYTE_ROWS, INDEX_ROWS, MISC_ROWS};
use crate::{layout, numbers};

// Bits 15-8, which choose the row at level 2.
const LEVEL2: u32 = 0x100;

const LEVEL2_CODES: u32 = 256;

// Bit 15, which makes a port read IORMW.
const MODIFY: u32 = 0x8000;

// Bit 22, which makes IRQ_ON IRQ_OFF.
const SWITCH_OFF: u32 = 0x400000;

// One of two values, by a test.
pub fn pick<T: Copy>(b: bool, x: T, y: T) -> T
    ensures { result ≡ choice b x y }
{
    if b { x } else { y }
}

// What a lent table holds at n; past its end `none`.
pub fn at_or<T: Copy>(table: &[T], n: u32, none: T) -> T
    ensures { result ≡ get_or table.now n none }
{
    table.get(n as usize).copied().unwrap_or(none)
}

// The row or class that a table of bytes names at n; past its end none.
pub fn named_at(table: &[u8], n: u32) -> u32
    ensures { result ≡ get_or table.now n none }
{
    at_or(table, n, NONE as u8) as u32
}

// By bit 15 of f.
fn port_row(f: u32) -> u32
    ensures { result ≡ lookup port_rows (f / 32768 % 2) }
{
    numbers::MOVIO_READ + f / MODIFY % 2
}

fn mask_row(n: u32) -> u32
    ensures { result ≡ lookup mask_rows n }
{
    pick(
        n == 0,
        numbers::IRQ_ON,
        pick(n == 1, numbers::IRQ_OFF, NONE),
    )
}

// The row of class c, where f is bits 22-0.
pub fn row_of(c: u32, f: u32) -> u32
    ensures { result ≡ row_of c f }
{
    if c < INDEX {
        return c;
    }
    match c {
        INDEX => named_at(&INDEX_ROWS, f / LEVEL2 % LEVEL2_CODES),
        UPPER_BYTES => named_at(&BYTE_ROWS, f / LEVEL2 % LEVEL2_CODES),
        PORT => port_row(f),
        IRQ_SWITCH => mask_row(f / SWITCH_OFF % 2),
        MISC => named_at(&MISC_ROWS, f / layout::UPPER),
        _ => NONE,
    }
}

// The digit of weight `weight` in a row's packed number.
pub fn digit(p: u64, weight: u64) -> u32
    requires { 0 < weight }
    ensures { result ≡ p / weight % 16 }
{
    (p / weight % 16) as u32
}
