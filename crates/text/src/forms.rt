// The pieces of a text, their lengths and their writers: no case of an operand is left to the writer.
ghost use Rattle.std.specs.Prelude.{◌≡◌, ◌<◌, ◌≤◌, ◌+◌, ◌++◌, length, get_or};
ghost use Rattle.words.specs.declared.Config.{Config};
ghost use Rattle.syntax.specs.Digits.{hex};
ghost use Rattle.syntax.specs.Forms.{text_of};
ghost use Rattle.text.specs.Pages.{Wrote};
ghost use Rattle.text.specs.Printed.{style_table};
ghost use Rattle.text.specs.Packed.{string, Named, piece_text, form_text, shown_part, last_mark, style_text};

use crate::columns::{STRINGS, STYLES};
use crate::pieces::{Form, Piece};
use crate::writers::{put_bytes, put_hex};
use words::Instruction;

impl Piece {
    #[tactic(auto, using(crate::proofs::forms::Laws::length_piece))]
    fn len(self) -> usize
        ensures { (result ≡ length (piece_text self)) × (result ≤ 263) }
    {
        self.bytes.len() + self.width as usize
    }

    #[inline(always)]
    #[tactic(auto, using(crate::proofs::forms::Laws::length_piece))]
    fn put(self, page: &mut [u8], at: usize) -> usize
        requires { at + length (piece_text self) ≤ length page.old }
        ensures { Wrote page.old at (piece_text self) result page.new }
    {
        let a = put_bytes(page, at, self.bytes);
        put_hex(page, a, self.width as usize, self.value)
    }
}

impl Form {
    #[tactic(auto, using(crate::proofs::forms::Laws::length_form))]
    pub fn len(self) -> usize
        ensures { (result ≡ length (form_text self)) × (result ≤ 1052) }
    {
        self.name.len() + self.first.len() + self.second.len() + self.last.len()
    }

    #[inline(always)]
    #[tactic(auto, using(crate::proofs::forms::Laws::length_form))]
    pub fn put(self, page: &mut [u8], at: usize) -> usize
        requires { at + length (form_text self) ≤ length page.old }
        ensures { Wrote page.old at (form_text self) result page.new }
    {
        let i = self.name.put(page, at);
        let j = self.first.put(page, i);
        let k = self.second.put(page, j);
        self.last.put(page, k)
    }
}

// A row's style, packed; past the rows none.
fn style_at(n: usize) -> u64
    ensures { result ≡ get_or style_table n 0 }
{
    if n < STYLES.len() { STYLES[n] } else { 0 }
}

fn string(k: usize) -> &'static [u8]
    requires { k < 69 }
    ensures { (result.now ≡ string k) × (length result.now ≤ 8) }
{
    STRINGS[k]
}

// String k, and digits of a value.
fn piece_of(k: usize, width: u8, value: u64) -> Piece
    requires { k < 69 }
    ensures { piece_text result ≡ string k ++ hex width value }
{
    Piece {
        bytes: string(k),
        width,
        value,
    }
}

// What the digits of an operand show.
fn shown_part(k: u64, i: Instruction) -> u64
    ensures { result ≡ shown_part k i }
{
    match k {
        1 => i.destination as u64,
        2 => i.source as u64,
        3 => i.value as u64,
        4 => 16 * (i.destination as u64),
        _ => 0,
    }
}

fn last_mark(flagged: u64, mark: usize, bit: u32) -> usize
    ensures { result ≡ last_mark flagged mark bit }
{
    if flagged == 1 && bit != 0 { 0 } else { mark }
}

// The pieces of an instruction's text, where p is its row's packed style.
fn form_in(p: u64, i: Instruction) -> Form
    requires { Named 69 p }
    ensures { form_text result ≡ style_text p i }
{
    let mark = last_mark(
        p / 0x10000000000000 % 16,
        (p / 0x100000000000 % 256) as usize,
        i.flag,
    );
    Form {
        name: piece_of((p % 256) as usize, (p / 0x100 % 16) as u8, i.number as u64),
        first: piece_of(
            (p / 0x1000 % 256) as usize,
            (p / 0x100000 % 16) as u8,
            shown_part(p / 0x1000000 % 16, i),
        ),
        second: piece_of(
            (p / 0x10000000 % 256) as usize,
            (p / 0x1000000000 % 16) as u8,
            shown_part(p / 0x10000000000 % 16, i),
        ),
        last: piece_of(mark, 0, 0),
    }
}

// The pieces of an instruction's text.
pub fn form_of(i: Instruction) -> Form
    ensures { (c : Config) → form_text result ≡ text_of c i }
{
    form_in(style_at(i.row as usize), i)
}
