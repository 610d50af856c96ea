// A line of a listing.
ghost use Rattle.std.specs.Prelude.{◌≡◌, ◌≤◌, ◌+◌, length};
ghost use Rattle.words.specs.declared.Config.{Config};
ghost use Rattle.words.specs.Answers.{refusal_number, reading_of};
ghost use Rattle.words.specs.Words.{read_lawful};
ghost use Rattle.syntax.specs.Forms.{text_of};
ghost use Rattle.text.specs.Lines.{line_of};
ghost use Rattle.text.specs.Packed.{form_text, piece_text};
ghost use Rattle.text.specs.Pages.{Wrote};
ghost use Rattle.text.specs.Texts.{refused_text, shown_text, word_text};

use crate::forms::form_of;
use crate::pieces::{Form, Piece};
use crate::texts::too_long;
use crate::writers::{put_bytes, put_hex};
use words::{Instruction, Reader, Refusal};

const NONE: Piece = Piece {
    bytes: b"",
    width: 0,
    value: 0,
};

// A text of one piece.
fn alone(name: Piece) -> Form
    ensures { form_text result ≡ piece_text name }
{
    Form {
        name,
        first: NONE,
        second: NONE,
        last: NONE,
    }
}

// What stands for a text that can't be read: "?" and the number.
fn refused_form(why: Refusal) -> Form
    ensures { form_text result ≡ refused_text (refusal_number why) }
{
    alone(Piece {
        bytes: b"?",
        width: 1,
        value: why.number() as u64,
    })
}

// What stands for a text that is too long.
fn long_form() -> Form
    ensures { form_text result ≡ refused_text 23 }
{
    alone(Piece {
        bytes: b"?23",
        width: 0,
        value: 0,
    })
}

// What stands in a listing for an instruction that was read.
fn shown_form(i: Instruction) -> Form
    ensures { (c : Config) → form_text result ≡ shown_text 0 (text_of c i) }
{
    let f = form_of(i);
    if too_long(f.len()) { long_form() } else { f }
}

// What reading word w answers: as a rule, by its limits alone.
fn read(reader: &Reader, w: u32) -> Result<Instruction, Refusal>
    ensures { reading_of result ≡ read_lawful reader.now.config w }
{
    let n = reader.row(w);
    if reader.below_limits(n, w) {
        return Ok(reader.parts(n, w));
    }
    reader.read(w)
}

// What stands in a listing for word w.
pub fn word_form(reader: &Reader, w: u32) -> Form
    ensures { form_text result ≡ word_text reader.now.config w }
{
    match read(reader, w) {
        Ok(i) => shown_form(i),
        Err(why) => refused_form(why),
    }
}

// How long the line of the text f is.
pub fn line_len(f: Form) -> usize
    ensures { (result ≡ length (form_text f) + 17) × (result ≤ 1069) }
{
    f.len() + 17
}

// The line of word w at address a, with the text f.
#[tactic(auto, using(crate::proofs::Spelled::length_spelled))]
pub fn put_line(page: &mut [u8], at: usize, a: usize, w: u32, f: Form) -> usize
    requires { at + (length (form_text f) + 17) ≤ length page.old }
    ensures { Wrote page.old at (line_of a w (form_text f)) result page.new }
{
    let i = put_hex(page, at, 6, a as u64);
    let j = put_bytes(page, i, b" ");
    let k = put_hex(page, j, 8, w as u64);
    let l = put_bytes(page, k, b" ");
    let m = f.put(page, l);
    put_bytes(page, m, b"\n")
}
