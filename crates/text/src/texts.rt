// The text of a word.
ghost use Rattle.std.specs.Prelude.{◌≡◌, ltb, length};
ghost use Rattle.syntax.specs.Forms.{text_of};
ghost use Rattle.text.specs.Answers.{texted_of};
ghost use Rattle.text.specs.Packed.{form_text};
ghost use Rattle.text.specs.Texts.{text_limit, text_number, printed, text_call};

use crate::TextError;
use crate::forms::form_of;
use crate::writers::has_room;
use words::{Config, Instruction};

// Refusal 23 of a text of n bytes.
pub fn too_long(n: usize) -> bool
    ensures { result ≡ ltb text_limit n }
{
    20 < n
}

// The text of an instruction that was read.
fn print_text(i: Instruction, page: &mut [u8], place: usize) -> Result<usize, TextError>
    ensures { (c : Config) → texted_of result place page.new ≡ printed (text_number 0 (text_of c i) (length page.old) place) (text_of c i) page.old place }
{
    let f = form_of(i);
    let n = f.len();
    if !has_room(page.len(), place, n) {
        return Err(TextError::NoRoom);
    }
    if too_long(n) {
        return Err(TextError::TooLong);
    }
    Ok(f.put(page, place))
}

// Writes the text of word w from the place on, and answers the place after it. An error leaves the page as it was.
pub fn text(c: Config, w: u32, page: &mut [u8], place: usize) -> Result<usize, TextError>
    ensures { texted_of result place page.new ≡ text_call c w page.old place }
{
    let i = words::read_word(c, w)?;
    print_text(i, page, place)
}
