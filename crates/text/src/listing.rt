// The listing of an image.
ghost use Rattle.std.specs.Prelude.{◌≡◌, ◌-◌, length, IfOk};
ghost use Rattle.text.specs.Answers.{listed_of, outcome_number, texted_of};
ghost use Rattle.text.specs.Claims.{Lists};
ghost use Rattle.text.specs.Lines.{listed, list_number};
ghost use Rattle.text.specs.Texts.{shown_call};

use crate::lines::{line_len, put_line, word_form};
use crate::writers::has_room;
use crate::{ListError, TextError};
use words::{Config, Reader, Refusal};

// What `list` answers: whether it came to the image's end, the place after the last whole line, and the address of the next.
#[derive(Clone, Copy)]
pub struct Listed {
    pub outcome: Result<(), ListError>,
    pub place: usize,
    pub next: usize,
}

// Whole lines from an address to the image's end, as long as the next has room.
fn list_lines(reader: &Reader, image: &[u32], first: usize, page: &mut [u8], place: usize) -> Listed
    ensures { listed_of result page.new ≡ listed reader.now.config image.now page.old place first (length image.now - first) }
{
    let mut at = place;
    for a in first..image.len() {
        let w = image[a];
        let f = word_form(reader, w);
        if !has_room(page.len(), at, line_len(f)) {
            return Listed {
                outcome: Err(ListError::NoRoom),
                place: at,
                next: a,
            };
        }
        at = put_line(page, at, a, w, f);
    }
    Listed {
        outcome: Ok(()),
        place: at,
        next: first.max(image.len()),
    }
}

// The reader of a configuration under which an image of so many words can be listed, on a page of so many bytes: 1, 2, 18.
fn list_reader(c: Config, words: usize, size: usize, place: usize) -> Result<Reader, ListError>
    ensures number { outcome_number result ≡ list_number c words size place }
    ensures config { IfOk result (λ r. r.config ≡ c) }
{
    let Some(reader) = Reader::of(c) else {
        return Err(ListError::Unlawful);
    };
    if words != c.imsize as usize {
        return Err(ListError::WrongSize);
    }
    if size < place {
        return Err(ListError::NoRoom);
    }
    Ok(reader)
}

// Appends whole lines from address `first` to the image's end. NoRoom keeps the whole lines; every other byte of the page stays (specs/Claims.antt).
pub fn list(c: Config, image: &[u32], first: usize, page: &mut [u8], place: usize) -> Listed
    ensures { Lists c image.now first page.old place result page.new }
{
    match list_reader(c, image.len(), page.len(), place) {
        Ok(reader) => list_lines(&reader, image, first, page, place),
        Err(why) => Listed {
            outcome: Err(why),
            place,
            next: first,
        },
    }
}

// Writes what stands in a listing for word w, from the place on, and answers the place after it. An error, 1 or 18, leaves the page as it was.
pub fn shown(c: Config, w: u32, page: &mut [u8], place: usize) -> Result<usize, TextError>
    ensures { texted_of result place page.new ≡ shown_call c w page.old place }
{
    let Some(reader) = Reader::of(c) else {
        return Err(TextError::Unread(Refusal::Unlawful));
    };
    let f = word_form(&reader, w);
    if !has_room(page.len(), place, f.len()) {
        return Err(TextError::NoRoom);
    }
    Ok(f.put(page, place))
}
