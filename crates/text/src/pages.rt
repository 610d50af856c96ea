// "A listing page is a lent buffer and the place reached": the struct, and thin methods over those
// on a slice. Callers with a plain slice use `list`.
ghost use Rattle.std.specs.Prelude.{◌≡◌, Ok};
ghost use Rattle.text.specs.Answers.{answered, listed_on};

use crate::{ListError, Listed};
use words::Config;

// The lent buffer and the place reached; beside them what the last listing onto the page answered, its outcome and the address of the next line.
#[derive(Drop)]
pub struct Page<'a> {
    pub bytes: &'a mut [u8],
    pub place: usize,
    pub next: usize,
    pub outcome: Result<(), ListError>,
}

impl<'a> Page<'a> {
    // A page on a lent buffer, from the place on, for the lines from an address on.
    pub fn new(bytes: &'a mut [u8], place: usize, first: usize) -> Page<'a>
        ensures { result ≡ record { bytes = bytes.entry; place = place; next = first; outcome = Ok tt } }
    {
        Page {
            bytes,
            place,
            next: first,
            outcome: Ok(()),
        }
    }

    // Lists onto the page, from its next address on: `list` is called, and the page is handed back with the place reached.
    pub fn list(self, c: Config, image: &[u32]) -> Page<'a>
        ensures { result ≡ listed_on c image.now self.entry }
    {
        let place = self.place;
        let first = self.next;
        let r = crate::listing::list(c, image, first, &mut *self.bytes, place);
        Page {
            bytes: self.bytes,
            place: r.place,
            next: r.next,
            outcome: r.outcome,
        }
    }

    // What the last listing onto the page answered. The buffer is as the page held it.
    pub fn answer(self) -> Listed
        ensures { (result ≡ answered self.entry) × (self.exit.0.now ≡ self.entry.bytes.now) }
    {
        Listed {
            outcome: self.outcome,
            place: self.place,
            next: self.next,
        }
    }
}
