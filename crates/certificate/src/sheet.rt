// A program and its certificate, each as long as the configuration says, and the reader of its words.
ghost use Rattle.std.specs.Prelude.{◌≡◌, get_or, length};
ghost use Rattle.rules.specs.Marks.{mark_at};
ghost use Rattle.state.specs.State.{stack_limit};

use crate::marks::Mark;
use words::Reader;

#[derive(Drop)]
pub struct Sheet<'a> {
    pub reader: &'a Reader,
    pub image: &'a [u32],
    pub certificate: &'a [u8],
    pub limit: usize,
    pub ghost limited: { limit ≡ stack_limit reader.now.config.pcstack },
    pub ghost sized: { length certificate.now ≡ reader.now.config.imsize },
}

impl Sheet<'_> {
    // The mark of address a; past the end: unused.
    pub fn mark(&self, a: usize) -> Mark
        ensures { result ≡ record { byte = mark_at self.now.certificate.now a } }
    {
        match self.certificate.get(a) {
            Some(byte) => Mark { byte: *byte },
            None => Mark::UNUSED,
        }
    }

    // The word at address a; past the end: 0.
    pub fn word(&self, a: usize) -> u32
        ensures { result ≡ get_or self.now.image.now a 0 }
    {
        match self.image.get(a) {
            Some(word) => *word,
            None => 0,
        }
    }
}
