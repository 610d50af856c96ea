// Labels as numbers.
ghost use Rattle.std.specs.Prelude.{◌≡◌, ◌<◌};
ghost use Rattle.assembler.specs.Chains.{hash_of};

use crate::bytes::SMALL_F;

// How many letters a label has at most.
const LETTERS: usize = 12;

// A label as one number, five bits a letter.
#[derive(Clone, Copy)]
pub struct Key {
    pub number: u64,
    pub ghost small: { number < 0x1000000000000000 },
}

impl Key {
    ghost use Rattle.assembler.specs.Keys.{label_key, key_number};

    // The label that the letters are, if they are one.
    pub fn of(letters: &[u8]) -> Option<Key>
        ensures { key_number result ≡ label_key letters.now }
    {
        if LETTERS < letters.len() {
            return None;
        }
        let mut number: u64 = 0;
        let mut beyond = false;
        for b in letters {
            number = 32 * number + (*b % 32) as u64;
            beyond |= SMALL_F < *b;
        }
        if beyond { Some(Key { number }) } else { None }
    }

    // The chain of the label (labels.rt), from bits of both ends of its number.
    pub fn hash(self) -> usize
        ensures value { result ≡ hash_of self.number }
        ensures within { result < 1024 }
    {
        ((self.number / 32768 + 7 * self.number) / 4 % 1024) as usize
    }
}
