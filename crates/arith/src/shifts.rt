// Shifts, rotates by one and SHL16: manual 5.1.3 and 5.2.1 to 5.2.3.
ghost use Rattle.std.specs.Prelude.{◌≡◌, ◌^◌, ◌<◌};
ghost use Rattle.arith.specs.Shifts.{moved_left, moved_right, shl_of, shr_of, shra_of, rotl_of, rotr_of};

use super::Word;
use super::width::{Operand, Width};

impl Width {
    // The result of a move of a to the left, and to the right.
    fn moved_left(self, a: u32, value: u32) -> Word
        ensures { result ≡ moved_left self.bits a value }
    {
        let h = self.top_bit();
        Word::flagged(value, !(h <= a), h <= value)
    }

    fn moved_right(self, a: u32, value: u32) -> Word
        ensures { result ≡ moved_right self.bits a value }
    {
        Word::flagged(value, a % 2 == 0, self.is_negative(value))
    }

    #[tactic(auto, using(crate::proofs::width::Laws::low_low), unfolding(crate::specs::Shifts::shl_of))]
    pub fn shl(self, a: u32, k: u32) -> Word
        requires { k < 32 }
        ensures { result ≡ shl_of self.bits a k }
    {
        self.moved_left(a, self.truncate(a << k))
    }

    #[tactic(auto, unfolding(crate::specs::Shifts::shr_of))]
    pub fn shr(self, a: u32, k: u32) -> Word
        requires { k < 32 }
        ensures { result ≡ shr_of self.bits a k }
    {
        self.moved_right(a, a >> k)
    }

    #[tactic(auto, using(crate::proofs::shifts::Laws::rotl_code), unfolding(crate::specs::Shifts::rotl_of))]
    pub fn rotl(self, a: u32) -> Word
        ensures { a < 2 ^ self.bits → result ≡ rotl_of self.bits a }
    {
        let rest = a % self.top_bit();
        self.moved_left(a, (rest << 1) | (a >> (self.bits - 1)))
    }

    #[tactic(auto, using(crate::proofs::shifts::Laws::rotr_code), unfolding(crate::specs::Shifts::rotr_of))]
    pub fn rotr(self, a: u32) -> Word
        ensures { a < 2 ^ self.bits → result ≡ rotr_of self.bits a }
    {
        self.moved_right(a, ((a % 2) << (self.bits - 1)) | (a >> 1))
    }
}

impl Operand {
    // The sign bit comes in from the left: where it is set, the k top bits are ones.
    #[tactic(auto, using(crate::proofs::shifts::Laws::shra_laws), unfolding(crate::specs::Shifts::shra_of, laws::specs::Choice::pick))]
    pub fn shra(self, k: u32) -> Word
        requires { k < 32 }
        ensures { result ≡ shra_of self.width.bits self.word k }
    {
        let w = self.width;
        let ones = (w.power() - 1) as u32;
        let sign = if self.is_negative() {
            ones - (ones >> k)
        } else {
            0
        };
        w.moved_right(self.word, sign + (self.word >> k))
    }
}
