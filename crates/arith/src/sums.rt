// ADD, ADDC, SUB, SUBC, SUBS, and the flags of CMP and CMPS: manual 5.1.1. Sums and differences wrap at 32 bits and are cut to W.
// They are safe for any operands; a difference is promised of words only.
ghost use Rattle.std.specs.Prelude.{◌≡◌};
ghost use Rattle.arith.specs.Width.{Words, one};
ghost use Rattle.arith.specs.Sums.{add_of, difference, sub_of, subs_of};

use super::Word;
use super::width::Width;

impl Width {
    // ADD with no carry, ADDC with the old N.
    #[tactic(auto, using(crate::proofs::width::Laws::flag_is, crate::proofs::sums::Laws::sum_code), unfolding(crate::specs::Sums::add_of))]
    pub fn add(self, a: u32, b: u32, carry: bool) -> Word
        ensures { result ≡ add_of self.bits a b (one carry) }
    {
        let value = self.truncate(a.wrapping_add(b).wrapping_add(u32::from(carry)));
        let sum = (a as u64) + (b as u64) + u64::from(carry);
        Word::of(value, u64::from(self.power() <= sum))
    }

    // a less b less the borrow, at the width.
    #[tactic(auto, using(crate::proofs::width::Laws::flag_is, crate::proofs::sums::Laws::subtract_code))]
    fn subtract(self, a: u32, b: u32, borrow: bool) -> u32
        ensures { Words self.bits a b → result ≡ difference self.bits a b (one borrow) }
    {
        self.truncate(a.wrapping_sub(b).wrapping_sub(u32::from(borrow)))
    }

    // SUB with no borrow, SUBC with the old N.
    #[tactic(auto, using(crate::proofs::width::Laws::flag_is), unfolding(crate::specs::Sums::sub_of))]
    pub fn sub(self, a: u32, b: u32, borrow: bool) -> Word
        ensures { Words self.bits a b → result ≡ sub_of self.bits a b (one borrow) }
    {
        let taken = (b as u64) + u64::from(borrow);
        Word::of(self.subtract(a, b, borrow), u64::from((a as u64) < taken))
    }

    // Words with their top bits flipped compare as their signed values do.
    #[tactic(auto, using(crate::proofs::sums::Laws::subs_laws), unfolding(crate::specs::Sums::subs_of, crate::specs::Width::one, laws::specs::Choice::pick))]
    pub fn subs(self, a: u32, b: u32) -> Word
        ensures { Words self.bits a b → result ≡ subs_of self.bits a b }
    {
        let value = self.subtract(a, b, false);
        let h = self.top_bit();
        Word::of(value, u64::from((a ^ h) < (b ^ h)))
    }
}
