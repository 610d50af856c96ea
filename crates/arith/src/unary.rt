// ABS and CLZ: manual 5.2.4 and 5.2.5.
ghost use Rattle.std.specs.Prelude.{◌≡◌};
ghost use Rattle.arith.specs.Width.{top};
ghost use Rattle.arith.specs.Unary.{abs_of, clz_of};

use super::Word;
use super::width::Operand;

impl Operand {
    // Whether the top bit is set.
    pub fn is_negative(self) -> bool
        ensures { result ≡ top self.width.bits self.word }
    {
        self.width.is_negative(self.word)
    }

    // The least number is its own absolute value; N is the source's top bit.
    #[tactic(auto, unfolding(crate::specs::Unary::abs_of, crate::specs::Width::one, laws::specs::Choice::pick))]
    pub fn abs(self) -> Word
        ensures { result ≡ abs_of self.width.bits self.word }
    {
        if self.is_negative() {
            Word::of((self.width.power() - (self.word as u64)) as u32, 1)
        } else {
            Word::of(self.word, 0)
        }
    }

    // Leading zeros of the top half: its type has 16 bits, so the count is at most 16.
    #[tactic(auto, using(crate::proofs::unary::Laws::top_half, crate::proofs::unary::Laws::zeros_code), unfolding(crate::specs::Unary::clz_of))]
    pub fn clz(self) -> Word
        ensures { result ≡ clz_of self.width.bits self.word }
    {
        let top_half = (self.word >> self.width.bits.saturating_sub(16)) as u16;
        let k = top_half.leading_zeros();
        Word::flagged(k, k == 16, self.is_negative())
    }
}
