// The width, and words cut to it.
ghost use Rattle.std.specs.Prelude.{◌≡◌, ◌%◌, ◌^◌, ◌<◌, ◌≤◌};
ghost use Rattle.arith.specs.Width.{bits as bits_of, half, top};

// A width, of 8, 16 or 32 bits.
#[derive(Clone, Copy)]
pub struct Width {
    pub bits: u32,
    ghost least: { 8 ≤ bits },
    ghost most: { bits ≤ 32 },
}

// A word of the width.
#[derive(Clone, Copy)]
pub struct Operand {
    pub width: Width,
    pub word: u32,
    ghost fits: { word < 2 ^ width.bits },
}

impl Width {
    // 8, 16, and 32 for any other number.
    #[tactic(auto, unfolding(crate::specs::Width::bits, laws::specs::Choice::pick))]
    pub fn of(n: u32) -> Width
        ensures { result.bits ≡ bits_of n }
    {
        match n {
            8 => Width { bits: 8 },
            16 => Width { bits: 16 },
            _ => Width { bits: 32 },
        }
    }

    // 2^W.
    pub fn power(self) -> u64
        ensures { result ≡ 2 ^ self.bits }
    {
        1 << self.bits
    }

    // The weight of the top bit.
    pub fn top_bit(self) -> u32
        ensures { result ≡ half self.bits }
    {
        1 << (self.bits - 1)
    }

    // Whether the top bit of a word is set.
    pub fn is_negative(self, a: u32) -> bool
        ensures { result ≡ top self.bits a }
    {
        self.top_bit() <= a
    }

    // The low W bits of x.
    #[tactic(auto, using(std::proofs::lemmas::Nat::and_mask))]
    pub fn truncate(self, x: u32) -> u32
        ensures { result ≡ x % 2 ^ self.bits }
    {
        ((x as u64) & (self.power() - 1)) as u32
    }

    pub fn operand(self, x: u32) -> Operand
        ensures { (result.width ≡ self) × (result.word ≡ x % 2 ^ self.bits) }
    {
        Operand {
            width: self,
            word: self.truncate(x),
        }
    }
}
