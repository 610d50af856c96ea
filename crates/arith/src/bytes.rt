// Byte store and byte load: manual 5.3.1 to 5.3.3. k is the byte number, modulo 4.
ghost use Rattle.std.specs.Prelude.{◌≡◌, ◌*◌, ◌%◌};
ghost use Rattle.arith.specs.Bytes.{byte, of_byte, bst_of, bld_of, blds_of, SignExtended};

use super::Word;
use super::width::Width;

// A result whose flags are the source byte's.
fn of_byte(b: u32, value: u32) -> Word
    ensures { result ≡ of_byte b value }
{
    Word::flagged(value, b == 0, 128 <= b)
}

// Byte k of s.
fn byte(s: u32, k: u32) -> u32
    ensures { result ≡ byte (k % 4) s }
{
    (s >> (8 * (k % 4))) % 256
}

#[tactic(auto, unfolding(crate::specs::Bytes::bld_of))]
pub fn bld(k: u32, s: u32) -> Word
    ensures { result ≡ bld_of (k % 4) s }
{
    let b = byte(s, k);
    of_byte(b, b)
}

impl Width {
    #[tactic(auto, using(crate::proofs::bytes::Laws::bst_code), unfolding(crate::specs::Bytes::bst_of))]
    pub fn bst(self, k: u32, d: u32, s: u32) -> Word
        ensures { result ≡ bst_of self.bits (k % 4) d s }
    {
        let at = 8 * (k % 4);
        let b = s % 256;
        let above = (d >> at) / 256 * 256 + b;
        let below = d % (1 << at);
        of_byte(b, self.truncate((above << at) | below))
    }

    // "the byte with 128 flipped, less 128, at the word width" (document 02, K3): 128 less is 2^w - 128 more, cut to w bits.
    #[tactic(auto, using(crate::proofs::bytes::Laws::blds_laws), unfolding(crate::specs::Bytes::blds_of, crate::specs::Bytes::extended))]
    pub fn blds(self, k: u32, s: u32) -> Word
        ensures { (result ≡ blds_of self.bits (k % 4) s) × SignExtended self.bits (byte (k % 4) s) result.value }
    {
        let b = byte(s, k);
        let value = self.truncate((b ^ 128).wrapping_add((self.power() - 128) as u32));
        of_byte(b, value)
    }
}
