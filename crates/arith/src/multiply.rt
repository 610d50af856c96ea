// MUL: manual 5.4, and 4.7 for SPR7.
ghost use Rattle.std.specs.Prelude.{◌≡◌};
ghost use Rattle.arith.specs.Multiply.{mul_of};

use super::Product;
use super::width::Width;

impl Width {
    #[tactic(auto, unfolding(crate::specs::Multiply::mul_of, laws::specs::Choice::pick))]
    pub fn mul(self, a: u32, b: u32) -> Product
        ensures { result ≡ mul_of self.bits a b }
    {
        let p = (a % 65536) * (b % 65536);
        let value = self.truncate(p);
        if self.bits <= 16 {
            Product {
                value,
                high: (p >> self.bits) % 65536,
            }
        } else {
            Product { value, high: 0 }
        }
    }
}
