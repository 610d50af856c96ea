// Decimal numbers.
ghost use Rattle.std.specs.Prelude.{◌≡◌};
ghost use Rattle.parsing.specs.Decimals.{decimal_of, value_of, answered};

use crate::numbers::{digits_of, number_of};

const BASE: u32 = 10;

const MOST_DIGITS: usize = 10;

// The number that a text is, or 2^32 where it is above that: one digit or more, and nothing else.
pub fn decimal_of(text: &[u8]) -> Option<u64>
    ensures { result ≡ answered (decimal_of text.now) }
{
    if text.is_empty() {
        return None;
    }
    digits_of(text, BASE)
}

// The same, of at most 10 digits and at most 4,294,967,295.
pub fn value_of(text: &[u8]) -> Option<u32>
    ensures { result ≡ value_of text.now }
{
    number_of(text, BASE, MOST_DIGITS)
}
