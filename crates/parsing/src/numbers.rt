// Numbers as digits to a base.
ghost use Rattle.std.specs.Prelude.{◌≡◌, ◌≤◌};
ghost use Rattle.parsing.specs.Decimals.{answered};
ghost use Rattle.parsing.specs.Numbers.{digits_from, number_in};

// What a number above it is answered as.
const LIMIT: u64 = 4294967296;

// The number that the digits of a text say, to a base of at most 16.
pub fn digits_of(text: &[u8], base: u32) -> Option<u64>
    requires low { 2 ≤ base }
    requires high { base ≤ 16 }
    ensures { result ≡ answered (digits_from base 0 text.now) }
{
    let mut value = 0;
    for b in text {
        let digit = char::from(*b).to_digit(base)?;
        value = (u64::from(base) * value + u64::from(digit)).min(LIMIT);
    }
    Some(value)
}

// The number below 2^32 of 1 to `most` digits.
pub fn number_of(text: &[u8], base: u32, most: usize) -> Option<u32>
    requires low { 2 ≤ base }
    requires high { base ≤ 16 }
    ensures { result ≡ number_in base most text.now }
{
    if text.is_empty() | (most < text.len()) {
        return None;
    }
    let value = digits_of(text, base)?;
    u32::try_from(value).ok()
}
