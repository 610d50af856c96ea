// Writers of bytes on a lent page: each stores its text from `at` on and answers the place after it (specs/Pages.antt, `Wrote`).
ghost use Rattle.std.specs.Prelude.{◌≡◌, ◌≤◌, ◌+◌, ◌/◌, ◌%◌, ◌∷◌, [], leb, length};
ghost use Rattle.syntax.specs.Digits.{digit, hex};
ghost use Rattle.text.specs.Pages.{Wrote};

use crate::pairs::PAIRS;

// Whether n bytes have room from the place on.
pub fn has_room(size: usize, place: usize, n: usize) -> bool
    ensures { result ≡ leb (place + n) size }
{
    place <= size && n <= size - place
}

// The two hex digits of b.
fn hex_pair(b: u8) -> [u8; 2]
    ensures { result ≡ digit (b / 16) ∷ digit (b % 16) ∷ [] }
{
    PAIRS[b as usize]
}

// The low w hex digits of n.
pub fn put_hex(page: &mut [u8], at: usize, w: usize, n: u64) -> usize
    requires { at + w ≤ length page.old }
    ensures { Wrote page.old at (hex w n) result page.new }
{
    let odd = w % 2;
    let mut rest = n;
    for i in (0..w / 2).rev() {
        let [high, low] = hex_pair((rest % 256) as u8);
        page[at + odd + 2 * i] = high;
        page[at + odd + 2 * i + 1] = low;
        rest /= 256;
    }
    if odd == 1 {
        let [_, low] = hex_pair((rest % 16) as u8);
        page[at] = low;
    }
    at + w
}

// The bytes, one by one: `copy_from_slice` would have the archive for C ask for `memmove`, which it does without.
pub fn put_bytes(page: &mut [u8], at: usize, bytes: &[u8]) -> usize
    requires { at + length bytes.now ≤ length page.old }
    ensures { Wrote page.old at bytes.now result page.new }
{
    for i in 0..bytes.len() {
        page[at + i] = bytes[i];
    }
    at + bytes.len()
}
