// The decimal digits of a number, at the start of a buffer that has room for those of any number of
// 64 bits.
ghost use Rattle.std.specs.Prelude.{◌<◌, ◌≤◌, ◌≡◌, length, take, drop};
ghost use Rattle.printing.specs.Digits.{hex_digit_ascii, last_digits, IsDigitCount};

use crate::DECIMAL_BYTES;

// How many decimal digits n takes.
fn digit_count(n: u64) -> usize
    ensures { IsDigitCount 10 1 n result }
{
    let mut k = 1;
    let mut rest = n / 10;
    while 0 < rest {
        rest /= 10;
        k += 1;
    }
    k
}

// The digit of d.
fn decimal_digit(d: u64) -> u8
    requires { d < 10 }
    ensures { result ≡ hex_digit_ascii d }
{
    b'0' + d as u8
}

// Stores the last k decimal digits of n at the start of `out`.
fn write_digits(n: u64, k: usize, out: &mut [u8])
    requires { k ≤ length out.old }
    ensures digits { take k out.new ≡ last_digits 10 k n }
    ensures rest { drop k out.new ≡ drop k out.old }
{
    let mut rest = n;
    for i in (0..k).rev() {
        out[i] = decimal_digit(rest % 10);
        rest /= 10;
    }
}

// Stores the decimal digits of n at the start of `out`, and answers how many they are.
pub fn decimal(n: u64, out: &mut [u8; DECIMAL_BYTES]) -> usize
    ensures in_bounds { result ≤ length out.new }
    ensures len { IsDigitCount 10 1 n result }
    ensures digits { take result out.new ≡ last_digits 10 result n }
    ensures rest { drop result out.new ≡ drop result out.old }
{
    let k = digit_count(n);
    write_digits(n, k, out);
    k
}
