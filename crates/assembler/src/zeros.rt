// A line with six zeros for the label that stands for its target: so it is read, and then the label's address is put in.
ghost use Rattle.std.specs.Prelude.{◌≡◌, ◌+◌, ◌≤◌, length};
ghost use Rattle.std.proofs.Math.Seq.{slice};
ghost use Rattle.assembler.specs.Zeros.{zeroed};

use crate::bytes::DIGIT_0;

// How many digits a target has.
pub const TARGET: usize = 6;

// The longest line of any form.
pub const LONGEST: usize = 16;

// The line with six zeros for the m letters from `from` on: n bytes, and behind them any.
pub fn zeroed(line: &[u8], from: usize, m: usize, n: usize) -> [u8; LONGEST]
    requires { (from + m ≤ length line.now) × (n ≤ 16) × (n + m ≡ length line.now + 6) }
    ensures { slice 0 n result ≡ zeroed line.now from m }
{
    let mut room = [DIGIT_0; LONGEST];
    room[..from].copy_from_slice(&line[..from]);
    room[from + TARGET..n].copy_from_slice(&line[from + m..]);
    room
}
