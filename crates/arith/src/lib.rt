// Word arithmetic of the YAM core, once over the word width W: every operation of ALU levels 0 to 2, MUL and the immediates.
// A word of W bits is a number below 2^W; a flag is a number, 0 or 1. Section numbers are the YAM manual's, 1.4.
#![tactic(auto)]

mod bytes;
mod multiply;
mod shifts;
mod sums;
mod unary;
mod width;

ghost use Rattle.std.specs.Prelude.{◌≡◌, ◌%◌, ◌^◌};
ghost use Rattle.arith.specs.Width.{bits, flagged, word_of};
ghost use Rattle.arith.specs.Alu.{alu_of, Within};
ghost use Rattle.arith.specs.Multiply.{mul_of};
ghost use Rattle.arith.specs.Immediates.{immediate_of};
ghost use Rattle.arith.specs.DoubleSums.{DoubleSums};

use bytes::bld;
use width::Width;
use words::{Form, Operation};

// A result and the flags that the instruction sets where its bit 26 is 0.
#[derive(Clone, Copy)]
pub struct Word {
    pub value: u32,
    pub z: u64,
    pub n: u64,
}

// MUL's result, and what SPR7 takes.
#[derive(Clone, Copy)]
pub struct Product {
    pub value: u32,
    pub high: u32,
}

impl Word {
    // A result whose flags two tests set.
    #[tactic(auto, using(crate::proofs::width::Laws::flag_is))]
    fn flagged(value: u32, z: bool, n: bool) -> Word
        ensures { result ≡ flagged value z n }
    {
        Word {
            value,
            z: u64::from(z),
            n: u64::from(n),
        }
    }

    // A result whose Z says that it is zero.
    #[tactic(auto, using(crate::proofs::width::Laws::flag_is))]
    fn of(value: u32, n: u64) -> Word
        ensures { result ≡ word_of value n }
    {
        Word {
            value,
            z: u64::from(value == 0),
            n,
        }
    }
}

// Every operation but MUL, of the destination d, the source s and the flag N before. For any numbers: a width that is neither
// 8 nor 16 counts as 32, the operands are taken at the width, n modulo 2 and a byte number modulo 4. ADD and ADDC, SUB and SUBC
// make double-length sums (document 02, K8).
pub fn alu(width: u32, op: Operation, d: u32, s: u32, n: u64) -> Word
    ensures answer { result ≡ alu_of (bits width) op (d % 2 ^ bits width) (s % 2 ^ bits width) (n % 2) }
    ensures double_sums { DoubleSums }
{
    let w = Width::of(width);
    alu_within(width, op, w.truncate(d), w.truncate(s), n % 2)
}

// The same for operands that are words already, which are not cut again: for others the answer is some word.
#[tactic(auto, using(crate::proofs::Laws::operand_laws), unfolding(crate::specs::Alu::alu_of, crate::specs::Logic::and_of, crate::specs::Logic::or_of, crate::specs::Logic::xor_of, crate::specs::Width::one, laws::specs::Choice::pick))]
pub fn alu_within(width: u32, op: Operation, d: u32, s: u32, n: u64) -> Word
    ensures { Within (bits width) d s n → result ≡ alu_of (bits width) op d s n }
{
    let w = Width::of(width);
    match op {
        Operation::And => Word::of(d & s, n),
        Operation::Or => Word::of(d | s, n),
        Operation::Xor => Word::of(d ^ s, n),
        Operation::Add => w.add(d, s, false),
        Operation::Addc => w.add(d, s, n % 2 == 1),
        Operation::Sub => w.sub(d, s, false),
        Operation::Subc => w.sub(d, s, n % 2 == 1),
        Operation::Subs => w.subs(d, s),
        Operation::Shl => w.shl(d, s % 16),
        Operation::Shr => w.shr(d, s % 16),
        Operation::Shra => w.operand(d).shra(s % 16),
        Operation::Rotl => w.rotl(s),
        Operation::Rotr => w.rotr(s),
        Operation::Shl16 => w.shl(s, 16),
        Operation::Abs => w.operand(s).abs(),
        Operation::Clz => w.operand(s).clz(),
        Operation::Bst(k) => w.bst(k, d, s),
        Operation::Bld(k) => bld(k, s),
        Operation::Blds(k) => w.blds(k, s),
    }
}

// MUL: it sets no flag.
pub fn mul(width: u32, a: u32, b: u32) -> Product
    ensures { result ≡ mul_of (bits width) (a % 2 ^ bits width) (b % 2 ^ bits width) }
{
    let w = Width::of(width);
    w.mul(w.truncate(a), w.truncate(b))
}

// What an instruction's bits 15 to 0 stand for (manual 4.4.2). With bit 15 flipped they are above their signed value by 32,768.
#[tactic(auto, using(crate::proofs::Immediates::immediate_laws), unfolding(crate::specs::Immediates::immediate_of, crate::specs::Immediates::extend_of, laws::specs::Choice::pick))]
pub fn immediate(width: u32, form: Form, v: u32) -> u32
    ensures { result ≡ immediate_of (bits width) form (v % 65536) }
{
    let w = Width::of(width);
    let x = v % 65536;
    match form {
        Form::Signed => w.truncate((x ^ 32768).wrapping_sub(32768)),
        Form::Unsigned => w.truncate(x),
        Form::Shifted => if w.bits == 32 {
            x * 65536
        } else {
            w.truncate(x)
        },
    }
}
