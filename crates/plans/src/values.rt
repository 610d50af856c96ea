// What an instruction reads: cells, operands, special registers. Readers of memories are total: past the end a cell is 0.
ghost use Rattle.std.specs.Prelude.{◌≡◌, ◌+◌, ◌*◌, ◌%◌, ◌^◌, ◌<◌, ◌≤◌, slice_index};
ghost use Rattle.arith.specs.Width.{bits, half};
ghost use Rattle.arith.specs.Width.{one as flag};
ghost use Rattle.state.specs.Operands.{log2, special_register};
ghost use Rattle.state.specs.Plans.{with_top_bit};

use words::Config;

pub fn value_at(xs: &[u32], i: usize) -> u32
    ensures { result ≡ slice_index xs.now i }
{
    if i < xs.len() { xs[i] } else { 0 }
}

// The number of a test: 1 or 0.
pub fn one(b: bool) -> u64
    ensures { (result ≡ flag b) × (result ≤ 1) }
{
    if b { 1 } else { 0 }
}

// 2^W.
pub fn top_of(width: u32) -> u64
    ensures { (result ≡ 2 ^ bits width) × (0 < result) × (result ≤ 4294967296) }
{
    match width {
        8 => 256,
        16 => 65536,
        _ => 4294967296,
    }
}

// A word cut to W bits.
pub fn cut(width: u32, x: u64) -> u32
    ensures { result ≡ x % 2 ^ bits width }
{
    (x % top_of(width)) as u32
}

// log2 of a power of two up to 32,768; of 0 it is 0.
pub fn log2_of(n: u32) -> u64
    ensures { (result ≡ log2 n) × (result ≤ 15) }
{
    let low = one(16384 <= n) + (one(32768 <= n) + 0);
    let mid = one(1024 <= n) + (one(2048 <= n) + (one(4096 <= n) + (one(8192 <= n) + low)));
    let high = one(64 <= n) + (one(128 <= n) + (one(256 <= n) + (one(512 <= n) + mid)));
    one(2 <= n) + (one(4 <= n) + (one(8 <= n) + (one(16 <= n) + (one(32 <= n) + high))))
}

fn spr0_of(mult: u32, level: u32, clk: u32) -> u64
    ensures { result ≡ 4096 * mult + 1024 * level + clk }
{
    4096 * (mult as u64) + 1024 * (level as u64) + (clk as u64)
}

fn spr1_of(width: u32, rm: u32, size: u32) -> u64
    ensures { result ≡ 256 * width + 16 * log2 rm + log2 size }
{
    256 * (width as u64) + 16 * log2_of(rm) + log2_of(size)
}

pub fn wide(x: u32) -> u64
    ensures { result ≡ x }
{
    x as u64
}

// Special register k, cut to W bits.
pub fn special_register(c: Config, spr7: u64, k: u32) -> u32
    ensures { result ≡ special_register c spr7 k }
{
    let spr0 = spr0_of(c.alumult, c.alulevel, c.yamclk);
    let spr1 = spr1_of(c.regwidth, c.rmsize, c.regsize);
    let spr2 = log2_of(c.dmsize);
    let spr3 = wide(c.yamsreg3);
    let all = [spr0, spr1, spr2, spr3];
    let at = k as usize;
    if at < 4 {
        return cut(c.regwidth, all[at]);
    }
    cut(c.regwidth, spr7)
}

// The weight of the top bit.
fn half_of(width: u32) -> u32
    ensures { (result ≡ half (bits width)) × (result ≤ 2147483648) }
{
    match width {
        8 => 128,
        16 => 32768,
        _ => 2147483648,
    }
}

// A word with its top bit set.
pub fn with_top_bit(c: Config, x: u32) -> u32
    ensures { result ≡ with_top_bit c x }
{
    let top = half_of(c.regwidth);
    if top <= x { x } else { x + top }
}
