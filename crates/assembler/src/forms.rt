// One line of text: the form that claims it, and the instruction that it spells (specs/Packed.antt, specs/Heads.antt).
ghost use Rattle.std.specs.Prelude.{◌≡◌, not, ◌+◌, ◌*◌, ◌<◌, ◌≤◌, length, get_or, drop};
ghost use Rattle.std.proofs.Math.Seq.{slice};
ghost use Rattle.syntax.specs.Pieces.{number_in};
ghost use Rattle.syntax.specs.Reading.{read_line};
ghost use Rattle.assembler.specs.Heads.{mark_of, key_of};
ghost use Rattle.assembler.specs.Packed.{form_table, admits, matching, is_form_in, part_in, Shown, read_in, line_of, Finds};

use crate::bytes::{byte_at, byte_before, is_hex};
use crate::tables::{form_byte, head, link};
use words::Instruction;

// The layout of a form in the table: its pattern, then its length, row, bit 26 and byte number, then place and width of each part.
const ENTRY: usize = 32;

const PATTERN: usize = 16;

const LENGTH: usize = 16;

const ROW: usize = 17;

const FLAG: usize = 18;

const NUMBER: usize = 19;

const DESTINATION: usize = 20;

const SOURCE: usize = 22;

const VALUE: usize = 24;

// The factors and the divisor of a line's key, and how many keys there are (tools/tables/forms.py).
const START: u64 = 103768835;

const SHAPE: u64 = 904827101;

const DIVISOR: u64 = 0x100000;

const KEYS: u64 = 512;

// In a pattern: any digit, and any byte, behind its end.
const ANY_DIGIT: u8 = 97;

const ANY_BYTE: u8 = 0;

fn admits_byte(p: u8, b: u8) -> bool
    ensures { result ≡ admits p b }
{
    ((p == b) | ((p == ANY_DIGIT) & is_hex(b))) | (p == ANY_BYTE)
}

// Whether n bytes of t from `at` on differ from the pattern that stands from `from` on. No early end: 16 bytes are compared at once.
fn differs(from: usize, t: &[u8], at: usize, n: usize) -> bool
    requires { (from + n ≤ 5952) × (at + n ≤ length t.now) }
    ensures { result ≡ not (matching n form_table from t.now at) }
{
    let mut bad = false;
    for j in 0..n {
        bad |= !admits_byte(form_byte(from + j), t[at + j]);
    }
    bad
}

// Whether n bytes of t from `at` on are in form q. Its pattern takes any byte behind its end.
fn is_form(q: usize, t: &[u8], at: usize, n: usize) -> bool
    requires { (q < 186) × (n ≤ 16) × (at + n ≤ length t.now) }
    ensures { result ≡ is_form_in form_table q t.now at n }
{
    let k = ENTRY * q;
    if form_byte(k + LENGTH) as usize != n {
        return false;
    }
    if PATTERN <= t.len() - at {
        !differs(k, t, at, PATTERN)
    } else {
        !differs(k, t, at, n)
    }
}

// The number that w digits spell from `at` on.
fn number_at(t: &[u8], at: usize, w: usize) -> u32
    requires { (at + w ≤ length t.now) × (w ≤ 7) }
    ensures { result ≡ number_in w (drop at t.now) }
{
    let mut m: u32 = 0;
    for j in 0..w {
        let b = t[at + j] as u32;
        m = 16 * m + (b % 16 + 9 * (b / 64));
    }
    m
}

// What the line at `at` shows of the part whose place and width stand at k.
fn part_of(k: usize, t: &[u8], at: usize) -> u32
    requires { (k + 2 ≤ 5952) × Shown form_table k at (length t.now) }
    ensures { result ≡ part_in form_table k (drop at t.now) }
{
    let place = form_byte(k) as usize;
    let width = form_byte(k + 1) as usize;
    number_at(t, at + place, width)
}

// What form q reads off the line at `at`.
fn read_by(q: usize, t: &[u8], at: usize) -> Instruction
    requires { (q < 186) × Shown form_table (32 * q + 20) at (length t.now) × Shown form_table (32 * q + 22) at (length t.now) × Shown form_table (32 * q + 24) at (length t.now) }
    ensures { result ≡ read_in form_table q (drop at t.now) }
{
    let k = ENTRY * q;
    let row = form_byte(k + ROW) as u32;
    let flag = form_byte(k + FLAG) as u32;
    let number = form_byte(k + NUMBER) as u32;
    let destination = part_of(k + DESTINATION, t, at);
    let source = part_of(k + SOURCE, t, at);
    let value = part_of(k + VALUE, t, at);
    Instruction {
        row,
        flag,
        destination,
        source,
        number,
        value,
    }
}

// A byte that is no digit; 0 for every digit.
fn mark_of(b: u8) -> u64
    ensures { (result ≡ mark_of b) × (result < 256) }
{
    if is_hex(b) { 0 } else { b as u64 }
}

// The key of a line: from its first four bytes, its length, and two bytes where marks stand.
fn key_of(line: &[u8]) -> usize
    requires { length line.now ≤ 16 }
    ensures { result ≡ key_of line.now }
{
    let a = byte_at(line, 0) as u64;
    let b = byte_at(line, 1) as u64;
    let c = byte_at(line, 2) as u64;
    let d = byte_at(line, 3) as u64;
    let e = mark_of(byte_before(line, 5));
    let f = mark_of(byte_before(line, 7));
    let start = a + 0x100 * b + 0x10000 * c + 0x1000000 * d;
    let shape = line.len() as u64 + 0x100 * e + 0x10000 * f;
    ((START * start + SHAPE * shape) / DIVISOR % KEYS) as usize
}

// The form that the n bytes from `at` on are in, if they are in one.
fn find(t: &[u8], at: usize, n: usize) -> Option<usize>
    requires { at + n ≤ length t.now }
    ensures { Finds t.now at n result }
{
    if PATTERN < n {
        return None;
    }
    let mut q = head(key_of(&t[at..at + n]));
    while 0 < q {
        if is_form(q - 1, t, at, n) {
            return Some(q - 1);
        }
        q = link(q - 1);
    }
    None
}

// What the n bytes from `at` on read as, if they are in a form. Inlined, so that an instruction is not written to memory for the caller to load it again.
#[inline(always)]
pub fn read(t: &[u8], at: usize, n: usize) -> Option<Instruction>
    requires { at + n ≤ length t.now }
    ensures { line_of result ≡ read_line (slice at (at + n) t.now) }
{
    let q = find(t, at, n)?;
    Some(read_by(q, t, at))
}
