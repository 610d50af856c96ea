// Records as flat arrays of 32-bit words (specs/Flat.antt).
ghost use Rattle.std.specs.Prelude.{◌≡◌, [], ◌∷◌, ◌+◌, ◌<◌, ◌≤◌, length, get_or, set};
ghost use Rattle.laws.specs.Choice.{pick};
ghost use Rattle.laws.specs.Test.{test};
ghost use Rattle.laws.specs.First.{first_failing};
ghost use Rattle.state.specs.State.{env};
ghost use Rattle.state.specs.Ranges.{guards};
ghost use Rattle.machine.specs.Stepping.{machine_state};
ghost use Rattle.yam_c.specs.Flat.{stored, low, high, wide, config_words, config_of, config_in, instruction_words, instruction_in, instruction_of, core_words, core_in, shaped, machine_words, outside};

use guards::Lent;
use state::{Core, Machine};
use words::{Config, Instruction};

// How many words a configuration, an instruction and a machine have.
pub const CONFIG_WORDS: usize = 19;

pub const INSTRUCTION_WORDS: usize = 6;

pub const MACHINE_WORDS: usize = 100;

// Where in a machine's words the return stack starts, behind the core, and where it ends; the mark of an LDYX follows, and then zeros.
pub const STACK_FROM: usize = 17;

pub const STACK_TO: usize = 80;

const LOADED_AT: usize = 80;

const ZEROS_FROM: usize = 81;

const ZEROS: usize = 19;

// How many values a word has.
const WORD_VALUES: u64 = 4294967296;

// Word i, or 0 past the end.
fn cell(flat: &[u32], i: usize) -> u32
    ensures { result ≡ get_or flat.now i 0 }
{
    flat.get(i).copied().unwrap_or(0)
}

// Word i, which is there.
fn word(flat: &[u32], i: usize) -> u32
    requires { i < length flat.now }
    ensures { result ≡ get_or flat.now i 0 }
{
    flat[i]
}

// Stores v at place i, if that is there.
fn put<T: Copy>(flat: &mut [T], i: usize, v: T)
    ensures { flat.new ≡ set flat.old i v }
{
    if i < flat.len() {
        flat[i] = v;
    }
}

// Stores the values from a place on, as far as they fit.
fn store(flat: &mut [u32], at: usize, values: &[u32])
    requires { (at ≤ 100) × (length values.now ≤ 100) }
    ensures { flat.new ≡ stored flat.old at values.now }
{
    for i in 0..values.len() {
        put(flat, at + i, values[i]);
    }
}

// The number of two words, low word first, and its words.
fn wide(low: u32, high: u32) -> usize
    ensures { result ≡ wide low high }
{
    low as usize + high as usize * WORD_VALUES as usize
}

fn low(n: u64) -> u32
    ensures { result ≡ low n }
{
    (n % WORD_VALUES) as u32
}

fn high(n: u64) -> u32
    ensures { result ≡ high n }
{
    (n / WORD_VALUES) as u32
}

// What a call answers beside its number, one value or two.
pub fn answer(answers: &mut [u64], a: u64)
    ensures { answers.new ≡ stored answers.old 0 (a ∷ []) }
{
    put(answers, 0, a);
}

pub fn answer_two(answers: &mut [u64], a: u64, b: u64)
    ensures { answers.new ≡ stored answers.old 0 (a ∷ b ∷ []) }
{
    put(answers, 0, a);
    put(answers, 1, b);
}

fn config_in(flat: &[u32]) -> Config
    ensures { result ≡ config_in flat.now }
{
    Config {
        imsize: cell(flat, 0),
        regwidth: cell(flat, 1),
        regsize: cell(flat, 2),
        rmsize: cell(flat, 3),
        pcstack: cell(flat, 4),
        dmsize: cell(flat, 5),
        dmpipe: cell(flat, 6),
        alulevel: cell(flat, 7),
        alumult: cell(flat, 8),
        aluspr: cell(flat, 9),
        iopif: cell(flat, 10),
        ioprmw: cell(flat, 11),
        yamclk: cell(flat, 12),
        yamsreg3: cell(flat, 13),
        alu3op: cell(flat, 14),
        irqif: cell(flat, 15),
        copmsize: cell(flat, 16),
        imwidth: cell(flat, 17),
        yamdbg: cell(flat, 18),
    }
}

// The configuration in 19 words; of another length one that is all zeros, and so unlawful.
pub fn config_from(flat: &[u32]) -> Config
    ensures { result ≡ config_of flat.now }
{
    if flat.len() == CONFIG_WORDS {
        config_in(flat)
    } else {
        config_in(&flat[0..0])
    }
}

pub fn config_into(c: Config, flat: &mut [u32])
    ensures { flat.new ≡ stored flat.old 0 (config_words c) }
{
    let words = [
        c.imsize, c.regwidth, c.regsize, c.rmsize, c.pcstack, c.dmsize, c.dmpipe, c.alulevel,
        c.alumult, c.aluspr, c.iopif, c.ioprmw, c.yamclk, c.yamsreg3, c.alu3op, c.irqif,
        c.copmsize, c.imwidth, c.yamdbg,
    ];
    store(flat, 0, &words);
}

fn instruction_in(flat: &[u32]) -> Instruction
    ensures { result ≡ instruction_in flat.now }
{
    Instruction {
        row: cell(flat, 0),
        flag: cell(flat, 1),
        destination: cell(flat, 2),
        source: cell(flat, 3),
        number: cell(flat, 4),
        value: cell(flat, 5),
    }
}

// The instruction in 6 words; of another length one that is refused with 7.
pub fn instruction_from(flat: &[u32]) -> Instruction
    ensures { result ≡ instruction_of flat.now }
{
    if flat.len() == INSTRUCTION_WORDS {
        instruction_in(flat)
    } else {
        Instruction {
            row: 0,
            flag: 0,
            destination: 0,
            source: 4294967295,
            number: 0,
            value: 0,
        }
    }
}

pub fn instruction_into(i: Instruction, flat: &mut [u32])
    ensures { flat.new ≡ stored flat.old 0 (instruction_words i) }
{
    let words = [i.row, i.flag, i.destination, i.source, i.number, i.value];
    store(flat, 0, &words);
}

// Whether the words have the form of a machine: a hundred, the last nineteen zero.
pub fn machine_shaped(flat: &[u32]) -> bool
    ensures { result ≡ test (shaped flat.now) }
{
    if flat.len() != MACHINE_WORDS {
        return false;
    }
    let above = guards::joined(&flat[ZEROS_FROM..MACHINE_WORDS]);
    above == 0
}

// The core in the words of a machine.
pub fn core_in(flat: &[u32]) -> Core
    requires { length flat.now ≡ 100 }
    ensures { result ≡ core_in flat.now }
{
    Core {
        pc: word(flat, 0) as usize,
        wp: word(flat, 1) as usize,
        rx: word(flat, 2) as usize,
        ry: word(flat, 3) as usize,
        loaded: word(flat, LOADED_AT),
        n: word(flat, 4) as u64,
        z: word(flat, 5) as u64,
        spr7: word(flat, 6) as u64,
        depth: word(flat, 7) as usize,
        imask: word(flat, 8) as u64,
        saved: word(flat, 9) as u64,
        mode: word(flat, 10) as u64,
        posted: word(flat, 11),
        port: word(flat, 12) as u64,
        taken: wide(word(flat, 13), word(flat, 14)),
        logged: wide(word(flat, 15), word(flat, 16)),
    }
}

// The number that refuses a list that does not have the form of a machine: it is a machine outside its ranges, so 1, 2, else 3.
pub fn misshapen(
    c: Config,
    image: &[u32],
    inputs: &[u32],
    registers: &[u32],
    memory: &[u32],
    addresses: &[u32],
    values: &[u32],
) -> u32
    ensures { result ≡ first_failing (guards (env c image.now inputs.now) (machine_state outside registers.now memory.now addresses.now values.now)) }
{
    let m = Machine::reset();
    let core = Core {
        pc: Machine::PC_LIMIT,
        ..m.core
    };
    let lent = Lent {
        image,
        inputs,
        stack: &m.stack,
        registers,
        memory,
        addresses,
        values,
    };
    match guards::validate(c, core, &lent) {
        Ok(()) => 0,
        Err(why) => why.number(),
    }
}

fn core_words(m: Core) -> [u32; STACK_FROM]
    ensures { result ≡ core_words m }
{
    [
        low(m.pc as u64),
        low(m.wp as u64),
        low(m.rx as u64),
        low(m.ry as u64),
        low(m.n),
        low(m.z),
        low(m.spr7),
        low(m.depth as u64),
        low(m.imask),
        low(m.saved),
        low(m.mode),
        low(m.posted as u64),
        low(m.port),
        low(m.taken as u64),
        high(m.taken as u64),
        low(m.logged as u64),
        high(m.logged as u64),
    ]
}

pub fn machine_into(m: Machine, flat: &mut [u32])
    ensures { flat.new ≡ stored flat.old 0 (machine_words m.core m.stack) }
{
    let core = core_words(m.core);
    store(flat, 0, &core);
    let stack = m.stack;
    store(flat, STACK_FROM, &stack);
    put(flat, LOADED_AT, m.core.loaded);
    let zeros = [0u32; ZEROS];
    store(flat, ZEROS_FROM, &zeros);
}

// Writes the core where it changed, its mark behind the return stack, which was changed in place.
pub fn update(changed: bool, m: Core, flat: &mut [u32])
    ensures { flat.new ≡ pick changed (set (stored flat.old 0 (core_words m)) 80 m.loaded) flat.old }
{
    if changed {
        let core = core_words(m);
        store(flat, 0, &core);
        put(flat, LOADED_AT, m.loaded);
    }
}
