// Instruction words of the YAM core: configuration, rows, reading and writing a word.
#![tactic(auto)]

ghost use Rattle.std.specs.Prelude.{◌≡◌};
ghost use Rattle.words.specs.Answers.{refusal_number};

pub mod actions;
mod classes;
mod codes;
mod columns;
mod configuration;
mod decode;
mod encode;
mod entries;
pub mod layout;
mod limits;
mod meaning;
mod numbers;
mod reader;
mod rows;
mod tables;
mod verdict;
mod writer;

pub use decode::{below_limits, parts_lent, read_word, read_word_lent, row_lent, row_of_word};
pub use encode::{write_word, write_word_lent};
pub use entries::{entry_table, lower_limits, upper_limits};
pub use limits::within_limits;
pub use meaning::{facts_in, packed_lent};
pub use reader::Reader;
pub use tables::{base_table, class_table, limit_table, option_table, row_table};
pub use writer::Writer;

// A configuration of the core: the manual's generics under their names, in the order of document 01.
#[derive(Clone, Copy, Debug, Default, PartialEq, Eq)]
pub struct Config {
    pub imwidth: u32,
    pub imsize: u32,
    pub regwidth: u32,
    pub regsize: u32,
    pub rmsize: u32,
    pub pcstack: u32,
    pub dmsize: u32,
    pub dmpipe: u32,
    pub alulevel: u32,
    pub alumult: u32,
    pub aluspr: u32,
    pub iopif: u32,
    pub ioprmw: u32,
    pub yamclk: u32,
    pub yamsreg3: u32,
    pub alu3op: u32,
    pub irqif: u32,
    pub copmsize: u32,
    pub yamdbg: u32,
}

// An instruction's parts, named after the manual's main frames (5.17.1). `flag` is bit 26 of an ALU word as it stands: 0 updates the flags.
// `destination` stands in bits 22-16 (also JSRWP's unit, the source of MOV &a,%s, the register of JMP @), `source` in 6-0, `number` is the byte
// number, `value` the immediate, count, data address, target or JSRWP address. A part that the row does not use is zero.
#[derive(Clone, Copy)]
pub struct Instruction {
    pub row: u32,
    pub flag: u32,
    pub destination: u32,
    pub source: u32,
    pub number: u32,
    pub value: u32,
}

// The three forms of a 16-bit immediate: #, > and < in the manual's notation.
#[derive(Clone, Copy)]
pub enum Form {
    Signed,
    Unsigned,
    Shifted,
}

// What the ALU does. TST, CMP and CMPS are And, Sub and Subs whose result is not written; a byte operation holds its byte number.
#[derive(Clone, Copy)]
pub enum Operation {
    And,
    Or,
    Xor,
    Add,
    Addc,
    Sub,
    Subc,
    Subs,
    Shl,
    Shr,
    Shra,
    Rotl,
    Rotr,
    Shl16,
    Abs,
    Clz,
    Bst(u32),
    Bld(u32),
    Blds(u32),
}

// The fields of a word by place: bit 26, the number in the low bits of 31-23, bits 22-16, the bits below them, and the value.
#[derive(Clone, Copy)]
struct Fields {
    pub row: u32,
    pub flag: u32,
    pub number: u32,
    pub upper: u32,
    pub lower: u32,
    pub value: u32,
}

// What a word stays below by its check: bits 22-16, and bits 15-0.
#[derive(Clone, Copy)]
struct WordLimits {
    pub upper: u64,
    pub lower: u64,
}

// Document 01's numbers 1, 5, 6 and 7.
#[derive(Clone, Copy, Debug, PartialEq, Eq)]
pub enum Refusal {
    Unlawful = 1,
    NoRow = 5,
    Unavailable = 6,
    OutOfRange = 7,
}

impl Refusal {
    // Document 01's number.
    pub fn number(self) -> u32
        ensures { result ≡ refusal_number self }
    {
        self as u32
    }
}

// What rules, stops, cycles and text ask of an instruction (specs/Facts.antt).
#[derive(Clone, Copy)]
pub struct Facts {
    pub next: bool,
    pub target: bool,
    pub calls: bool,
    pub returns: bool,
    pub enters: bool,
    pub leaves: bool,
    pub reveals: bool,
    pub input: bool,
    pub output: bool,
    pub load: bool,
    pub store: bool,
    pub indirect: bool,
    pub tobank: bool,
    pub frombank: bool,
    pub barred: bool,
    pub index: bool,
}
