// Where the fields of a word begin (manual 5.17.1): a field is a quotient by its weight, cut off by a remainder.

// Bit 26 of an ALU word.
pub const FLAG: u32 = 0x4000000;

// The low bits of 31-23: a byte number.
pub const NUMBER: u32 = 0x800000;

pub const BYTE_NUMBERS: u32 = 4;

// Bits 22-16; what lies below are bits 15-0.
pub const UPPER: u32 = 0x10000;

pub const UPPER_VALUES: u32 = 128;

// How many values bits 15-0 have.
pub const LOWER_VALUES: u32 = 0x10000;

// How many targets bits 22-0 have: "Register targets are taken mod 2^23."
pub const TARGETS: u32 = 0x800000;
