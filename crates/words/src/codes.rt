// The numbers of parts, options and marks in a row's packed columns (specs/Codes.antt). Written by tools/rows.

// what a part holds

pub const UNUSED: u32 = 0;

pub const FLAG: u32 = 1;

pub const TARGET: u32 = 10;

pub const COUNT: u32 = 11;

// the options; the last, never, is what is left of a match

pub const ALWAYS: u32 = 0;

pub const MULT: u32 = 1;

pub const LEVEL1: u32 = 2;

pub const LEVEL2: u32 = 3;

pub const LEVEL2_MEMORY: u32 = 4;

pub const MEMORY: u32 = 5;

pub const PORTS: u32 = 6;

pub const RMW: u32 = 7;

pub const BANKS: u32 = 8;

pub const SPR: u32 = 9;

// the weights of the digits and of the marks

pub const FLAG_DIGIT: u64 = 0x1;

pub const NUMBER_DIGIT: u64 = 0x10;

pub const DESTINATION_DIGIT: u64 = 0x100;

pub const SOURCE_DIGIT: u64 = 0x1000;

pub const VALUE_DIGIT: u64 = 0x10000;

pub const OPTION_DIGIT: u64 = 0x100000;

pub const MARKS: u64 = 0x1000000;

// the columns of no row: nothing used, never available

pub const NO_ROW: u64 = 0xa00000;

// the weights of a mark among the marks

pub const GOES_ON: u64 = 1;

pub const JUMPS: u64 = 2;

pub const CALLS: u64 = 4;

pub const RETURNS: u64 = 8;

pub const ENTERS_MODE: u64 = 16;

pub const LEAVES_MODE: u64 = 32;

pub const REVEALS: u64 = 64;

pub const READS_PORT: u64 = 128;

pub const WRITES_PORT: u64 = 256;

pub const LOADS: u64 = 512;

pub const STORES: u64 = 1024;

pub const BY_REGISTER: u64 = 2048;

pub const ENTERS_BANK: u64 = 4096;

pub const LEAVES_BANK: u64 = 8192;

pub const BARRED: u64 = 16384;

pub const BY_INDEX: u64 = 32768;
