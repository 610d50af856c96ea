// Where the parts of a cell and of a template begin (specs/Cell.antt, specs/Templates.antt): a part is a quotient by its weight, cut off by a remainder.

// Of a cell.

pub const ACTIONS: u64 = 64;

pub const FLAG: u64 = 0x40;

pub const DESTINATION: u64 = 0x100;

pub const SOURCE: u64 = 0x10000;

pub const REGISTERS: u64 = 256;

pub const VALUE: u64 = 0x1000000;

pub const VALUES: u64 = 0x100000000;

pub const TAKEN: u64 = 0x100000000000000;

pub const ANSWERS: u64 = 16;

pub const CYCLES: u64 = 0x4000000000000000;

// Of a template.

pub const READS_FLAG: u32 = 0x40;

pub const READS_DESTINATION: u32 = 0x80;

pub const READS_SOURCE: u32 = 0x100;

pub const LOADS: u32 = 0x200;

pub const CHECK: u32 = 0x400;

pub const CHECKS: u32 = 64;

pub const VALUE_SOURCE: u32 = 0x10000;

pub const VALUE_SOURCES: u32 = 16;

pub const JUMPS: u32 = 0x100000;

pub const COSTS: u32 = 0x1000000;
