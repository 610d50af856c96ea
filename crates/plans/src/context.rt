// Where the fields of a context stand, the word that JSRWP stores in %00 of the new bank: "WP/16 in 31-26, SR in 25-20 (N bit 21, Z bit 20, others 0), IMask 19-16,
// PC+1 in 15-0".

pub const BANK: u32 = 0x4000000;

pub const N: u32 = 0x200000;

pub const Z: u32 = 0x100000;

pub const IMASK: u32 = 0x10000;

pub const IMASKS: u32 = 16;

// How many values bits 15-0 have.
pub const PCS: u32 = 0x10000;
