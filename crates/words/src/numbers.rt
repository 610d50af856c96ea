// The numbers of the rows that code names, in the order of specs/Rows.antt. Written by tools/rows.

pub const MOVIO_READ: u32 = 85;

pub const IRQ_ON: u32 = 122;

pub const IRQ_OFF: u32 = 123;

// How many rows there are: a number from here on names none.
pub const ROW_COUNT: u32 = 131;

// The rows of level 2 by their code in bits 15-8; 255 names none. Index instructions have codes of their own beside those of the byte instructions.
pub static BYTE_ROWS: [u8; 16] = [
    255, 71, 72, 255, 255, 255, 73, 255, 255, 255, 255, 255, 255, 255, 255, 255,
];

pub static INDEX_ROWS: [u8; 32] = [
    255, 71, 72, 255, 255, 255, 73, 255, 255, 255, 255, 255, 255, 255, 255, 255, 255, 255, 255,
    255, 74, 255, 255, 255, 75, 255, 255, 255, 76, 255, 255, 255,
];

// The rows of 1111 00000 by bits 22-16.
pub static MISC_ROWS: [u8; 8] = [124, 125, 126, 255, 127, 128, 129, 130];
