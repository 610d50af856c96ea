// The numbers of the actions: kind, operation and operand of a row in one (specs/Actions.antt). The last,
// SPR_ON, is what is left of a match. Written by tools/rows.

pub const UNSUPPORTED: u32 = 0;

pub const TST_REGISTER: u32 = 1;

pub const TST_IMMEDIATE: u32 = 2;

pub const AND_REGISTER: u32 = 3;

pub const AND_IMMEDIATE: u32 = 4;

pub const OR_REGISTER: u32 = 5;

pub const OR_IMMEDIATE: u32 = 6;

pub const XOR_REGISTER: u32 = 7;

pub const XOR_IMMEDIATE: u32 = 8;

pub const CMP_REGISTER: u32 = 9;

pub const CMP_IMMEDIATE: u32 = 10;

pub const CMPS_REGISTER: u32 = 11;

pub const CMPS_IMMEDIATE: u32 = 12;

pub const SUB_REGISTER: u32 = 13;

pub const SUB_IMMEDIATE: u32 = 14;

pub const SUBS_REGISTER: u32 = 15;

pub const SUBS_IMMEDIATE: u32 = 16;

pub const ADD_REGISTER: u32 = 17;

pub const ADD_IMMEDIATE: u32 = 18;

pub const ADDC_REGISTER: u32 = 19;

pub const ADDC_IMMEDIATE: u32 = 20;

pub const SUBC_REGISTER: u32 = 21;

pub const SUBC_IMMEDIATE: u32 = 22;

pub const MUL_REGISTER: u32 = 23;

pub const MUL_IMMEDIATE: u32 = 24;

pub const SHR_REGISTER: u32 = 25;

pub const SHRA_REGISTER: u32 = 26;

pub const SHL_REGISTER: u32 = 27;

pub const SHR_COUNT: u32 = 28;

pub const SHRA_COUNT: u32 = 29;

pub const SHL_COUNT: u32 = 30;

pub const ROTR: u32 = 31;

pub const ROTL: u32 = 32;

pub const SHL16: u32 = 33;

pub const ABS: u32 = 34;

pub const CLZ: u32 = 35;

pub const BST: u32 = 36;

pub const BLD: u32 = 37;

pub const BLDS: u32 = 38;

pub const LDYX: u32 = 39;

pub const MOVX_TO: u32 = 40;

pub const MOVX_FROM: u32 = 41;

pub const MOV_REGISTER: u32 = 42;

pub const MOV_IMMEDIATE: u32 = 43;

pub const MOV_FROM_REGISTER: u32 = 44;

pub const MOV_FROM_ADDRESS: u32 = 45;

pub const MOV_TO_REGISTER: u32 = 46;

pub const MOV_TO_ADDRESS: u32 = 47;

pub const MOVIO_READ: u32 = 48;

pub const IORMW: u32 = 49;

pub const MOVIO_REGISTER: u32 = 50;

pub const MOVIO_IMMEDIATE: u32 = 51;

pub const JMP_ALWAYS: u32 = 52;

pub const JMP_CONDITION: u32 = 53;

pub const JMP_REGISTER_ALWAYS: u32 = 54;

pub const JMP_REGISTER_CONDITION: u32 = 55;

pub const JSR: u32 = 56;

pub const JSR_REGISTER: u32 = 57;

pub const RLD: u32 = 58;

pub const JSRWP: u32 = 59;

pub const RET: u32 = 60;

pub const RETWP: u32 = 61;

pub const SPR_OFF: u32 = 62;
