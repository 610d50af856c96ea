// The machine record of the YAM core and what a step does to it: types, small helpers that hand the new record back, and, in specs/, the definitions of
// a step and a run with what is proved of them.
#![tactic(auto)]

pub mod helpers;

// The registers of the core, all numbers, so that 'are 0 or 1' is a test. `depth` is how many addresses the return stack holds, `posted` 1 straight after
// a port write and `port` its address, `loaded` 1 once an LDYX has run since reset, `saved` the mask that SPR_ON saved, `mode` 1 in special-register
// mode, `taken` how many inputs (document 01's readings) were taken, `logged` how many places of the output log are filled. Two marks share eight bytes:
// of a core of 128 bytes the compiled loop copies the whole at every step (docs/landings/K4.md).
#[derive(Clone, Copy)]
pub struct Core {
    pub pc: usize,
    pub wp: usize,
    pub rx: usize,
    pub ry: usize,
    pub n: u64,
    pub z: u64,
    pub spr7: u64,
    pub depth: usize,
    pub posted: u32,
    pub loaded: u32,
    pub imask: u64,
    pub saved: u64,
    pub mode: u64,
    pub port: u64,
    pub taken: usize,
    pub logged: usize,
}

// The machine record: the core and the return stack, oldest address first, zeros above.
#[derive(Clone, Copy)]
pub struct Machine {
    pub core: Core,
    pub stack: [u32; Machine::STACK_CELLS],
}

// A write to one cell of a memory.
#[derive(Clone, Copy)]
pub struct Write {
    pub at: usize,
    pub value: u32,
}

// What a step does: the number that stops it, 0 for none; the next core; at most one write to the registers, data memory, return stack and each list of
// the output log. A stop is a number here: as an Option of an enum a compiled step has four instructions more (48.7 in place of 44.8), and with a Result of the
// change a thousand.
#[derive(Clone, Copy)]
pub struct Change {
    pub stop: u32,
    pub core: Core,
    pub reg: Option<Write>,
    pub dm: Option<Write>,
    pub stack: Option<Write>,
    pub logat: Option<Write>,
    pub logval: Option<Write>,
}
