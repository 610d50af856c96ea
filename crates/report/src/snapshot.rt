// What is printed of a machine: how it ended, and how it stands.
use state::Core;

// How a run ended: document 01's number, the steps and the cycles.
#[derive(Clone, Copy)]
pub struct Outcome {
    pub number: u32,
    pub steps: u64,
    pub cycles: u64,
}

// A machine as it stands: its record, and the cells that a step writes in place.
#[derive(Clone, Copy)]
pub struct Snapshot<'a> {
    pub core: Core,
    pub registers: &'a [u32],
    pub memory: &'a [u32],
}

// What grows from step to step: the return stack and the log, as far as the record says that they are filled.
#[derive(Clone, Copy)]
pub struct Lists<'a> {
    pub stack: &'a [u32],
    pub addresses: &'a [u32],
    pub values: &'a [u32],
}
