// What a machine works on.
use words::Config;

// A configuration, the words of an image, and the inputs.
#[derive(Clone, Copy)]
pub struct Program<'a> {
    pub config: Config,
    pub image: &'a [u32],
    pub inputs: &'a [u32],
}

// The memories that a machine is lent: the register memory, the data memory, and the log's addresses and values.
#[derive(Drop)]
pub struct Memories<'a> {
    pub registers: &'a mut [u32],
    pub memory: &'a mut [u32],
    pub addresses: &'a mut [u32],
    pub values: &'a mut [u32],
}
