// What an instruction of each kind changes, from the values that it reads. Every function is total: a sum that 64 bits do not hold wraps, and the promise
// says so (`up`); machine, which has the core in its ranges, knows that none does.
#![tactic(auto)]

pub mod context;
mod plans;
mod values;

pub use plans::{
    assign, branch, call, compare, compute, enter_bank, enter_special, index_load, index_store,
    jump, leave_bank, leave_special, load_index, load_register, multiply, port_modify, port_read,
    port_write, ret, ret_constant, skip, store_direct, store_register,
};
pub use values::{special_register, top_of, value_at};

// What an ALU instruction computes with: the cell of its destination register, that register's value,
// and the second operand.
#[derive(Clone, Copy)]
pub struct Operands {
    pub at: usize,
    pub d: u32,
    pub x: u32,
}
