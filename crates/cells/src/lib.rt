// Cells: a word decoded once to one number, which the machine's loop carries out without a look at the word (specs/Cell.antt).
#![tactic(auto)]

ghost use Rattle.std.specs.Prelude.{◌≡◌, ◌<◌};
ghost use Rattle.cells.specs.Cell.{action_in, flag_in, destination_in, source_in, value_in, taken_in, cycles_in};

mod decoding;
mod layout;
mod templates;

pub use decoding::decode;

// What a cell of action 0 says of its word beside 5, 6 and 7: SPR_ON, SPR_OFF.
pub const TURNS_ON: u32 = 16;

pub const TURNS_OFF: u32 = 17;

// The action; 0 where the loop does not carry the cell out.
#[tactic(auto, unfolding(crate::specs::Cell::action_in))]
pub fn action(x: u64) -> u32
    ensures { result ≡ action_in x }
{
    (x % layout::ACTIONS) as u32
}

// Bit 26 of the word.
#[tactic(auto, unfolding(crate::specs::Cell::flag_in))]
pub fn flag(x: u64) -> u32
    ensures { result ≡ flag_in x }
{
    (x / layout::FLAG % 2) as u32
}

#[tactic(auto, unfolding(crate::specs::Cell::destination_in))]
pub fn destination(x: u64) -> usize
    ensures { (result ≡ destination_in x) × (result < 256) }
{
    (x / layout::DESTINATION % layout::REGISTERS) as usize
}

#[tactic(auto, unfolding(crate::specs::Cell::source_in))]
pub fn source(x: u64) -> usize
    ensures { (result ≡ source_in x) × (result < 256) }
{
    (x / layout::SOURCE % layout::REGISTERS) as usize
}

// An immediate at the width, a count, a byte number, a data address, a target, or JSRWP's unit and address.
#[tactic(auto, unfolding(crate::specs::Cell::value_in))]
pub fn value(x: u64) -> u32
    ensures { result ≡ value_in x }
{
    (x / layout::VALUE % layout::VALUES) as u32
}

// When a conditional jump is taken, by 2 N + Z, a bit each.
#[tactic(auto, unfolding(crate::specs::Cell::taken_in))]
pub fn taken(x: u64) -> u32
    ensures { result ≡ taken_in x }
{
    (x / layout::TAKEN % layout::ANSWERS) as u32
}

#[tactic(auto, unfolding(crate::specs::Cell::cycles_in))]
pub fn cycles(x: u64) -> u64
    ensures { result ≡ cycles_in x }
{
    x / layout::CYCLES
}
