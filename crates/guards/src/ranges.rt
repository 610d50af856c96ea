// The refusals before a step: 1, 2 and 3.
ghost use Rattle.std.specs.Prelude.{◌≡◌, ◌+◌, ◌^◌, ◌<◌, [], leb, drop, length};
ghost use Rattle.laws.specs.Test.{test, each, ◌and◌};
ghost use Rattle.laws.specs.First.{first_failing};
ghost use Rattle.arith.specs.Width.{bits};
ghost use Rattle.state.specs.State.{env, state};
ghost use Rattle.state.specs.Ranges.{lengths, places, marks, positions, cells, in_ranges, guards};
ghost use Rattle.guards.specs.Answers.{number_of};

use crate::Refused;
use crate::memories::{joined, within};
use state::{Core, Machine};
use words::Config;

// What a step is lent beside its configuration and record: the image, the inputs, the return stack, both memories and the output log's two lists.
#[derive(Clone, Copy)]
pub struct Lent<'a> {
    pub image: &'a [u32],
    pub inputs: &'a [u32],
    pub stack: &'a [u32],
    pub registers: &'a [u32],
    pub memory: &'a [u32],
    pub addresses: &'a [u32],
    pub values: &'a [u32],
}

// Every 32-bit cell is below it.
const WORD_TOP: u64 = 4294967296;

fn lengths_fit(c: Config, lent: &Lent) -> bool
    ensures { result ≡ test (lengths c (length lent.now.image.now) (length lent.now.registers.now) (length lent.now.memory.now) (length lent.now.addresses.now) (length lent.now.values.now)) }
{
    lent.image.len() == c.imsize as usize
        && lent.registers.len() == c.rmsize as usize
        && lent.memory.len() == c.dmsize as usize
        && lent.addresses.len() == lent.values.len()
}

// Whether a + b is at most the limit, for any a.
fn sum_within(a: usize, b: u32, limit: u32) -> bool
    ensures { result ≡ leb (a + b) limit }
{
    let limit = limit as usize;
    a <= limit && a + b as usize <= limit
}

fn places_fit(c: Config, m: Core) -> bool
    ensures { result ≡ test (places c m) }
{
    let size = c.regsize as usize;
    let until_loaded = m.loaded != 0 || m.rx == 0 && m.ry == 0;
    m.pc < Machine::PC_LIMIT
        && m.wp % 16 == 0
        && sum_within(m.wp, c.regsize, c.rmsize)
        && m.rx < size
        && m.ry < size
        && m.loaded <= 1
        && until_loaded
}

fn marks_fit(c: Config, m: Core) -> bool
    ensures { result ≡ test (marks c m) }
{
    let top = plans::top_of(c.regwidth);
    m.n <= 1
        && m.z <= 1
        && m.mode <= 1
        && m.posted <= 1
        && m.imask <= Machine::MASK_MOST
        && m.saved <= Machine::MASK_MOST
        && m.spr7 < top
        && (c.regwidth != 32 || m.spr7 == 0)
}

fn positions_fit(c: Config, m: Core, inputs: usize, room: usize) -> bool
    ensures { result ≡ test (positions c m inputs room) }
{
    let top = plans::top_of(c.regwidth);
    let limit = Machine::stack_limit(c.pcstack);
    m.depth <= limit
        && m.port < top
        && (m.posted != 0 || m.port == 0)
        && m.taken <= inputs
        && m.logged <= room
}

// Every address at most `most`, and zeros from `depth` on.
fn stack_fits(stack: &[u32], depth: usize, most: u32) -> bool
    ensures { result ≡ test (each (most + 1) stack.now and each 1 (drop depth stack.now)) }
{
    if stack.len() < depth {
        return within(stack, most);
    }
    within(&stack[..depth], most) && joined(&stack[depth..]) == 0
}

// Every word below 2^W. At W = 32 all are, and none is looked at; below it no bit from W on may be set in any.
fn words_fit(width: u32, registers: &[u32], memory: &[u32]) -> bool
    ensures { result ≡ test (each (2 ^ bits width) registers.now and each (2 ^ bits width) memory.now) }
{
    let top = plans::top_of(width);
    if WORD_TOP <= top {
        return true;
    }
    let all = joined(registers) | joined(memory);
    u64::from(all) < top
}

fn cells_fit(c: Config, m: Core, lent: &Lent) -> bool
    ensures { result ≡ test (cells c (state m lent.now.stack.now lent.now.registers.now lent.now.memory.now [] [])) }
{
    stack_fits(lent.stack, m.depth, c.imsize) && words_fit(c.regwidth, lent.registers, lent.memory)
}

#[tactic(auto, unfolding(state::specs::Ranges::in_ranges))]
// Whether a record is in its ranges, and the cells of its memories fit the word width.
fn in_ranges(c: Config, m: Core, lent: &Lent) -> bool
    ensures { result ≡ test (in_ranges (env c [] lent.now.inputs.now) (state m lent.now.stack.now lent.now.registers.now lent.now.memory.now lent.now.addresses.now [])) }
{
    places_fit(c, m)
        && marks_fit(c, m)
        && positions_fit(c, m, lent.inputs.len(), lent.addresses.len())
        && cells_fit(c, m, lent)
}

#[tactic(auto, unfolding(state::specs::Ranges::guards, state::specs::Ranges::in_ranges, laws::specs::Choice::pick))]
// Whether a step may be made: the first of the three refusals that holds.
pub fn validate(c: Config, m: Core, lent: &Lent) -> Result<(), Refused>
    ensures { number_of result ≡ first_failing (guards (env c lent.now.image.now lent.now.inputs.now) (state m lent.now.stack.now lent.now.registers.now lent.now.memory.now lent.now.addresses.now lent.now.values.now)) }
{
    if !c.lawful() {
        return Err(Refused::Unlawful);
    }
    if !lengths_fit(c, lent) {
        return Err(Refused::WrongLength);
    }
    if !in_ranges(c, m, lent) {
        return Err(Refused::OutOfRange);
    }
    Ok(())
}
