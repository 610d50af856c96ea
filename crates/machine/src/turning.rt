// A run: the word at PC is decoded, with some after it, and the loop carries out their cells, and those that are kept of words met before, to one that it does not
// have. And a step, which has one cell.
ghost use Rattle.std.specs.Prelude.{true, false, ◌⊎◌, ◌≡◌, ◌+◌, ◌*◌, ◌≤◌, ◌<◌, length, get_or};
ghost use Rattle.laws.specs.Test.{Holds};
ghost use Rattle.words.specs.Configs.{lawful};
ghost use Rattle.state.specs.State.{env, state};
ghost use Rattle.state.specs.Run.{run_of};
ghost use Rattle.state.specs.Good.{Good};
ghost use Rattle.cells.specs.Cell.{cell_of};
ghost use Rattle.machine.specs.Cached.{cell_at, Cached};
ghost use Rattle.machine.specs.Stepping.{end_of, turns_end};

use crate::Turns;
use crate::exec::APART;
use crate::memories::cell;
use crate::single::{by_cell, stopped};
use state::Core;
use words::Config;

// How many words after the one at PC are decoded with it.
const AHEAD: u64 = 7;

// A run of fewer steps keeps few cells, a run that can meet no more addresses than a small one holds keeps those, and any other a large number.
const FEW: u64 = 16;

const SMALL: u64 = 128;

// How many numbers few, small and large cells are, two a pair of an address and its cell; powers of two, since the low bits of an address are its place.
const FEW_NUMBERS: usize = 32;

const SMALL_NUMBERS: usize = 256;

const LARGE_NUMBERS: usize = 4096;

// One step.
pub fn once(
    c: Config,
    m: Core,
    image: &[u32],
    inputs: &[u32],
    stack: &mut [u32],
    registers: &mut [u32],
    memory: &mut [u32],
    addresses: &mut [u32],
    values: &mut [u32],
) -> Turns
    requires { (length stack.old ≡ 63) × Good (env c image.now inputs.now) (state m stack.old registers.old memory.old addresses.old values.old) }
    ensures { turns_end result stack.new registers.new memory.new addresses.new values.new ≡ end_of (run_of 1 (env c image.now inputs.now) (state m stack.old registers.old memory.old addresses.old values.old)) }
{
    let pc = m.pc;
    if c.imsize as usize <= pc {
        return stopped(m, 4);
    }
    let x = cells::decode(c, cell(image, pc));
    let pair: [u64; 2] = [pc as u64, x];
    by_cell(
        registers, 0, c, memory, 1, x, m, &pair, inputs, stack, image, addresses, values,
    )
}

// Keeps x as the cell of address pc.
fn keep(c: Config, image: &[u32], mask: usize, pc: usize, x: u64, cells: &mut [u64])
    requires { Cached c image.now mask cells.old × (pc < c.imsize) × (get_or image.now pc 0 < 4294967296) × (x ≡ cell_of c (get_or image.now pc 0)) }
    ensures { Cached c image.now mask cells.new × (cell_at mask cells.new pc ≡ x) }
{
    let i = pc & mask;
    cells[2 * i] = pc as u64;
    cells[2 * i + 1] = x;
}

// Decodes words from pc on, at most `most`, to the first that is kept already.
fn fill(c: Config, image: &[u32], mask: usize, pc: usize, cells: &mut [u64], most: u64)
    requires { Cached c image.now mask cells.old × Holds (lawful c) × (length image.now ≡ c.imsize) × (pc ≤ 8388608) × (most ≤ 7) }
    ensures { Cached c image.now mask cells.new }
{
    for at in pc..pc + most as usize {
        if image.len() <= at {
            return;
        }
        let i = at & mask;
        if cells[2 * i] == at as u64 {
            if cells[2 * i + 1] != 0 {
                return;
            }
        }
        let x = cells::decode(c, cell(image, at));
        keep(c, image, mask, at, x, cells);
    }
}

// The smaller of a number and AHEAD.
fn ahead(n: u64) -> u64
    ensures { result ≤ 7 }
{
    if n < AHEAD { n } else { AHEAD }
}

// Whether a stop ends the run: there is one, and it does not say that the next step is made apart.
fn ends(stop: u32) -> bool
    ensures { (result ≡ true → (stop ≡ 0 → ⊥) × (stop < 256)) × (result ≡ false → (stop ≡ 0) ⊎ (256 ≤ stop)) }
{
    if stop == 0 {
        return false;
    }
    stop < APART
}

// Steps of a state that 1, 2 and 3 let pass, to the budget or to a stop, over pairs of an address and the cell of its word.
fn turning(
    c: Config,
    first: Core,
    mask: usize,
    cells: &mut [u64],
    image: &[u32],
    inputs: &[u32],
    stack: &mut [u32],
    registers: &mut [u32],
    memory: &mut [u32],
    addresses: &mut [u32],
    values: &mut [u32],
    budget: u64,
) -> Turns
    requires { Cached c image.now mask cells.old × (length stack.old ≡ 63) × Good (env c image.now inputs.now) (state first stack.old registers.old memory.old addresses.old values.old) × (budget ≤ 1000000) }
    ensures { turns_end result stack.new registers.new memory.new addresses.new values.new ≡ end_of (run_of budget (env c image.now inputs.now) (state first stack.old registers.old memory.old addresses.old values.old)) }
{
    let mut core = first;
    let mut done: u64 = 0;
    let mut cycles: u64 = 0;
    // No `for`: a turn does as many steps as it comes to.
    while done < budget {
        let pc = core.pc;
        if c.imsize as usize <= pc {
            return Turns {
                stop: 4,
                steps: done,
                cycles,
                core,
            };
        }
        let x = cells::decode(c, cell(image, pc));
        fill(c, image, mask, pc + 1, cells, ahead(budget - done - 1));
        keep(c, image, mask, pc, x, cells);
        let t = by_cell(
            registers,
            mask,
            c,
            memory,
            budget - done,
            x,
            core,
            cells,
            inputs,
            stack,
            image,
            addresses,
            values,
        );
        let next = t.core;
        core = next;
        cycles = cycles + t.cycles;
        done = done + t.steps;
        if ends(t.stop) {
            return Turns {
                stop: t.stop,
                steps: done,
                cycles,
                core,
            };
        }
    }
    Turns {
        stop: 0,
        steps: done,
        cycles,
        core,
    }
}

// Over N numbers; at most 32 KB, which is what a call lays on the stack.
fn with_cells<const N: usize>(
    c: Config,
    m: Core,
    image: &[u32],
    inputs: &[u32],
    stack: &mut [u32],
    registers: &mut [u32],
    memory: &mut [u32],
    addresses: &mut [u32],
    values: &mut [u32],
    budget: u64,
) -> Turns
    requires { (length stack.old ≡ 63) × Good (env c image.now inputs.now) (state m stack.old registers.old memory.old addresses.old values.old) × (budget ≤ 1000000) × (2 ≤ N) × (N ≤ 4096) }
    ensures { turns_end result stack.new registers.new memory.new addresses.new values.new ≡ end_of (run_of budget (env c image.now inputs.now) (state m stack.old registers.old memory.old addresses.old values.old)) }
{
    let mut cells = [0u64; N];
    turning(
        c,
        m,
        N / 2 - 1,
        &mut cells,
        image,
        inputs,
        stack,
        registers,
        memory,
        addresses,
        values,
        budget,
    )
}

// Steps of a state that 1, 2 and 3 let pass, to the budget or to a stop; as many cells as the run can use, or as pay.
pub fn turns(
    c: Config,
    m: Core,
    image: &[u32],
    inputs: &[u32],
    stack: &mut [u32],
    registers: &mut [u32],
    memory: &mut [u32],
    addresses: &mut [u32],
    values: &mut [u32],
    budget: u64,
) -> Turns
    requires { (length stack.old ≡ 63) × Good (env c image.now inputs.now) (state m stack.old registers.old memory.old addresses.old values.old) × (budget ≤ 1000000) }
    ensures { turns_end result stack.new registers.new memory.new addresses.new values.new ≡ end_of (run_of budget (env c image.now inputs.now) (state m stack.old registers.old memory.old addresses.old values.old)) }
{
    if budget < FEW {
        return with_cells::<FEW_NUMBERS>(
            c, m, image, inputs, stack, registers, memory, addresses, values, budget,
        );
    }
    if (budget <= SMALL) | (c.imsize as u64 <= SMALL) {
        return with_cells::<SMALL_NUMBERS>(
            c, m, image, inputs, stack, registers, memory, addresses, values, budget,
        );
    }
    with_cells::<LARGE_NUMBERS>(
        c, m, image, inputs, stack, registers, memory, addresses, values, budget,
    )
}
