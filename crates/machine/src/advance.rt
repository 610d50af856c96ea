// One step by its cell, of a state that 1, 2 and 3 let pass: no memory is looked through, and no word is looked at.
ghost use Rattle.std.specs.Prelude.{◌≡◌, ◌+◌, ◌*◌, ◌<◌, length};
ghost use Rattle.state.specs.State.{env, state, stack_limit};
ghost use Rattle.state.specs.Good.{Good};
ghost use Rattle.machine.specs.Cached.{cell_at, Cached};
ghost use Rattle.machine.specs.Stretching.{Decides, Steps-by};

use crate::exec::exec;
use crate::memories::commit;
use crate::{Decision, Turn};
use state::Core;
use words::Config;

// The cell that is kept for address pc; 0 where there is none.
fn cell_at(cells: &[u64], mask: usize, pc: usize) -> u64
    requires { 2 * mask + 1 < length cells.now }
    ensures { result ≡ cell_at mask cells.now pc }
{
    let i = pc & mask;
    if cells[2 * i] == pc as u64 {
        cells[2 * i + 1]
    } else {
        0
    }
}

// What the word at PC does by its cell; `limit` is the return stack's.
fn decide(
    c: Config,
    limit: usize,
    m: Core,
    mask: usize,
    cells: &[u64],
    image: &[u32],
    inputs: &[u32],
    stack: &[u32],
    registers: &[u32],
    memory: &[u32],
    addresses: &[u32],
    values: &[u32],
) -> Decision
    requires { Cached c image.now mask cells.now × (limit ≡ stack_limit c.pcstack) × (length stack.now ≡ 63) × (m.mode ≡ 0) × Good (env c image.now inputs.now) (state m stack.now registers.now memory.now addresses.now values.now) }
    ensures { Decides (env c image.now inputs.now) (state m stack.now registers.now memory.now addresses.now values.now) (cell_at mask cells.now m.pc) result }
{
    let x = cell_at(cells, mask, m.pc);
    Decision {
        cycles: cells::cycles(x),
        change: exec(
            c,
            limit,
            m,
            inputs,
            stack,
            registers,
            memory,
            addresses.len(),
            x,
        ),
    }
}

// The step: decided, then carried out, unless it is stopped or made apart.
pub fn advance(
    c: Config,
    limit: usize,
    m: Core,
    mask: usize,
    cells: &[u64],
    image: &[u32],
    inputs: &[u32],
    stack: &mut [u32],
    registers: &mut [u32],
    memory: &mut [u32],
    addresses: &mut [u32],
    values: &mut [u32],
) -> Turn
    requires { Cached c image.now mask cells.now × (limit ≡ stack_limit c.pcstack) × (length stack.old ≡ 63) × (m.mode ≡ 0) × Good (env c image.now inputs.now) (state m stack.old registers.old memory.old addresses.old values.old) }
    ensures { Steps-by (env c image.now inputs.now) (state m stack.old registers.old memory.old addresses.old values.old) (state result.core stack.new registers.new memory.new addresses.new values.new) (cell_at mask cells.now m.pc) result }
{
    let d = decide(
        c, limit, m, mask, cells, image, inputs, stack, registers, memory, addresses, values,
    );
    let x = d.change;
    let stop = x.stop;
    if stop != 0 {
        return Turn {
            stop,
            cycles: 0,
            core: m,
        };
    }
    commit(x, stack, registers, memory, addresses, values);
    let core = x.core;
    Turn {
        stop: 0,
        cycles: d.cycles,
        core,
    }
}
