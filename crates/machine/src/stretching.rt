// The inner loop: it carries out cells and nothing else.
ghost use Rattle.std.specs.Prelude.{◌≡◌, ◌≤◌, length};
ghost use Rattle.state.specs.State.{env, state, stack_limit};
ghost use Rattle.state.specs.Good.{Good};
ghost use Rattle.machine.specs.Cached.{cell_at, Cached};
ghost use Rattle.machine.specs.Stretching.{Came};

use crate::Turns;
use crate::advance::advance;
use state::Core;
use words::Config;

// Steps to the budget, to a stop, or to a step that is made apart.
pub fn stretch(
    registers: &mut [u32],
    cells: &[u64],
    mask: usize,
    c: Config,
    limit: usize,
    first: Core,
    image: &[u32],
    inputs: &[u32],
    stack: &mut [u32],
    memory: &mut [u32],
    addresses: &mut [u32],
    values: &mut [u32],
    budget: u64,
) -> Turns
    requires { Cached c image.now mask cells.now × (limit ≡ stack_limit c.pcstack) × (length stack.old ≡ 63) × (first.mode ≡ 0) × Good (env c image.now inputs.now) (state first stack.old registers.old memory.old addresses.old values.old) × (budget ≤ 1000000) }
    ensures { Came (cell_at mask cells.now) budget (env c image.now inputs.now) (state first stack.old registers.old memory.old addresses.old values.old) (state result.core stack.new registers.new memory.new addresses.new values.new) result }
{
    let mut core = first;
    let mut cycles: u64 = 0;
    for done in 0..budget {
        let t = advance(
            c, limit, core, mask, cells, image, inputs, stack, registers, memory, addresses, values,
        );
        let next = t.core;
        core = next;
        if t.stop != 0 {
            return Turns {
                stop: t.stop,
                steps: done,
                cycles,
                core,
            };
        }
        cycles += t.cycles;
    }
    Turns {
        stop: 0,
        steps: budget,
        cycles,
        core,
    }
}
