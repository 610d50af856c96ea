// One step by the cell of its word. What the loop does not carry out is made here; the rest is a stretch of one step.
ghost use Rattle.std.specs.Prelude.{◌≡◌, ◌≤◌, ◌<◌, length, get_or};
ghost use Rattle.state.specs.State.{env, state};
ghost use Rattle.state.specs.Good.{Good};
ghost use Rattle.cells.specs.Cell.{cell_of};
ghost use Rattle.machine.specs.Cached.{cell_at, Cached};
ghost use Rattle.machine.specs.Exec.{Placed};
ghost use Rattle.machine.specs.Single.{stopped_by, passed_to, switched, reveals as revealing, revealed, revealed_in};
ghost use Rattle.machine.specs.Stretching.{Went};

use crate::Turns;
use crate::stretching::stretch;
use cells::{TURNS_OFF, TURNS_ON};
use state::{Core, Machine};
use words::{Config, actions};

// The cycles of a step that reads neither a port nor data memory.
const CYCLES: u64 = 2;

// A step that is stopped.
pub fn stopped(m: Core, stop: u32) -> Turns
    ensures { result ≡ stopped_by m stop }
{
    Turns {
        stop,
        steps: 0,
        cycles: 0,
        core: m,
    }
}

// A step that leads to core m.
fn passed(m: Core) -> Turns
    ensures { result ≡ passed_to m }
{
    Turns {
        stop: 0,
        steps: 1,
        cycles: CYCLES,
        core: m,
    }
}

// A cell of action 0 and value n: SPR_OFF, SPR_ON, or a word that is refused.
fn switch(m: Core, n: u32) -> Turns
    ensures { result ≡ switched m n }
{
    if n == TURNS_OFF {
        let x = plans::leave_special(m);
        let core = x.core;
        return passed(core);
    }
    if n == TURNS_ON {
        if m.mode == 0 {
            let x = plans::enter_special(m);
            let core = x.core;
            return passed(core);
        }
        return stopped(m, 8);
    }
    stopped(m, n)
}

// Whether cell x is MOV of a special register: 0, 1, 2, 3 or 7.
fn reveals(x: u64) -> bool
    ensures { result ≡ revealing x }
{
    let s = cells::source(x);
    (cells::action(x) == actions::MOV_REGISTER)
        & ((s == 0) | ((s == 1) | ((s == 2) | ((s == 3) | (s == 7)))))
}

// A cell of another action in special-register mode: 8, but for MOV of a special register.
fn reveal(c: Config, m: Core, x: u64, registers: &mut [u32]) -> Turns
    requires { Placed m (length registers.old) x }
    ensures { (result ≡ revealed m x) × (registers.new ≡ revealed_in c m x registers.old) }
{
    if reveals(x) {
        let at = m.wp + cells::destination(x);
        registers[at] = plans::special_register(c, m.spr7, cells::source(x) as u32);
        let y = plans::skip(m);
        let core = y.core;
        return passed(core);
    }
    stopped(m, 8)
}

// Steps from PC on, to the budget, to a stop, or to one that is made apart; at least one, unless it is stopped. x is the cell of the word at PC, and kept among the
// cells. The loop is compiled into this function, and the order of the parameters decides what stays in registers: see docs/landings/base-7-decode.md.
pub fn by_cell(
    registers: &mut [u32],
    mask: usize,
    c: Config,
    memory: &mut [u32],
    budget: u64,
    x: u64,
    m: Core,
    cells: &[u64],
    inputs: &[u32],
    stack: &mut [u32],
    image: &[u32],
    addresses: &mut [u32],
    values: &mut [u32],
) -> Turns
    requires { (length stack.old ≡ 63) × Good (env c image.now inputs.now) (state m stack.old registers.old memory.old addresses.old values.old) × (m.pc < c.imsize) × (get_or image.now m.pc 0 < 4294967296) × (x ≡ cell_of c (get_or image.now m.pc 0)) × Cached c image.now mask cells.now × (cell_at mask cells.now m.pc ≡ x) × (0 < budget) × (budget ≤ 1000000) }
    ensures { Went budget (env c image.now inputs.now) (state m stack.old registers.old memory.old addresses.old values.old) (state result.core stack.new registers.new memory.new addresses.new values.new) result }
{
    if cells::action(x) == 0 {
        return switch(m, cells::value(x));
    }
    if m.mode != 0 {
        return reveal(c, m, x, registers);
    }
    let limit = Machine::stack_limit(c.pcstack);
    stretch(
        registers, cells, mask, c, limit, m, image, inputs, stack, memory, addresses, values,
        budget,
    )
}
