// The public calls: one step, and a run.
ghost use Rattle.std.specs.Prelude.{◌≡◌, Some};
ghost use Rattle.state.specs.State.{env, state};
ghost use Rattle.state.specs.DoubleSteps.{DoubleSteps};
ghost use Rattle.machine.specs.Claims.{Steps, StepsLent, Runs, RunsLent};
ghost use Rattle.machine.specs.Stepping.{machine_state, stepped, stepped_core, ran_end, ran_core};

use crate::turning::{once, turns};
use crate::{Ran, Stepped, Stop};
use guards::Lent;
use state::{Core, Machine};
use words::Config;

// One step, a run of one, on a lent return stack: the first stop in document 01's order, or the next core and the step's cycles. Answer, core, return stack, both
// memories and both lists of the output log are `step_of` of what was given; a refused step leaves them as they were. WrongLength where the stack is not 63 cells long.
pub fn step_lent(
    c: Config,
    image: &[u32],
    inputs: &[u32],
    core: Core,
    stack: &mut [u32],
    registers: &mut [u32],
    memory: &mut [u32],
    addresses: &mut [u32],
    values: &mut [u32],
) -> Result<Stepped<Core>, Stop>
    ensures { StepsLent (env c image.now inputs.now) (state core stack.old registers.old memory.old addresses.old values.old) (stepped_core core result stack.new registers.new memory.new addresses.new values.new) }
{
    if stack.len() != Machine::STACK_CELLS {
        return Err(Stop::WrongLength);
    }
    let lent = Lent {
        image,
        inputs,
        stack,
        registers,
        memory,
        addresses,
        values,
    };
    guards::validate(c, core, &lent)?;
    let t = once(
        c, core, image, inputs, stack, registers, memory, addresses, values,
    );
    if let Some(stop) = Stop::numbered(t.stop) {
        return Err(stop);
    }
    let after = t.core;
    Ok(Stepped {
        cycles: t.cycles,
        after,
    })
}

// The same of a machine by value.
pub fn step(
    c: Config,
    image: &[u32],
    inputs: &[u32],
    m: Machine,
    registers: &mut [u32],
    memory: &mut [u32],
    addresses: &mut [u32],
    values: &mut [u32],
) -> Result<Stepped<Machine>, Stop>
    ensures answer { Steps (env c image.now inputs.now) (machine_state m registers.old memory.old addresses.old values.old) (stepped m result registers.new memory.new addresses.new values.new) }
    ensures double_steps { DoubleSteps }
{
    let core = m.core;
    let mut stack = m.stack;
    let s = step_lent(
        c, image, inputs, core, &mut stack, registers, memory, addresses, values,
    )?;
    let core = s.after;
    Ok(Stepped {
        cycles: s.cycles,
        after: Machine { core, stack },
    })
}

// A run that ended before its first step.
fn not_begun(core: Core, stop: Stop) -> Ran<Core>
    ensures { result ≡ record { stop = Some stop; steps = 0; cycles = 0; after = core } }
{
    Ran {
        stop: Some(stop),
        steps: 0,
        cycles: 0,
        after: core,
    }
}

// A run on a lent return stack: its steps one by one, to the budget or to the first that is stopped; BudgetTooLarge where the budget is above
// 1,000,000, and WrongLength where the stack is not 63 cells long. The memories are looked through once at most, before the first step.
pub fn run_lent(
    c: Config,
    image: &[u32],
    inputs: &[u32],
    core: Core,
    stack: &mut [u32],
    registers: &mut [u32],
    memory: &mut [u32],
    addresses: &mut [u32],
    values: &mut [u32],
    budget: u64,
) -> Ran<Core>
    ensures { RunsLent budget (env c image.now inputs.now) (state core stack.old registers.old memory.old addresses.old values.old) (ran_core result stack.new registers.new memory.new addresses.new values.new) }
{
    if stack.len() != Machine::STACK_CELLS {
        return not_begun(core, Stop::WrongLength);
    }
    let lent = Lent {
        image,
        inputs,
        stack,
        registers,
        memory,
        addresses,
        values,
    };
    if let Err(why) = guards::validate(c, core, &lent) {
        return not_begun(core, Stop::from(why));
    }
    if Machine::BUDGET_MOST < budget {
        return not_begun(core, Stop::BudgetTooLarge);
    }
    let t = turns(
        c, core, image, inputs, stack, registers, memory, addresses, values, budget,
    );
    let after = t.core;
    Ran {
        stop: Stop::numbered(t.stop),
        steps: t.steps,
        cycles: t.cycles,
        after,
    }
}

// The same of a machine by value.
pub fn run(
    c: Config,
    image: &[u32],
    inputs: &[u32],
    m: Machine,
    registers: &mut [u32],
    memory: &mut [u32],
    addresses: &mut [u32],
    values: &mut [u32],
    budget: u64,
) -> Ran<Machine>
    ensures { Runs budget (env c image.now inputs.now) (machine_state m registers.old memory.old addresses.old values.old) (ran_end result registers.new memory.new addresses.new values.new) }
{
    let core = m.core;
    let mut stack = m.stack;
    let r = run_lent(
        c, image, inputs, core, &mut stack, registers, memory, addresses, values, budget,
    );
    let core = r.after;
    Ran {
        stop: r.stop,
        steps: r.steps,
        cycles: r.cycles,
        after: Machine { core, stack },
    }
}
