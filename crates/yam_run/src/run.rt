// A run, and what is printed of it (specs/Running.antt).
ghost use Rattle.std.specs.Prelude.{[]};
ghost use Rattle.machine.specs.Stepping.{machine_state, ran_end, end_of};
ghost use Rattle.printing.specs.Printers.{Prints};
ghost use Rattle.report.specs.Report.{report_of};
ghost use Rattle.state.specs.Run.{run_call};
ghost use Rattle.state.specs.State.{env, reset_machine};
ghost use Rattle.yam_run.specs.Running.{end_text};

use crate::lent::{Memories, Program};
use machine::{Ran, Stop};
use printing::Printer;
use report::{Lists, Outcome, Snapshot};
use state::Machine;
use words::Config;

// What is printed of a run's answer.
fn put_ran(p: &mut Printer, c: Config, r: Ran<Machine>, lent: &Memories)
    ensures { Prints p.old (end_text c (ran_end r lent.now.registers.now [] lent.now.addresses.now lent.now.values.now)) p.new }
{
    let number = r.number();
    if r.stop == Some(Stop::BudgetTooLarge) {
        p.refusal(number);
        return;
    }
    let ended = Outcome {
        number,
        steps: r.steps,
        cycles: r.cycles,
    };
    put_left(p, c, ended, &r.after, lent);
}

// The report of what ended so, of the machine and the memories that it left.
pub fn put_left(p: &mut Printer, c: Config, ended: Outcome, m: &Machine, lent: &Memories)
    ensures { Prints p.old (report_of c ended.number ended.steps ended.cycles m.now.core m.now.stack lent.now.registers.now lent.now.addresses.now lent.now.values.now) p.new }
{
    let left = Snapshot {
        core: m.core,
        registers: lent.registers,
        memory: lent.memory,
    };
    let lists = Lists {
        stack: &m.stack,
        addresses: lent.addresses,
        values: lent.values,
    };
    report::put_report(p, c, ended, &left, &lists);
}

// Runs from reset and puts what is printed of it.
pub fn run_from_reset(p: &mut Printer, program: &Program, lent: &mut Memories, budget: u64)
    ensures { Prints p.old (end_text program.now.config (end_of (run_call budget (env program.now.config program.now.image.now program.now.inputs.now) (machine_state reset_machine lent.old.registers.now lent.old.memory.now lent.old.addresses.now lent.old.values.now)))) p.new }
{
    let r = machine::run(
        program.config,
        program.image,
        program.inputs,
        Machine::reset(),
        lent.registers,
        lent.memory,
        lent.addresses,
        lent.values,
        budget,
    );
    put_ran(p, program.config, r, lent);
}
