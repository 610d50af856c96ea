// Steps one after another, each with its line (specs/Tracing.antt).
ghost use Rattle.std.specs.Prelude.{◌≡◌, length};
ghost use Rattle.machine.specs.Stepping.{machine_state};
ghost use Rattle.printing.specs.Puts.{Puts};
ghost use Rattle.report.specs.Trace.{trace_line};
ghost use Rattle.yam_run.specs.Running.{Traces, machine_of};
ghost use Rattle.yam_run.specs.Tracing.{TracesJoin, TraceAsRun};

use crate::lent::{Memories, Program};
use crate::run::put_left;
use files::Failure;
use machine::Stop;
use printing::Printer;
use report::{Lists, Outcome, Snapshot};
use state::{Core, Machine};

// A step that was carried out: its cycles, the machine after it, and how many bytes of the page its line has.
#[derive(Clone, Copy)]
pub struct Traced {
    pub cycles: u64,
    pub machine: Machine,
    pub bytes: usize,
}

// Memories that are lent to hold what the cells held before a step.
#[derive(Drop)]
pub struct Before<'a> {
    pub registers: &'a mut [u32],
    pub memory: &'a mut [u32],
}

// Keeps what the cells hold.
fn keep(before: &mut Before, lent: &Memories)
    requires { (length before.old.registers.now ≡ length lent.now.registers.now) × (length before.old.memory.now ≡ length lent.now.memory.now) }
    ensures registers { before.new.registers.now ≡ lent.now.registers.now }
    ensures memory { before.new.memory.now ≡ lent.now.memory.now }
{
    before.registers.copy_from_slice(lent.registers);
    before.memory.copy_from_slice(lent.memory);
}

// The line of a step, with `cycles` so far, that took the machine from `old` to `next`.
fn put_line(
    program: &Program,
    step: u64,
    cycles: u64,
    old: Core,
    before: &Before,
    next: &Machine,
    lent: &Memories,
    page: &mut [u8],
) -> usize
    ensures { Puts page.old 0 (trace_line program.now.config program.now.image.now step cycles old next.now.core next.now.stack before.now.registers.now lent.now.registers.now before.now.memory.now lent.now.memory.now lent.now.addresses.now lent.now.values.now) result page.new }
{
    let from = Snapshot {
        core: old,
        registers: before.registers,
        memory: before.memory,
    };
    let to = Snapshot {
        core: next.core,
        registers: lent.registers,
        memory: lent.memory,
    };
    let lists = Lists {
        stack: &next.stack,
        addresses: lent.addresses,
        values: lent.values,
    };
    let mut p = Printer { page, at: 0 };
    report::put_trace(
        &mut p,
        program.config,
        program.image,
        step,
        cycles,
        &from,
        &to,
        &lists,
    );
    p.at
}

// One step and its line, the `step`th, with `cycles` before it.
fn trace_step(
    program: &Program,
    m: Machine,
    lent: &mut Memories,
    before: &mut Before,
    step: u64,
    cycles: u64,
    page: &mut [u8],
) -> Result<Traced, Stop>
    requires { (length before.old.registers.now ≡ length lent.old.registers.now) × (length before.old.memory.now ≡ length lent.old.memory.now) }
    ensures steps { Traces program.now.config program.now.image.now program.now.inputs.now (machine_state m lent.old.registers.now lent.old.memory.now lent.old.addresses.now lent.old.values.now) step cycles page.old result (machine_state (machine_of m result) lent.new.registers.now lent.new.memory.now lent.new.addresses.now lent.new.values.now) page.new × TracesJoin × TraceAsRun }
    ensures registers { length before.new.registers.now ≡ length lent.new.registers.now }
    ensures memory { length before.new.memory.now ≡ length lent.new.memory.now }
{
    keep(before, lent);
    let s = machine::step(
        program.config,
        program.image,
        program.inputs,
        m,
        lent.registers,
        lent.memory,
        lent.addresses,
        lent.values,
    )?;
    let total = cycles.wrapping_add(s.cycles);
    let bytes = put_line(program, step, total, m.core, before, &s.after, lent, page);
    Ok(Traced {
        cycles: s.cycles,
        machine: s.after,
        bytes,
    })
}

// Prints the report of the steps that were traced.
fn print_report(
    rt: &impl Print,
    program: &Program,
    ended: Outcome,
    m: &Machine,
    lent: &Memories,
    page: &mut [u8],
) -> Result<(), Failure<'static>> {
    let mut p = Printer {
        page: &mut *page,
        at: 0,
    };
    put_left(&mut p, program.config, ended, m, lent);
    let end = p.at;
    files::print(rt, page, end)
}

// Traces from reset: a line for each step that is carried out, to the budget or to the first that is stopped, and the report.
pub fn trace_from_reset(
    rt: &impl Print,
    program: &Program,
    lent: &mut Memories,
    before: &mut Before,
    budget: u64,
    page: &mut [u8],
) -> Result<(), Failure<'static>>
    requires { (length before.old.registers.now ≡ length lent.old.registers.now) × (length before.old.memory.now ≡ length lent.old.memory.now) }
{
    let mut m = Machine::reset();
    let mut cycles: u64 = 0;
    for steps in 0..budget {
        match trace_step(program, m, lent, before, steps + 1, cycles, page) {
            Ok(t) => {
                files::print(rt, page, t.bytes)?;
                m = t.machine;
                cycles = cycles.wrapping_add(t.cycles);
            }
            Err(stop) => {
                let ended = Outcome {
                    number: stop.number(),
                    steps,
                    cycles,
                };
                return print_report(rt, program, ended, &m, lent, page);
            }
        }
    }
    let ended = Outcome {
        number: 0,
        steps: budget,
        cycles,
    };
    print_report(rt, program, ended, &m, lent, page)
}
