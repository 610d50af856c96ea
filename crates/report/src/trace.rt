// The line of a step (specs/Trace.antt).
ghost use Rattle.std.specs.Prelude.{◌≡◌};
ghost use Rattle.printing.specs.Printers.{Prints};
ghost use Rattle.report.specs.Trace.{filled_from, step_text, changed_cells, changed_log, trace_line};

use crate::cells::{put_cell_changes, put_cells, put_pairs};
use crate::fields::{put_changes, word_digits};
use crate::report::{ADDRESS_DIGITS, place_digits};
use crate::{Lists, Snapshot};
use printing::Printer;
use state::Core;
use words::Config;

// Hex digits of a data address.
const DATA_DIGITS: usize = 4;

// The places from n on of those that are filled.
fn filled_from(n: usize, filled: usize, cells: &[u32]) -> &[u32]
    ensures { result.now ≡ filled_from n filled cells.now }
{
    let all = opening::first(filled, cells);
    &all[n.min(all.len())..]
}

fn put_step(p: &mut Printer, c: Config, image: &[u32], step: u64, cycles: u64, pc: usize)
    ensures { Prints p.old (step_text c image.now step cycles pc) p.new }
{
    p.decimal(step);
    p.bytes(b" ");
    p.decimal(cycles);
    p.bytes(b" ");
    p.entry(c, image, pc);
    p.bytes(b" ;");
}

// The addresses that were pushed, and the cells that changed.
fn put_changed_cells(p: &mut Printer, c: Config, old: &Snapshot, new: &Snapshot, stack: &[u32])
    ensures { Prints p.old (changed_cells c old.now.core new.now.core stack.now old.now.registers.now new.now.registers.now old.now.memory.now new.now.memory.now) p.new }
{
    let w = word_digits(c);
    let pushed = filled_from(old.core.depth, new.core.depth, stack);
    put_cells(p, pushed, b" stack=", ADDRESS_DIGITS, b"");
    put_cell_changes(p, b"%", place_digits(c), w, old.registers, new.registers);
    put_cell_changes(p, b"&", DATA_DIGITS, w, old.memory, new.memory);
}

// The places of the log that were filled.
fn put_changed_log(p: &mut Printer, c: Config, old: Core, new: Core, lists: &Lists)
    ensures { Prints p.old (changed_log c old new lists.now.addresses.now lists.now.values.now) p.new }
{
    let addresses = filled_from(old.logged, new.logged, lists.addresses);
    let values = filled_from(old.logged, new.logged, lists.values);
    put_pairs(p, addresses, values, b" log=", word_digits(c), b":", b"");
}

// The line of step `step`, with `cycles` so far, from one state of the machine to the next, whose lists are `lists`.
pub fn put_trace(
    p: &mut Printer,
    c: Config,
    image: &[u32],
    step: u64,
    cycles: u64,
    old: &Snapshot,
    new: &Snapshot,
    lists: &Lists,
)
    ensures { Prints p.old (trace_line c image.now step cycles old.now.core new.now.core lists.now.stack.now old.now.registers.now new.now.registers.now old.now.memory.now new.now.memory.now lists.now.addresses.now lists.now.values.now) p.new }
{
    put_step(p, c, image, step, cycles, old.core.pc);
    put_changes(p, c, old.core, new.core);
    put_changed_cells(p, c, old, new, lists.stack);
    put_changed_log(p, c, old.core, new.core, lists);
    p.bytes(b"\n");
}
