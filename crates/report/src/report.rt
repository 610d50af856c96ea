// The report of a run (specs/Report.antt).
ghost use Rattle.std.specs.Prelude.{◌≡◌};
ghost use Rattle.printing.specs.Printers.{Prints};
ghost use Rattle.report.specs.Report.{place_digits, outcome_text, lists_text, report_of};

use crate::cells::{put_cells, put_pairs, put_registers};
use crate::fields::{Shown, put_fields, put_line, word_digits};
use crate::{Lists, Outcome, Snapshot};
use printing::Printer;
use state::Core;
use words::Config;

// Hex digits of an address of the image.
pub const ADDRESS_DIGITS: usize = 6;

// Hex digits of a register's place, without banks and with them.
const SINGLE_DIGITS: usize = 2;

const BANKED_DIGITS: usize = 3;

pub fn place_digits(c: Config) -> usize
    ensures { result ≡ place_digits c }
{
    if c.rmsize == c.regsize {
        SINGLE_DIGITS
    } else {
        BANKED_DIGITS
    }
}

fn put_outcome(p: &mut Printer, ended: Outcome, pc: usize)
    ensures { Prints p.old (outcome_text ended.number ended.steps ended.cycles pc) p.new }
{
    put_line(p, b"ended", Shown::Decimal, ended.number as u64);
    put_line(p, b"steps", Shown::Decimal, ended.steps);
    put_line(p, b"cycles", Shown::Decimal, ended.cycles);
    put_line(p, b"PC", Shown::Hex(ADDRESS_DIGITS), pc as u64);
}

// Return stack, register memory and log.
fn put_lists(p: &mut Printer, c: Config, m: Core, registers: &[u32], lists: &Lists)
    ensures { Prints p.old (lists_text c m lists.now.stack.now registers.now lists.now.addresses.now lists.now.values.now) p.new }
{
    let w = word_digits(c);
    let d = place_digits(c);
    let stack = opening::first(m.depth, lists.stack);
    put_cells(p, stack, b"stack ", ADDRESS_DIGITS, b"\n");
    put_registers(p, registers, d, w);
    let addresses = opening::first(m.logged, lists.addresses);
    let values = opening::first(m.logged, lists.values);
    put_pairs(p, addresses, values, b"log ", w, b" ", b"\n");
}

// The report of a run that ended so, on the machine that it left.
pub fn put_report(p: &mut Printer, c: Config, ended: Outcome, left: &Snapshot, lists: &Lists)
    ensures { Prints p.old (report_of c ended.number ended.steps ended.cycles left.now.core lists.now.stack.now left.now.registers.now lists.now.addresses.now lists.now.values.now) p.new }
{
    let m = left.core;
    put_outcome(p, ended, m.pc);
    put_fields(p, c, m);
    put_lists(p, c, m, left.registers, lists);
}
