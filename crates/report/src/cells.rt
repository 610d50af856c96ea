// Cells of the memories, the return stack and the log (specs/Cells.antt).
ghost use Rattle.std.specs.Prelude.{◌++◌};
ghost use Rattle.printing.specs.Printers.{Prints};
ghost use Rattle.report.specs.Cells.{each_cell, each_pair, name_text, end_text, register_text, registers_from, cell_changes};
ghost use Rattle.report.specs.Fields.{change_text};
ghost use Rattle.syntax.specs.Digits.{hex};

use printing::Printer;

// Registers in a line of the report.
const LINE_CELLS: usize = 8;

fn put_cell(p: &mut Printer, before: &[u8], w: usize, x: u32, after: &[u8])
    ensures { Prints p.old (before.now ++ (hex w x ++ after.now)) p.new }
{
    p.bytes(before);
    p.hex(w, x as u64);
    p.bytes(after);
}

// Each cell.
pub fn put_cells(p: &mut Printer, cells: &[u32], before: &[u8], w: usize, after: &[u8])
    ensures { Prints p.old (each_cell before.now w after.now cells.now) p.new }
{
    for x in cells {
        put_cell(p, before, w, *x, after);
    }
}

fn put_pair(p: &mut Printer, before: &[u8], w: usize, a: u32, between: &[u8], v: u32, after: &[u8])
    ensures { Prints p.old (before.now ++ (hex w a ++ (between.now ++ (hex w v ++ after.now)))) p.new }
{
    p.bytes(before);
    p.hex(w, a as u64);
    p.bytes(between);
    p.hex(w, v as u64);
    p.bytes(after);
}

// Each address with its value.
pub fn put_pairs(
    p: &mut Printer,
    addresses: &[u32],
    values: &[u32],
    before: &[u8],
    w: usize,
    between: &[u8],
    after: &[u8],
)
    ensures { Prints p.old (each_pair before.now w between.now after.now addresses.now values.now) p.new }
{
    for (a, v) in addresses.iter().zip(values) {
        put_pair(p, before, w, *a, between, *v, after);
    }
}

// The name before the first register of a line.
fn put_name(p: &mut Printer, d: usize, i: usize)
    ensures { Prints p.old (name_text d i) p.new }
{
    if i % LINE_CELLS == 0 {
        p.bytes(b"%");
        p.hex(d, i as u64);
    }
}

// The newline behind the last register of a line.
fn put_line_end(p: &mut Printer, i: usize)
    ensures { Prints p.old (end_text i) p.new }
{
    if i % LINE_CELLS == LINE_CELLS - 1 {
        p.bytes(b"\n");
    }
}

fn put_register(p: &mut Printer, d: usize, w: usize, i: usize, x: u32)
    ensures { Prints p.old (register_text d w i x) p.new }
{
    put_name(p, d, i);
    p.bytes(b" ");
    p.hex(w, x as u64);
    put_line_end(p, i);
}

// The register memory in lines.
pub fn put_registers(p: &mut Printer, cells: &[u32], d: usize, w: usize)
    ensures { Prints p.old (registers_from d w 0 cells.now) p.new }
{
    for (i, x) in cells.iter().enumerate() {
        put_register(p, d, w, i, *x);
    }
}

fn put_cell_change(p: &mut Printer, mark: &[u8], d: usize, w: usize, i: usize, x: u32, y: u32)
    ensures { Prints p.old (change_text (mark.now ++ hex d i) (hex w y) x y) p.new }
{
    if x == y {
        return;
    }
    p.bytes(b" ");
    p.bytes(mark);
    p.hex(d, i as u64);
    p.bytes(b"=");
    p.hex(w, y as u64);
}

// Each cell that holds another value than before.
pub fn put_cell_changes(p: &mut Printer, mark: &[u8], d: usize, w: usize, old: &[u32], new: &[u32])
    ensures { Prints p.old (cell_changes mark.now d w 0 old.now new.now) p.new }
{
    for i in 0..old.len().min(new.len()) {
        put_cell_change(p, mark, d, w, i, old[i], new[i]);
    }
}
