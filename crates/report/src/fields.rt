// The values of a machine's record by name: as lines, and what changed (specs/Fields.antt).
ghost use Rattle.std.specs.Prelude.{◌/◌, ◌≡◌, ◌++◌};
ghost use Rattle.printing.specs.Printers.{Prints};
ghost use Rattle.report.specs.Fields.{line_text, lines_of, change_text, changes_of, pointers, masks, counts, word_digits};
ghost use Rattle.report.specs.Values.{shown_text, value_lines, value_changes, HasFields};

use printing::Printer;
use state::Core;
use words::Config;

// Hex digits of WP, of a register's number, and of a value that is 0 or 1 or a mask.
const BANK_DIGITS: usize = 3;

const REGISTER_DIGITS: usize = 2;

const MASK_DIGITS: usize = 1;

const BITS_PER_DIGIT: u32 = 4;

// How a value is shown: with so many hex digits, or in decimal.
#[derive(Clone, Copy)]
pub enum Shown {
    Hex(usize),
    Decimal,
}

// A value of the record.
#[derive(Clone, Copy)]
pub struct Field {
    pub name: &'static [u8],
    pub shown: Shown,
    pub value: u64,
}

// Hex digits of a word.
pub fn word_digits(c: Config) -> usize
    ensures { result ≡ word_digits c }
{
    (c.regwidth / BITS_PER_DIGIT) as usize
}

impl Field {
    fn new(name: &'static [u8], shown: Shown, value: u64) -> Field
        ensures name { result.name.now ≡ name.now }
        ensures shown { result.shown ≡ shown }
        ensures value { result.value ≡ value }
    {
        Field { name, shown, value }
    }
}

// The record's values, in the report's order.
fn fields(c: Config, m: Core) -> [Field; 15]
    ensures { HasFields m result (pointers ++ (masks c ++ counts c)) }
{
    let w = word_digits(c);
    [
        Field::new(b"WP", Shown::Hex(BANK_DIGITS), m.wp as u64),
        Field::new(b"RX", Shown::Hex(REGISTER_DIGITS), m.rx as u64),
        Field::new(b"RY", Shown::Hex(REGISTER_DIGITS), m.ry as u64),
        Field::new(b"N", Shown::Hex(MASK_DIGITS), m.n),
        Field::new(b"Z", Shown::Hex(MASK_DIGITS), m.z),
        Field::new(b"SPR7", Shown::Hex(w), m.spr7),
        Field::new(b"IMask", Shown::Hex(MASK_DIGITS), m.imask),
        Field::new(b"saved", Shown::Hex(MASK_DIGITS), m.saved),
        Field::new(b"mode", Shown::Hex(MASK_DIGITS), m.mode),
        Field::new(b"posted", Shown::Hex(MASK_DIGITS), m.posted as u64),
        Field::new(b"port", Shown::Hex(w), m.port),
        Field::new(b"loaded", Shown::Hex(MASK_DIGITS), m.loaded as u64),
        Field::new(b"taken", Shown::Decimal, m.taken as u64),
        Field::new(b"logged", Shown::Decimal, m.logged as u64),
        Field::new(b"depth", Shown::Decimal, m.depth as u64),
    ]
}

fn put_value(p: &mut Printer, shown: Shown, value: u64)
    ensures { Prints p.old (shown_text shown value) p.new }
{
    match shown {
        Shown::Hex(digits) => p.hex(digits, value),
        Shown::Decimal => p.decimal(value),
    }
}

// The line of a value.
pub fn put_line(p: &mut Printer, name: &[u8], shown: Shown, value: u64)
    ensures { Prints p.old (line_text name.now (shown_text shown value)) p.new }
{
    p.bytes(name);
    p.bytes(b" ");
    put_value(p, shown, value);
    p.bytes(b"\n");
}

// A value that is another than before.
fn put_change(p: &mut Printer, f: Field, old: u64)
    ensures { Prints p.old (change_text f.name.now (shown_text f.shown f.value) old f.value) p.new }
{
    if old == f.value {
        return;
    }
    p.bytes(b" ");
    p.bytes(f.name);
    p.bytes(b"=");
    put_value(p, f.shown, f.value);
}

// The line of each value.
fn put_lines(p: &mut Printer, values: &[Field])
    ensures { Prints p.old (value_lines values.now) p.new }
{
    for f in values {
        put_line(p, f.name, f.shown, f.value);
    }
}

// The lines of the record.
pub fn put_fields(p: &mut Printer, c: Config, m: Core)
    ensures { Prints p.old (lines_of (pointers ++ (masks c ++ counts c)) m) p.new }
{
    put_lines(p, &fields(c, m));
}

// Each value that is another than before.
fn put_value_changes(p: &mut Printer, old: &[Field], new: &[Field])
    ensures { Prints p.old (value_changes old.now new.now) p.new }
{
    for (x, y) in old.iter().zip(new) {
        put_change(p, *y, x.value);
    }
}

// What changed in the record.
pub fn put_changes(p: &mut Printer, c: Config, old: Core, new: Core)
    ensures { Prints p.old (changes_of (pointers ++ (masks c ++ counts c)) old new) p.new }
{
    put_value_changes(p, &fields(c, old), &fields(c, new));
}
