// Most addresses that keep every rule are settled at once, from the marks of the word's row: the eight rules are asked one by one only of the others.
ghost use Rattle.std.specs.Prelude.{◌≡◌, false, ◌+◌, T};
ghost use Rattle.rules.specs.Marks.{mark_at, sub_of};
ghost use Rattle.rules.specs.Rules.{reads_port};
ghost use Rattle.rules.specs.Check.{lowest};
ghost use Rattle.words.specs.Packed.{base_table, row_table, parts_lent};
ghost use Rattle.certificate.specs.Settling.{Follows, Allowed};

use crate::judging::stays_special;
use crate::marks::Mark;
use crate::sheet::Sheet;
use words::Facts;

// Whether a successor of mark y keeps rules 4 to 7 after a word that leaves mark e.
fn follows(call: bool, e: Mark, y: Mark) -> bool
    ensures { T result → Follows call e.byte y.byte }
{
    if !e.is_used() {
        return false;
    }
    if call {
        (y.flags() == e.mode() * 2 + 1) & (y.level() < e.level())
    } else {
        (y.byte <= e.byte) & (y.flags() == e.flags())
    }
}

// Whether word w, of row n, may stand in the mode of mark x.
fn allowed(sheet: &Sheet, n: u32, w: u32, f: Facts, x: Mark) -> bool
    ensures { T result → Allowed f (parts_lent base_table row_table sheet.now.reader.now.config n w).source x.byte }
{
    if x.mode() == 0 {
        return true;
    }
    let i = sheet.reader.parts(n, w);
    !f.enters & stays_special(f, i.source)
}

// Whether after a port write the row of the next word is no port read.
fn quiet(sheet: &Sheet, next: usize, output: bool) -> bool
    ensures { T result → T output → reads_port sheet.now.reader.now.config sheet.now.image.now next ≡ false }
{
    if !output {
        return true;
    }
    let f = sheet.reader.facts(sheet.reader.row(sheet.word(next)));
    !f.input
}

// Whether the target of word w, of row n, keeps rules 4 to 7, if it has one.
fn arrives(sheet: &Sheet, n: u32, w: u32, f: Facts, e: Mark) -> bool
    ensures { T result → T f.target → Follows f.calls e.byte (mark_at sheet.now.certificate.now (parts_lent base_table row_table sheet.now.reader.now.config n w).value) }
{
    if !f.target {
        return true;
    }
    let i = sheet.reader.parts(n, w);
    follows(f.calls, e, sheet.mark(i.value as usize))
}

// Whether the next address keeps rules 4 to 7, if it is a successor, and a return stands in a subroutine.
fn goes_on(sheet: &Sheet, next: usize, f: Facts, x: Mark, e: Mark) -> bool
    ensures { T result → (T f.next → Follows false e.byte (mark_at sheet.now.certificate.now next)) × (T f.returns → sub_of x.byte ≡ 1) }
{
    if f.next {
        return !f.returns & follows(false, e, sheet.mark(next));
    }
    !f.returns | (x.sub() == 1)
}

// Whether address a, of mark x, keeps every rule, as far as it is settled here: address 0 is not, nor a word that is not below the limits of its row.
pub fn settled(sheet: &Sheet, a: u32, x: Mark) -> bool
    requires { x.byte ≡ mark_at sheet.now.certificate.now a }
    ensures { T result → lowest sheet.now.reader.now.config sheet.now.image.now sheet.now.certificate.now a ≡ 0 }
{
    if a == 0 || sheet.limit < usize::from(x.level()) {
        return false;
    }
    let w = sheet.word(a as usize);
    let n = sheet.reader.row(w);
    if !sheet.reader.below_limits(n, w) {
        return false;
    }
    let f = sheet.reader.facts(n);
    let e = x.after(f);
    let next = a as usize + 1;
    if f.barred
        || !allowed(sheet, n, w, f, x)
        || !quiet(sheet, next, f.output)
        || !arrives(sheet, n, w, f, e)
    {
        return false;
    }
    goes_on(sheet, next, f, x, e)
}
