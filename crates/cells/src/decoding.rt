// Decoding a word to its cell: by the template of its row, where two limits tell that the word can be read; else it is read first.
ghost use Rattle.std.specs.Prelude.{◌≡◌, ◌+◌, ◌/◌, ◌%◌, ◌<◌, ◌≤◌};
ghost use Rattle.laws.specs.Test.{Holds};
ghost use Rattle.words.specs.Configs.{lawful};
ghost use Rattle.cells.specs.Cell.{leaving as left, cell_of};
ghost use Rattle.cells.specs.Templates.{template_of, source_number, value_from, part as part_of, cost_of, filled};

use crate::templates::TEMPLATES;
use crate::{TURNS_OFF, TURNS_ON, layout as own};
use words::{Config, Form, layout};

// Where the value of a cell comes from: an immediate, bits 15-0 or 22-0 of the word, its byte number, JSRWP's unit and address, or what a switch of
// special-register mode says.
#[derive(Clone, Copy)]
enum ValueSource {
    Nowhere,
    Immediate(Form),
    Lower,
    Target,
    ByteNumber,
    UnitAndAddress,
    TurnsOn,
    TurnsOff,
}

// What the words of a row have in common: the digits of one number.
#[derive(Clone, Copy)]
struct Template {
    packed: u32,
    ghost cheap: { packed / 0x1000000 + packed / 0x200 % 2 ≤ 3 },
    ghost known: { packed / 0x10000 % 16 ≤ 9 },
}

impl Template {
    // Past the rows 0.
    #[tactic(auto, using(crate::proofs::templates::Laws::template_is))]
    fn of_row(n: u32) -> Template
        ensures { result.packed ≡ template_of n }
    {
        Template {
            packed: TEMPLATES.get(n as usize).copied().unwrap_or(0),
        }
    }

    // The check by which the limits tell that a word can be read.
    fn check(self) -> u32
        ensures { result ≡ self.packed / 0x400 % 64 }
    {
        self.packed / own::CHECK % own::CHECKS
    }

    // The cycles; a load waits where DM_PIPE is not 0.
    #[tactic(auto, unfolding(crate::specs::Templates::cost_of, arith::specs::Width::one, laws::specs::Choice::pick))]
    fn cost(self, c: Config) -> u64
        ensures { (result ≡ cost_of c self.packed) × (result ≤ 3) }
    {
        let cycles = (self.packed / own::COSTS) as u64;
        if (self.packed / own::LOADS % 2 == 1) & (c.dmpipe != 0) {
            return cycles + 1;
        }
        cycles
    }

    fn value_source(self) -> ValueSource
        ensures { source_number result ≡ self.packed / 0x10000 % 16 }
    {
        match self.packed / own::VALUE_SOURCE % own::VALUE_SOURCES {
            1 => ValueSource::Immediate(Form::Signed),
            2 => ValueSource::Immediate(Form::Unsigned),
            3 => ValueSource::Immediate(Form::Shifted),
            4 => ValueSource::Lower,
            5 => ValueSource::Target,
            6 => ValueSource::ByteNumber,
            7 => ValueSource::UnitAndAddress,
            8 => ValueSource::TurnsOn,
            9 => ValueSource::TurnsOff,
            _ => ValueSource::Nowhere,
        }
    }

    // The value in word w.
    #[tactic(auto, using(crate::proofs::Filled::immediate_value), unfolding(crate::specs::Templates::value_from, laws::specs::Choice::pick))]
    fn value(self, c: Config, w: u32) -> u32
        ensures { result ≡ value_from c (self.packed / 0x10000 % 16) w }
    {
        match self.value_source() {
            ValueSource::Nowhere => 0,
            ValueSource::Immediate(form) => arith::immediate(c.regwidth, form, w),
            ValueSource::Lower => w % layout::LOWER_VALUES,
            ValueSource::Target => w % layout::TARGETS,
            ValueSource::ByteNumber => w / layout::NUMBER % layout::BYTE_NUMBERS,
            ValueSource::UnitAndAddress => w % layout::TARGETS,
            ValueSource::TurnsOn => TURNS_ON,
            ValueSource::TurnsOff => TURNS_OFF,
        }
    }

    // A part v of the word, where the mark says that it is read.
    #[tactic(auto, unfolding(laws::specs::Choice::pick))]
    fn part(self, mark: u32, v: u32) -> u64
        requires { 0 < mark }
        ensures { (result ≡ part_of (self.packed / mark) v) × (result ≤ v) }
    {
        if self.packed / mark % 2 == 1 {
            v as u64
        } else {
            0
        }
    }

    // The cell of word w. Not inlined, the configuration would be copied for it.
    #[inline(always)]
    #[tactic(auto, unfolding(crate::specs::Templates::filled))]
    fn cell(self, c: Config, w: u32) -> u64
        ensures { result ≡ filled c self.packed w }
    {
        let taken = (self.packed / own::JUMPS % 16) as u64;
        let value = self.value(c, w) as u64;
        let source = self.part(own::READS_SOURCE, w % layout::UPPER_VALUES);
        let destination = self.part(
            own::READS_DESTINATION,
            w / layout::UPPER % layout::UPPER_VALUES,
        );
        let flag = self.part(own::READS_FLAG, w / layout::FLAG % 2);
        let action = (self.packed % 64) as u64;
        own::CYCLES * self.cost(c)
            + own::TAKEN * taken
            + own::VALUE * value
            + own::SOURCE * source
            + own::DESTINATION * destination
            + own::FLAG * flag
            + action
    }
}

// A cell that the loop does not carry out.
fn leaving(n: u32) -> u64
    ensures { result ≡ left n }
{
    own::VALUE * (n as u64)
}

// The cell of word w, under a lawful configuration.
pub fn decode(c: Config, w: u32) -> u64
    ensures { Holds (lawful c) → result ≡ cell_of c w }
{
    let t = Template::of_row(words::row_of_word(w));
    if words::within_limits(c, t.check(), w) {
        return t.cell(c, w);
    }
    match words::read_word(c, w) {
        Ok(_) => t.cell(c, w),
        Err(x) => leaving(x.number()),
    }
}
