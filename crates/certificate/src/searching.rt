// The search for the first address that breaks a rule.
ghost use Rattle.std.specs.Prelude.{◌≡◌, not, eqb};
ghost use Rattle.laws.specs.Choice.{pick};
ghost use Rattle.laws.specs.Test.{imp};
ghost use Rattle.rules.specs.Marks.{mark_at, level_of};
ghost use Rattle.rules.specs.Rules.{reads_port};
ghost use Rattle.rules.specs.Check.{passed, lowest, first_broken, check_of};
ghost use Rattle.certificate.specs.Answers.{answer_of, rule_of};
ghost use Rattle.certificate.specs.Claims.{Checks};

use crate::judging::{rule_1, rule_2, rule_4, rule_5, rule_6, rule_7};
use crate::settling::settled;
use crate::sheet::Sheet;
use crate::successors::Successors;
use crate::{Fault, Rule};
use state::Machine;
use words::{Config, Reader};

// Whether rule 8 holds: the next word is read only after a port write or IORMW.
fn rule_8(sheet: &Sheet, next: usize, output: bool) -> bool
    ensures { result ≡ imp output (not (reads_port sheet.now.reader.now.config sheet.now.image.now next)) }
{
    if !output {
        return true;
    }
    match sheet.reader.read(sheet.word(next)) {
        Ok(i) => !sheet.reader.facts(i.row).input,
        Err(_) => true,
    }
}

// The lowest rule that address a breaks by itself or its successors, the eight asked one by one.
fn lowest_rule(sheet: &Sheet, a: u32) -> Option<Rule>
    ensures { rule_of result ≡ lowest sheet.now.reader.now.config sheet.now.image.now sheet.now.certificate.now a }
{
    let x = sheet.mark(a as usize);
    if !rule_1(a == 0, x) {
        return Some(Rule::Start);
    }
    if !x.is_used() {
        return None;
    }
    if !rule_2(sheet.limit, x) {
        return Some(Rule::Limit);
    }
    let Ok(i) = sheet.reader.read(sheet.word(a as usize)) else {
        return Some(Rule::Word);
    };
    let f = sheet.reader.facts(i.row);
    if f.barred {
        return Some(Rule::Word);
    }
    let to = Successors::of(sheet, a, f, i.value);
    if !rule_4(to, sheet.reader.config.imsize as usize) {
        return Some(Rule::Successor);
    }
    if !rule_5(to, f, x) {
        return Some(Rule::Subroutine);
    }
    if !rule_6(to, x) {
        return Some(Rule::Level);
    }
    if !rule_7(to, f, i.source, x) {
        return Some(Rule::Mode);
    }
    if !rule_8(sheet, a as usize + 1, f.output) {
        return Some(Rule::Port);
    }
    None
}

// The lowest rule that an unused address breaks: address 0 must not be one.
#[tactic(auto, unfolding(laws::specs::Choice::pick))]
fn unused_rule(a: u32) -> Option<Rule>
    ensures { rule_of result ≡ pick (eqb a 0) 1 0 }
{
    if a == 0 { Some(Rule::Start) } else { None }
}

// The lowest rule that address a breaks by itself or its successors. An unused address is not read.
fn rule_at(sheet: &Sheet, a: u32) -> Option<Rule>
    ensures { rule_of result ≡ lowest sheet.now.reader.now.config sheet.now.image.now sheet.now.certificate.now a }
{
    let x = sheet.mark(a as usize);
    if !x.is_used() {
        return unused_rule(a);
    }
    if settled(sheet, a, x) {
        return None;
    }
    lowest_rule(sheet, a)
}

// The first address that breaks a rule, with its lowest rule; where there is none, the level at address 0.
fn first_broken(sheet: &Sheet) -> Result<u32, Fault>
    ensures { answer_of result ≡ first_broken (lowest sheet.now.reader.now.config sheet.now.image.now sheet.now.certificate.now) (passed (level_of (mark_at sheet.now.certificate.now 0))) sheet.now.reader.now.config.imsize 0 }
{
    for a in 0..sheet.reader.config.imsize {
        if let Some(rule) = rule_at(sheet, a) {
            return Err(Fault::Broken { address: a, rule });
        }
    }
    Ok(u32::from(sheet.mark(0).level()))
}

// The level at address 0, or 1, 2, or what the search finds.
fn check_answer(c: Config, image: &[u32], certificate: &[u8]) -> Result<u32, Fault>
    ensures { answer_of result ≡ check_of c image.now certificate.now }
{
    let Some(reader) = Reader::of(c) else {
        return Err(Fault::Unlawful);
    };
    let size = c.imsize as usize;
    if image.len() != size || certificate.len() != size {
        return Err(Fault::WrongLength);
    }
    let sheet = Sheet {
        reader: &reader,
        image,
        certificate,
        limit: Machine::stack_limit(c.pcstack),
    };
    first_broken(&sheet)
}

// The check of a certificate: exactly when it passes, the configuration is lawful, the lengths are right and the eight rules hold; and then demand 3
// holds of the program, of every list of calls of `step` and `run`, with the level that it answers.
pub fn check(c: Config, image: &[u32], certificate: &[u8]) -> Result<u32, Fault>
    ensures { Checks c image.now certificate.now (answer_of result) }
{
    check_answer(c, image, certificate)
}
