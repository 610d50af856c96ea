// The eight rules at one address: x is its mark, f are the facts of its word, `to` its successors.
ghost use Rattle.std.specs.Prelude.{◌≡◌, ◌&&◌, ◌||◌};
ghost use Rattle.laws.specs.Test.{test, most, if?, member};
ghost use Rattle.rules.specs.Marks.{level_of};
ghost use Rattle.rules.specs.Rules.{rule1, rule4, rule5, rule6, rule7};
ghost use Rattle.state.specs.Stops.{specials};
ghost use Rattle.certificate.specs.Judging.{AnswersRule};

use crate::marks::Mark;
use crate::successors::Successors;
use words::Facts;

pub fn rule_1(first: bool, x: Mark) -> bool
    ensures { result ≡ test (if? first (rule1 x.byte)) }
{
    !first || x.is_used() && x.sub() == 0 && x.mode() == 0
}

pub fn rule_2(limit: usize, x: Mark) -> bool
    ensures { result ≡ test (most (level_of x.byte) limit) }
{
    usize::from(x.level()) <= limit
}

pub fn rule_4(to: Successors, size: usize) -> bool
    ensures { AnswersRule to result (λ mark ss. rule4 mark ss size) }
{
    to.all(|s| s.address < size && s.mark.is_used())
}

pub fn rule_5(to: Successors, f: Facts, x: Mark) -> bool
    ensures { AnswersRule to result (λ mark ss. rule5 mark ss f x.byte) }
{
    to.all(|s| s.mark.sub() == if s.by_call { 1 } else { x.sub() }) & (!f.returns | (x.sub() == 1))
}

pub fn rule_6(to: Successors, x: Mark) -> bool
    ensures { AnswersRule to result (λ mark ss. rule6 mark ss x.byte) }
{
    to.all(|s| s.mark.level() <= x.level() && (!s.by_call || s.mark.level() < x.level()))
}

pub fn rule_7(to: Successors, f: Facts, source: u32, x: Mark) -> bool
    ensures { AnswersRule to result (λ mark ss. rule7 mark ss f source x.byte) }
{
    let mode = x.after(f).mode();
    (!f.enters | (x.mode() == 0))
        & ((x.mode() != 1) | stays_special(f, source))
        & to.all(|s| s.mark.mode() == mode)
}

// Whether a word may stand in special-register mode.
pub fn stays_special(f: Facts, source: u32) -> bool
    ensures { result ≡ (f.leaves || f.reveals && member source specials) }
{
    f.leaves
        || f.reveals && (source == 0 || source == 1 || source == 2 || source == 3 || source == 7)
}
