// Where control may go from a word.
ghost use Rattle.std.specs.Prelude.{◌≡◌, ℕ, ◌&&◌};
ghost use Rattle.laws.specs.Test.{Test};
ghost use Rattle.rules.specs.Successors.{Successor as Going};
ghost use Rattle.rules.specs.Marks.{mark_at};
ghost use Rattle.certificate.specs.Successors.{Gives, each, in_hand};

use crate::marks::Mark;
use crate::sheet::Sheet;
use words::Facts;

#[derive(Clone, Copy)]
pub struct Successor {
    pub address: usize,
    pub mark: Mark,
    pub by_call: bool,
}

#[derive(Clone, Copy)]
pub struct Successors {
    pub next: Option<Successor>,
    pub target: Option<Successor>,
}

impl Successors {
    // Those of a word at address a, with these facts and this value.
    pub fn of(sheet: &Sheet, a: u32, f: Facts, value: u32) -> Successors
        ensures { result ≡ in_hand (mark_at sheet.now.certificate.now) f a value }
    {
        let after = a as usize + 1;
        let next = Successor {
            address: after,
            mark: sheet.mark(after),
            by_call: false,
        };
        let address = value as usize;
        let target = Successor {
            address,
            mark: sheet.mark(address),
            by_call: f.calls,
        };
        Successors {
            next: f.next.then_some(next),
            target: f.target.then_some(target),
        }
    }

    // Whether each of them passes.
    pub fn all<F: Fn(Successor) -> bool>(self, passes: F) -> bool
        requires { F.IsAlwaysCallable passes }
        ensures { (p : Going → ℕ → Test) → Gives (F.post passes) p self.next → Gives (F.post passes) p self.target → result ≡ (each p self.next && each p self.target) }
    {
        let next = self.next.is_none_or(&passes);
        let target = self.target.is_none_or(&passes);
        next & target
    }
}
