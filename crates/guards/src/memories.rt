// Tests of whole memories.
ghost use Rattle.std.specs.Prelude.{◌≡◌, ◌+◌};
ghost use Rattle.laws.specs.Test.{below};
ghost use Rattle.guards.specs.Joins.{join_of};

// Whether every cell is at most `most`.
pub fn within(xs: &[u32], most: u32) -> bool
    ensures { result ≡ below (most + 1) xs.now }
{
    xs.iter().all(|x| *x <= most)
}

// The bits that are set in any cell: one pass without an early end, which is compiled to vector instructions.
pub fn joined(xs: &[u32]) -> u32
    ensures { result ≡ join_of xs.now }
{
    let mut all = 0;
    for x in xs {
        all |= *x;
    }
    all
}
