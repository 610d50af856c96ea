// The facts of a row: what rules, stops, cycles and text ask of its instructions.
ghost use Rattle.std.specs.Prelude.{◌≡◌, get_or};
ghost use Rattle.words.specs.Packed.{no_packed, facts_in};

use crate::rows::at_or;
use crate::{Facts, codes};

// The facts in a row's packed number.
pub fn facts_in(p: u64) -> Facts
    ensures { result ≡ facts_in p }
{
    let marked = |weight: u64| p / codes::MARKS / weight % 2 == 1;
    Facts {
        next: marked(codes::GOES_ON),
        target: marked(codes::JUMPS),
        calls: marked(codes::CALLS),
        returns: marked(codes::RETURNS),
        enters: marked(codes::ENTERS_MODE),
        leaves: marked(codes::LEAVES_MODE),
        reveals: marked(codes::REVEALS),
        input: marked(codes::READS_PORT),
        output: marked(codes::WRITES_PORT),
        load: marked(codes::LOADS),
        store: marked(codes::STORES),
        indirect: marked(codes::BY_REGISTER),
        tobank: marked(codes::ENTERS_BANK),
        frombank: marked(codes::LEAVES_BANK),
        barred: marked(codes::BARRED),
        index: marked(codes::BY_INDEX),
    }
}

// The packed number of row n by a lent table; past its end that of no row.
pub fn packed_lent(packs: &[u64], n: u32) -> u64
    ensures { result ≡ get_or packs.now n no_packed }
{
    at_or(packs, n, codes::NO_ROW)
}
