// Looking a word up by lent tables: the entry of its row, and the limits of the entry's check (specs/Lookup.antt). A caller that reads many words
// takes them once.
ghost use Rattle.std.specs.Prelude.{◌≡◌};
ghost use Rattle.laws.specs.Choice.{pick as choice};
ghost use Rattle.laws.specs.Table.{values};
ghost use Rattle.words.specs.Lookup.{entry_table, check_at, upper_limit, lower_limit, uppers, lowers};

use crate::Config;
use crate::columns::ENTRIES;
use crate::limits::limits_at;
use crate::rows::pick;

// The entry of each row; past the rows none.
pub fn entry_table() -> [u32; 256]
    ensures { result ≡ entry_table }
{
    ENTRIES
}

// What bits 22-16 of a word stay below by check t, or bits 15-0.
fn limit<const UPPER: bool>(c: Config, t: u32) -> u64
    ensures { result ≡ choice UPPER (upper_limit c (check_at t)) (lower_limit c (check_at t)) }
{
    let l = limits_at(c, t);
    pick(UPPER, l.upper, l.lower)
}

// The same by each check. Past the checks a word is refused: nothing is below 0. The calls are written out: by `std::array::from_fn` both tables take 4,286
// instructions in place of 209.
fn limits<const UPPER: bool>(c: Config) -> [u64; 64]
    ensures { result ≡ values (λ t. choice UPPER (upper_limit c (check_at t)) (lower_limit c (check_at t))) 0 64 }
{
    let past = pick(UPPER, 0, 1);
    [
        limit::<UPPER>(c, 0),
        limit::<UPPER>(c, 1),
        limit::<UPPER>(c, 2),
        limit::<UPPER>(c, 3),
        limit::<UPPER>(c, 4),
        limit::<UPPER>(c, 5),
        limit::<UPPER>(c, 6),
        limit::<UPPER>(c, 7),
        limit::<UPPER>(c, 8),
        limit::<UPPER>(c, 9),
        limit::<UPPER>(c, 10),
        limit::<UPPER>(c, 11),
        limit::<UPPER>(c, 12),
        limit::<UPPER>(c, 13),
        limit::<UPPER>(c, 14),
        limit::<UPPER>(c, 15),
        limit::<UPPER>(c, 16),
        limit::<UPPER>(c, 17),
        limit::<UPPER>(c, 18),
        limit::<UPPER>(c, 19),
        limit::<UPPER>(c, 20),
        limit::<UPPER>(c, 21),
        limit::<UPPER>(c, 22),
        limit::<UPPER>(c, 23),
        limit::<UPPER>(c, 24),
        limit::<UPPER>(c, 25),
        limit::<UPPER>(c, 26),
        limit::<UPPER>(c, 27),
        past,
        past,
        past,
        past,
        past,
        past,
        past,
        past,
        past,
        past,
        past,
        past,
        past,
        past,
        past,
        past,
        past,
        past,
        past,
        past,
        past,
        past,
        past,
        past,
        past,
        past,
        past,
        past,
        past,
        past,
        past,
        past,
        past,
        past,
        past,
        past,
    ]
}

// What bits 22-16 of a word stay below, by its check: 0 where the option is off.
pub fn upper_limits(c: Config) -> [u64; 64]
    ensures { result ≡ uppers c }
{
    limits::<true>(c)
}

// What bits 15-0 stay below, by the check.
pub fn lower_limits(c: Config) -> [u64; 64]
    ensures { result ≡ lowers c }
{
    limits::<false>(c)
}
