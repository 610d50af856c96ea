// What a word stays below by its check (specs/Lookup.antt): the limits of one check, and whether a word is below them. The tables of src/entries.rt give all
// limits to a caller that reads many words.
ghost use Rattle.std.specs.Prelude.{◌≡◌};
ghost use Rattle.words.specs.Lookup.{check_at, upper_limit, lower_limit, within_limits};

use crate::rows::pick;
use crate::{Config, WordLimits, layout};

fn limits(upper: u64, lower: u64) -> WordLimits
    ensures { (result.upper ≡ upper) × (result.lower ≡ lower) }
{
    WordLimits { upper, lower }
}

// The limits of check t. Where t is known, this is compiled to that one.
pub fn limits_at(c: Config, t: u32) -> WordLimits
    ensures { (result.upper ≡ upper_limit c (check_at t)) × (result.lower ≡ lower_limit c (check_at t)) }
{
    let size = c.regsize as u64;
    let data = c.dmsize as u64;
    let targets = c.imsize as u64;
    let any = layout::LOWER_VALUES as u64;
    match t {
        0 => limits(0, 1),
        1 => limits(size, size),
        2 => limits(size, any),
        3 => limits(pick(c.alumult == 1, size, 0), size),
        4 => limits(pick(c.alumult == 1, size, 0), any),
        5 => limits(pick(0 < c.alulevel, size, 0), size),
        6 => limits(size, pick(c.alulevel == 0, 0, 16)),
        7 => limits(
            pick((1 < c.alulevel) & (c.regwidth == 32), size, 0),
            0x100 + size,
        ),
        8 => limits(
            pick((1 < c.alulevel) & (c.regwidth == 32), size, 0),
            0x200 + size,
        ),
        9 => limits(
            pick((1 < c.alulevel) & (c.regwidth == 32), size, 0),
            0x600 + size,
        ),
        10 => limits(pick(1 < c.alulevel, size, 0), 0x1400 + size),
        11 => limits(pick((1 < c.alulevel) & (0 < c.dmsize), size, 0), 0x1801),
        12 => limits(pick((1 < c.alulevel) & (0 < c.dmsize), 1, 0), 0x1c00 + size),
        13 => limits(pick(0 < c.dmsize, size, 0), size),
        14 => limits(pick(0 < c.dmsize, size, 0), data),
        15 => limits(pick(0 < c.dmsize, size, 0), data),
        16 => limits(pick(c.iopif == 1, size, 0), size),
        17 => limits(pick(c.ioprmw == 1, size, 0), 0x8000 + size),
        18 => limits(pick(c.iopif == 1, size, 0), any),
        19 => limits(1, targets),
        20 => limits(pick(c.iopif == 1, 1, 0), targets),
        21 => limits(size, 1),
        22 => limits(pick(c.iopif == 1, size, 0), 1),
        23 => limits(pick(c.regsize < c.rmsize, 64, 0), targets),
        24 => limits(1, 1),
        25 => limits(pick(c.regsize < c.rmsize, 2, 0), 1),
        26 => limits(pick(c.aluspr == 1, 5, 0), 1),
        27 => limits(pick(c.aluspr == 1, 6, 0), 1),
        _ => limits(0, 1),
    }
}

// Whether word w is below the limits of check t.
pub fn within_limits(c: Config, t: u32, w: u32) -> bool
    ensures { result ≡ within_limits c t w }
{
    let l = limits_at(c, t);
    let upper = (w / layout::UPPER % layout::UPPER_VALUES) as u64;
    let lower = (w % layout::UPPER) as u64;
    (upper < l.upper) & (lower < l.lower)
}
