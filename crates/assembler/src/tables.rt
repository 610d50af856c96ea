// The bytes of the tables of forms.
ghost use Rattle.std.specs.Prelude.{◌≡◌, ◌<◌, get_or};
ghost use Rattle.assembler.specs.Heads.{head_table, link_table};
ghost use Rattle.assembler.specs.Packed.{form_table};

use crate::columns::{FORMS, HEADS, LINKS};

pub fn form_byte(i: usize) -> u8
    requires { i < 5952 }
    ensures { result ≡ get_or form_table i 0 }
{
    FORMS[i]
}

// The form before form q with the same key, counted from 1; 0 where there is none.
pub fn link(q: usize) -> usize
    requires { q < 186 }
    ensures { result ≡ get_or link_table q 0 }
{
    LINKS[q] as usize
}

// The last form with this key, counted from 1; 0 where there is none.
pub fn head(key: usize) -> usize
    requires { key < 512 }
    ensures { result ≡ get_or head_table key 0 }
{
    HEADS[key] as usize
}
