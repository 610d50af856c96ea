// Generics by their names.
ghost use Rattle.std.specs.Prelude.{◌≡◌};
ghost use Rattle.parsing.specs.Generics.{names, defaults, config_of, place_of, given_by};
ghost use Rattle.parsing.specs.Claims.{Found, Gives, GathersAll, NamesGenerics, values_in};

use crate::BadEntry;
use crate::decimals::value_of;
use crate::entries::{halves, is_blank};
use words::Config;

const GENERICS: usize = 19;

const NAMES: [&[u8]; GENERICS] = [
    b"IM_SIZE",
    b"REG_WIDTH",
    b"REG_SIZE",
    b"RM_SIZE",
    b"PC_STACK",
    b"DM_SIZE",
    b"DM_PIPE",
    b"ALU_LEVEL",
    b"ALU_MULT",
    b"ALU_SPR",
    b"IOP_IF",
    b"IOP_RMW",
    b"YAM_CLK",
    b"YAM_SREG3",
    b"ALU_3OP",
    b"IRQ_IF",
    b"COPM_SIZE",
    b"IM_WIDTH",
    b"YAM_DBG",
];

// The place of a name among the generics.
fn place_of(name: &[u8]) -> Option<usize>
    ensures { Found result (place_of names name.now) }
{
    NAMES.iter().position(|n| *n == name)
}

// What an entry gives: a value for the generic at a place.
fn read_entry(entry: &[u8]) -> Option<(usize, u32)>
    ensures { Gives result (given_by entry.now) }
{
    let (name, value) = halves(entry)?;
    let place = place_of(name)?;
    let number = value_of(value)?;
    Some((place, number))
}

// The configuration of the values that are given, and for the rest of the manual's defaults.
fn config_of(v: &[Option<u32>; GENERICS]) -> Config
    ensures { result ≡ config_of (values_in v.now) }
{
    Config {
        imwidth: v[17].unwrap_or(32),
        imsize: v[0].unwrap_or(2048),
        regwidth: v[1].unwrap_or(32),
        regsize: v[2].unwrap_or(32),
        rmsize: v[3].unwrap_or(32),
        pcstack: v[4].unwrap_or(16),
        dmsize: v[5].unwrap_or(32),
        dmpipe: v[6].unwrap_or(0),
        alulevel: v[7].unwrap_or(0),
        alumult: v[8].unwrap_or(0),
        aluspr: v[9].unwrap_or(0),
        iopif: v[10].unwrap_or(0),
        ioprmw: v[11].unwrap_or(0),
        yamclk: v[12].unwrap_or(0),
        yamsreg3: v[13].unwrap_or(0),
        alu3op: v[14].unwrap_or(0),
        irqif: v[15].unwrap_or(0),
        copmsize: v[16].unwrap_or(0),
        yamdbg: v[18].unwrap_or(0),
    }
}

// The manual's defaults.
pub fn default_config() -> Config
    ensures { result ≡ config_of defaults }
{
    config_of(&[None; GENERICS])
}

// Puts the values that the entries of a text give.
fn put_values(text: &[u8], values: &mut [Option<u32>; GENERICS]) -> Result<(), BadEntry>
    ensures { GathersAll text.now values.old result values.new }
{
    let mut count = 0;
    for entry in text.split(|b| is_blank(*b)) {
        if entry.is_empty() {
            continue;
        }
        count += 1;
        let (place, value) = read_entry(entry).ok_or(BadEntry { entry: count })?;
        let given = values[place];
        if given.is_some() {
            return Err(BadEntry { entry: count });
        }
        values[place] = Some(value);
    }
    Ok(())
}

// The configuration that the entries of a text name.
pub fn generics_of(text: &[u8]) -> Result<Config, BadEntry>
    ensures { NamesGenerics text.now result }
{
    let mut values = [None; GENERICS];
    put_values(text, &mut values)?;
    Ok(config_of(&values))
}
