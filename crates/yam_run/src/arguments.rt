// What the program is asked.
ghost use Rattle.std.specs.Prelude.{IfOk};
ghost use Rattle.files.specs.Counts.{IsPrefixLen};

use files::{Failure, NAME_BYTES, argument, argument_count};
use std::rt::Env;

#[derive(Clone, Copy)]
pub enum Way {
    Run,
    Trace,
}

// What to do, for how many steps, and the length of the name of the inputs' file, 0 where there is none.
#[derive(Clone, Copy)]
pub struct Asked {
    pub way: Way,
    pub steps: u64,
    pub name: usize,
}

fn usage() -> Failure<'static> {
    Failure::Usage("usage: yam_run run|trace STEPS [INPUTS] <IMAGE")
}

impl TryFrom<&[u8]> for Way {
    type Error = Failure<'static>;

    fn try_from(text: &[u8]) -> Result<Way, Failure<'static>> {
        match text {
            b"run" => Ok(Way::Run),
            b"trace" => Ok(Way::Trace),
            _ => Err(usage()),
        }
    }
}

impl Asked {
    // Reads the arguments. An argument that is missing or too long is taken as empty. `name` takes the name of the inputs' file.
    pub fn read(rt: &impl Env, name: &mut [u8]) -> Result<Asked, Failure<'static>>
        ensures { IfOk result (λ a. IsPrefixLen a.name name.new) }
    {
        let arguments = argument_count(rt);
        if arguments != 3 && arguments != 4 {
            return Err(usage());
        }
        let mut text = [0u8; NAME_BYTES];
        let n = argument(rt, 1, &mut text).unwrap_or(0);
        let way = Way::try_from(&text[..n])?;
        let n = argument(rt, 2, &mut text).unwrap_or(0);
        let steps = parsing::decimal_of(&text[..n]).ok_or(usage())?;
        let name = argument(rt, 3, name).unwrap_or(0);
        Ok(Asked { way, steps, name })
    }
}
