// Runs an image file from reset, with zeroed memories, and prints the report of the run; with "trace" a line for each step before it. The image file
// stands on standard input; the arguments are "run" or "trace", the steps, and the file of the inputs (document 01's readings) where there are any.
// specs/Running.antt and the specs of `report` say what is printed. What cannot be read or written is said on standard error.
#![tactic(auto)]

mod arguments;
mod errors;
mod inputs;
mod lent;
mod run;
mod trace;

use arguments::{Asked, Way};
use errors::RunError;
use files::{Failure, NAME_BYTES, read_all};
use inputs::{INPUT_BYTES, INPUT_WORDS, read_inputs};
use lent::{Memories, Program};
use opening::{FILE_BYTES, WORDS};
use printing::Printer;
use run::run_from_reset;
use state::Machine;
use std::io::Read;
use std::rt::{Env, Files};
use trace::{Before, trace_from_reset};

// The largest RM_SIZE and DM_SIZE of a lawful configuration.
const REGISTERS: usize = 1024;

const CELLS: usize = 32768;

const LOG_PLACES: usize = 256;

// More than a report or a step's line has.
const PAGE_BYTES: usize = 65536;

// Runs or traces the program from memories of zeros, as large as the configuration says. A budget that 16 refuses is not traced.
fn execute(
    rt: &impl Print,
    program: &Program,
    way: Way,
    budget: u64,
) -> Result<(), Failure<'static>> {
    let mut registers = [0u32; REGISTERS];
    let mut memory = [0u32; CELLS];
    let mut addresses = [0u32; LOG_PLACES];
    let mut values = [0u32; LOG_PLACES];
    let mut page = [0u8; PAGE_BYTES];
    let used = opening::count(program.config.rmsize as usize, &registers);
    let cells = opening::count(program.config.dmsize as usize, &memory);
    let mut lent = Memories {
        registers: &mut registers[..used],
        memory: &mut memory[..cells],
        addresses: &mut addresses,
        values: &mut values,
    };
    match way {
        Way::Trace if budget <= Machine::BUDGET_MOST => {
            let mut old_registers = [0u32; REGISTERS];
            let mut old_memory = [0u32; CELLS];
            let mut before = Before {
                registers: &mut old_registers[..used],
                memory: &mut old_memory[..cells],
            };
            trace_from_reset(rt, program, &mut lent, &mut before, budget, &mut page)
        }
        _ => {
            let mut p = Printer {
                page: &mut page,
                at: 0,
            };
            run_from_reset(&mut p, program, &mut lent, budget);
            let end = p.at;
            files::print(rt, &page, end)
        }
    }
}

// Takes the arguments, the image file and the inputs, and runs the image. `name` takes the name of the inputs' file, `text` and `words`
// what it has.
fn start<'a>(
    rt: &(impl Env + Files + Print),
    from: &mut impl Read,
    name: &'a mut [u8],
    text: &mut [u8; INPUT_BYTES + 1],
    words: &mut [u32; INPUT_WORDS],
) -> Result<(), RunError<'a>> {
    let asked = Asked::read(rt, name)?;
    let mut file = [0u8; FILE_BYTES + 1];
    let bytes = read_all("standard input", from, &mut file)?;
    let mut image = [0u32; WORDS];
    let config = opening::open(&file[..bytes], &mut image)?;
    let taken = read_inputs(rt, &name[..asked.name], text, words)?;
    let program = Program {
        config,
        image: opening::first(config.imsize as usize, &image),
        inputs: &words[..taken],
    };
    execute(rt, &program, asked.way, asked.steps)?;
    Ok(())
}

// Says why nothing was run.
fn say(rt: &(impl Print + Eprint), error: RunError) {
    let why = match error {
        RunError::Failure(why) => why,
        RunError::Answered(answer) => match println!(rt; "{answer}") {
            Ok(()) => return,
            Err(why) => Failure::Io("standard output", why),
        },
    };
    let _ = eprintln!(rt; "{why}");
}

// Runs what is asked, or says why nothing is run.
fn run_or_say(
    rt: &(impl Env + Files + Print + Eprint),
    from: &mut impl Read,
    name: &mut [u8],
    text: &mut [u8; INPUT_BYTES + 1],
    words: &mut [u32; INPUT_WORDS],
) {
    if let Err(error) = start(rt, from, name, text, words) {
        say(rt, error);
    }
}

fn main(rt: HostRuntime) {
    let mut name = [0u8; NAME_BYTES];
    let mut text = [0u8; INPUT_BYTES + 1];
    let mut words = [0u32; INPUT_WORDS];
    run_or_say(&rt, &mut rt.stdin(), &mut name, &mut text, &mut words);
}
