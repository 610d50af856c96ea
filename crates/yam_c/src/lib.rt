// The C interface: exported functions on numbers and slices; a slice is a pointer and its length. include/yam.h declares them.
#![tactic(auto)]

ghost use Rattle.std.specs.Prelude.{◌≡◌, Err};
ghost use Rattle.words.specs.Answers.{reading_of, writing_of};
ghost use Rattle.certificate.specs.Answers.{answer_of};
ghost use Rattle.laws.specs.Test.{Holds};
ghost use Rattle.state.specs.State.{env};
ghost use Rattle.state.specs.Step.{step_of};
ghost use Rattle.state.specs.Run as Run;
ghost use Rattle.machine.specs.Stepping.{machine_state, end_of};
ghost use Rattle.yam_c.specs.Flat.{shaped, machine_of};
ghost use Rattle.yam_c.specs.Calls.{left, read_left, read_call, write_left, write_call, reset_call, moved, step_left, step_call, run_left, run_call, check_left, check_call, printed, text_printed, list_call, assembled, assemble_call, filled, load_call, store_call};
ghost use Rattle.yam_c.specs.ComesBack.{ComesBackLists};
ghost use Rattle.yam_c.specs.DoubleSteps.{DoubleStepsLists};
ghost use Rattle.yam_c.specs.Claims.{ConfigBack, InstructionBack, MachineBack, StepHandsOn, RunHandsOn, Demand3Lists};

mod flat;

use certificate::Fault;
use flat::{
    answer, answer_two, config_from, config_into, core_in, instruction_from, instruction_into,
    machine_into, machine_shaped, misshapen, update,
};
use state::Machine;
use words::{Config, Instruction, Refusal};

// What yam_read answers and leaves, once the word is read.
fn read_into(r: Result<Instruction, Refusal>, instruction: &mut [u32]) -> u32
    ensures { left result instruction.new ≡ read_left (reading_of r) instruction.old }
{
    match r {
        Err(why) => why.number(),
        Ok(i) => {
            if instruction.len() != flat::INSTRUCTION_WORDS {
                return 7;
            }
            instruction_into(i, instruction);
            0
        }
    }
}

// What yam_write answers and leaves, once the instruction is written.
fn write_into(w: Result<u32, Refusal>, answers: &mut [u64]) -> u32
    ensures { left result answers.new ≡ write_left (writing_of w) answers.old }
{
    match w {
        Err(why) => {
            answer(answers, 0);
            why.number()
        }
        Ok(word) => {
            answer(answers, word as u64);
            0
        }
    }
}

// What yam_check answers and leaves of a fault.
fn fault_into(fault: Fault, answers: &mut [u64]) -> u32
    ensures { left result answers.new ≡ check_left (answer_of (Err fault)) answers.old }
{
    match fault {
        Fault::Unlawful => {
            answer_two(answers, 0, 0);
            1
        }
        Fault::WrongLength => {
            answer_two(answers, 0, 0);
            2
        }
        Fault::Broken { address, rule } => {
            answer_two(answers, address as u64, rule.number() as u64);
            17
        }
    }
}

// What yam_check answers and leaves, once the certificate is checked.
fn check_into(r: Result<u32, Fault>, answers: &mut [u64]) -> u32
    ensures { left result answers.new ≡ check_left (answer_of r) answers.old }
{
    match r {
        Ok(level) => {
            answer_two(answers, level as u64, 0);
            0
        }
        Err(fault) => fault_into(fault, answers),
    }
}

// Reads a word: 1, 5, 6, 7. The instruction that it leaves is the one that yam_write reads there.
#[unsafe(no_mangle)]
pub extern "C" fn yam_read(config: &[u32], word: u32, instruction: &mut [u32]) -> u32
    ensures { (left result instruction.new ≡ read_call config.now word instruction.old) × InstructionBack }
{
    let r = words::read_word(config_from(config), word);
    read_into(r, instruction)
}

// Writes a word: 1, 5, 6, 7.
#[unsafe(no_mangle)]
pub extern "C" fn yam_write(config: &[u32], instruction: &[u32], answers: &mut [u64]) -> u32
    ensures { left result answers.new ≡ write_call config.now instruction.now answers.old }
{
    let w = words::write_word(config_from(config), instruction_from(instruction));
    write_into(w, answers)
}

// The machine at reset; 3 where the list is not a hundred words long. A machine in its ranges, written so, reads back as itself.
#[unsafe(no_mangle)]
pub extern "C" fn yam_reset(machine: &mut [u32]) -> u32
    ensures { (left result machine.new ≡ reset_call machine.old) × MachineBack }
{
    if machine.len() != flat::MACHINE_WORDS {
        return 3;
    }
    machine_into(Machine::reset(), machine);
    0
}

// One step of a machine in its hundred words, on the return stack that stands in them.
fn step_in_place(
    c: Config,
    image: &[u32],
    inputs: &[u32],
    machine: &mut [u32],
    registers: &mut [u32],
    memory: &mut [u32],
    addresses: &mut [u32],
    values: &mut [u32],
    answers: &mut [u64],
) -> u32
    requires { Holds (shaped machine.old) }
    ensures { moved result machine.new registers.new memory.new addresses.new values.new answers.new ≡ step_left (step_of (env c image.now inputs.now) (machine_state (machine_of machine.old) registers.old memory.old addresses.old values.old)) machine.old answers.old }
{
    let m = core_in(machine);
    match machine::step_lent(
        c,
        image,
        inputs,
        m,
        &mut machine[flat::STACK_FROM..flat::STACK_TO],
        registers,
        memory,
        addresses,
        values,
    ) {
        Ok(s) => {
            update(true, s.after, machine);
            answer(answers, s.cycles);
            0
        },
        Err(stop) => {
            answer(answers, 0);
            stop.number()
        },
    }
}

// One step: 1, 2, 3, 4 to 9, 27, 10 to 15. The next call reads the state that it left.
#[unsafe(no_mangle)]
pub extern "C" fn yam_step(
    config: &[u32],
    image: &[u32],
    inputs: &[u32],
    machine: &mut [u32],
    registers: &mut [u32],
    memory: &mut [u32],
    addresses: &mut [u32],
    values: &mut [u32],
    answers: &mut [u64],
) -> u32
    ensures answer { (moved result machine.new registers.new memory.new addresses.new values.new answers.new ≡ step_call config.now image.now inputs.now machine.old registers.old memory.old addresses.old values.old answers.old) × StepHandsOn × ComesBackLists }
    ensures double_steps { DoubleStepsLists }
{
    let c = config_from(config);
    if machine_shaped(machine) {
        return step_in_place(
            c, image, inputs, machine, registers, memory, addresses, values, answers,
        );
    }
    answer(answers, 0);
    misshapen(c, image, inputs, registers, memory, addresses, values)
}

// A run of a machine in its hundred words, on the return stack that stands in them.
fn run_in_place(
    c: Config,
    image: &[u32],
    inputs: &[u32],
    machine: &mut [u32],
    registers: &mut [u32],
    memory: &mut [u32],
    addresses: &mut [u32],
    values: &mut [u32],
    budget: u64,
    answers: &mut [u64],
) -> u32
    requires { Holds (shaped machine.old) }
    ensures { moved result machine.new registers.new memory.new addresses.new values.new answers.new ≡ run_left (end_of (Run.run_call budget (env c image.now inputs.now) (machine_state (machine_of machine.old) registers.old memory.old addresses.old values.old))) machine.old answers.old }
{
    let m = core_in(machine);
    let r = machine::run_lent(
        c,
        image,
        inputs,
        m,
        &mut machine[flat::STACK_FROM..flat::STACK_TO],
        registers,
        memory,
        addresses,
        values,
        budget,
    );
    update(0 < r.steps, r.after, machine);
    answer_two(answers, r.steps, r.cycles);
    r.number()
}

// A run: 1, 2, 3, 16, then the number of the step that ended it. The next call reads the state that it left.
#[unsafe(no_mangle)]
pub extern "C" fn yam_run(
    config: &[u32],
    image: &[u32],
    inputs: &[u32],
    machine: &mut [u32],
    registers: &mut [u32],
    memory: &mut [u32],
    addresses: &mut [u32],
    values: &mut [u32],
    budget: u64,
    answers: &mut [u64],
) -> u32
    ensures { (moved result machine.new registers.new memory.new addresses.new values.new answers.new ≡ run_call config.now image.now inputs.now machine.old registers.old memory.old addresses.old values.old budget answers.old) × RunHandsOn × ComesBackLists }
{
    let c = config_from(config);
    if machine_shaped(machine) {
        return run_in_place(
            c, image, inputs, machine, registers, memory, addresses, values, budget, answers,
        );
    }
    answer_two(answers, 0, 0);
    misshapen(c, image, inputs, registers, memory, addresses, values)
}

// The check of a certificate: 1, 2, 17. Where it passes, demand 3 holds of every list of calls of yam_step and yam_run after yam_reset.
#[unsafe(no_mangle)]
pub extern "C" fn yam_check(
    config: &[u32],
    image: &[u32],
    certificate: &[u8],
    answers: &mut [u64],
) -> u32
    ensures { (left result answers.new ≡ check_call config.now image.now certificate.now answers.old) × Demand3Lists }
{
    let r = certificate::check(config_from(config), image, certificate);
    check_into(r, answers)
}

// The text of a word: 1, 5, 6, 7, 18, 23.
#[unsafe(no_mangle)]
pub extern "C" fn yam_text(
    config: &[u32],
    word: u32,
    page: &mut [u8],
    place: u64,
    answers: &mut [u64],
) -> u32
    ensures { printed result page.new answers.new ≡ text_printed config.now word page.old place answers.old }
{
    match text::text(config_from(config), word, page, place as usize) {
        Ok(after) => {
            answer(answers, after as u64);
            0
        }
        Err(why) => {
            answer(answers, place);
            why.number()
        }
    }
}

// The listing of an image: 1, 2, 18.
#[unsafe(no_mangle)]
pub extern "C" fn yam_list(
    config: &[u32],
    image: &[u32],
    first: u64,
    page: &mut [u8],
    place: u64,
    answers: &mut [u64],
) -> u32
    ensures { printed result page.new answers.new ≡ list_call config.now image.now first page.old place answers.old }
{
    let r = text::list(
        config_from(config),
        image,
        first as usize,
        page,
        place as usize,
    );
    answer_two(answers, r.place as u64, r.next as u64);
    match r.outcome {
        Ok(()) => 0,
        Err(why) => why.number(),
    }
}

// Source text read into words: 1, 36, 24, then the first bad line by 26, 25, 6, 7.
#[unsafe(no_mangle)]
pub extern "C" fn yam_assemble(
    config: &[u32],
    text: &[u8],
    words: &mut [u32],
    answers: &mut [u64],
) -> u32
    ensures { assembled result words.new answers.new ≡ assemble_call config.now text.now words.old answers.old }
{
    match assembler::assemble(config_from(config), text, words) {
        Ok(count) => {
            answer_two(answers, count as u64, 0);
            0
        }
        Err(error) => {
            answer_two(answers, 0, error.line().unwrap_or(0) as u64);
            error.number()
        }
    }
}

// Loads an image file: 1 where the list for the configuration is not nineteen words long; then 19 to 22, 1 and 2 in document 01's order.
#[unsafe(no_mangle)]
pub extern "C" fn yam_load(file: &[u8], config: &mut [u32], image: &mut [u32]) -> u32
    ensures { (filled result config.new image.new ≡ load_call file.now config.old image.old) × ConfigBack }
{
    if config.len() != flat::CONFIG_WORDS {
        return 1;
    }
    match image::load(file, image) {
        Ok(c) => {
            config_into(c, config);
            0
        }
        Err(why) => why.number(),
    }
}

// Writes an image file: 1, 2, 19.
#[unsafe(no_mangle)]
pub extern "C" fn yam_store(config: &[u32], image: &[u32], file: &mut [u8]) -> u32
    ensures { left result file.new ≡ store_call config.now image.now file.old }
{
    match image::store(config_from(config), image, file) {
        Ok(()) => 0,
        Err(why) => why.number(),
    }
}
