// Cases of steps and runs.
use crate::print::{put_changes, put_machine};
use case_input::{length, word};
use state::{Core, Machine};
use std::io;
use words::Config;

// What a call is given beside the lists, and how much of each list is lent.
#[derive(Drop)]
pub struct Setting {
    pub config: Config,
    machine: Machine,
    image: usize,
    inputs: usize,
    registers: usize,
    memory: usize,
    addresses: usize,
    values: usize,
}

impl Setting {
    pub fn new() -> Setting {
        Setting {
            config: Config::default(),
            machine: Machine::reset(),
            image: 0,
            inputs: 0,
            registers: 0,
            memory: 0,
            addresses: 0,
            values: 0,
        }
    }
}

// The lists: what is lent of each stands in a setting.
#[derive(Clone, Copy)]
pub struct Lists {
    image: [u32; 256],
    inputs: [u32; 64],
    registers: [u32; 1024],
    memory: [u32; 2048],
    addresses: [u32; 64],
    values: [u32; 64],
}

impl Lists {
    pub fn new() -> Lists {
        Lists {
            image: [0; 256],
            inputs: [0; 64],
            registers: [0; 1024],
            memory: [0; 2048],
            addresses: [0; 64],
            values: [0; 64],
        }
    }

    // The cells that are not as before, and the end of the line.
    fn put_changes(&self, rt: &impl Print, before: &Lists) -> io::Result<()> {
        put_changes(rt, "registers", &before.registers, &self.registers)?;
        put_changes(rt, "data", &before.memory, &self.memory)?;
        put_changes(rt, "addresses", &before.addresses, &self.addresses)?;
        put_changes(rt, "values", &before.values, &self.values)?;
        println!(rt)
    }
}

// A list: its length, and as many numbers.
pub fn list(rt: &impl Input, list: &mut [u32]) -> io::Result<usize> {
    list.fill(0);
    let n = length(rt)?;
    for at in 0..n {
        let value = word(rt)?;
        if at < list.len() {
            list[at] = value;
        }
    }
    Ok(n)
}

// A memory: its length, a count, and as many pairs of cell and value.
fn cells(rt: &impl Input, cells: &mut [u32]) -> io::Result<usize> {
    cells.fill(0);
    let n = length(rt)?;
    for _ in 0..word(rt)? {
        let at = length(rt)?;
        let value = word(rt)?;
        if at < cells.len() {
            cells[at] = value;
        }
    }
    Ok(n)
}

fn core(rt: &impl Input) -> io::Result<Core> {
    Ok(Core {
        pc: length(rt)?,
        wp: length(rt)?,
        rx: length(rt)?,
        ry: length(rt)?,
        loaded: word(rt)?,
        n: word(rt)? as u64,
        z: word(rt)? as u64,
        spr7: word(rt)? as u64,
        depth: length(rt)?,
        imask: word(rt)? as u64,
        saved: word(rt)? as u64,
        mode: word(rt)? as u64,
        posted: word(rt)?,
        port: word(rt)? as u64,
        taken: length(rt)?,
        logged: length(rt)?,
    })
}

fn machine(rt: &impl Input) -> io::Result<Machine> {
    let core = core(rt)?;
    let mut stack = [0; Machine::STACK_CELLS];
    let _ = list(rt, &mut stack)?;
    Ok(Machine { core, stack })
}

// The part of a state that the letter gives.
pub fn given(rt: &impl Input, letter: u8, s: &mut Setting, lists: &mut Lists) -> io::Result<()> {
    match letter {
        b'k' => s.config = case_input::config(rt)?,
        b'm' => s.machine = machine(rt)?,
        b'z' => s.machine = Machine::reset(),
        b'i' => s.image = list(rt, &mut lists.image)?,
        b'p' => s.inputs = list(rt, &mut lists.inputs)?,
        b'g' => s.registers = cells(rt, &mut lists.registers)?,
        b'd' => s.memory = cells(rt, &mut lists.memory)?,
        b'a' => s.addresses = list(rt, &mut lists.addresses)?,
        b'v' => s.values = list(rt, &mut lists.values)?,
        _ => (),
    }
    Ok(())
}

// The part of a list that is lent.
fn lent(list: &[u32], n: usize) -> &[u32] {
    &list[..n.min(list.len())]
}

fn lent_mut(list: &mut [u32], n: usize) -> &mut [u32] {
    let most = n.min(list.len());
    &mut list[..most]
}

// A step on the parts of the lists that are lent.
pub fn step_case(rt: &impl Print, s: &mut Setting, lists: &mut Lists) -> io::Result<()> {
    let before = *lists;
    let r = machine::step(
        s.config,
        lent(&lists.image, s.image),
        lent(&lists.inputs, s.inputs),
        s.machine,
        lent_mut(&mut lists.registers, s.registers),
        lent_mut(&mut lists.memory, s.memory),
        lent_mut(&mut lists.addresses, s.addresses),
        lent_mut(&mut lists.values, s.values),
    );
    let (number, cycles) = match r {
        Ok(step) => {
            s.machine = step.after;
            (0, step.cycles)
        }
        Err(stop) => (stop.number(), 0),
    };
    print!(rt; "step {number:x} {cycles:x}")?;
    put_machine(rt, s.machine)?;
    lists.put_changes(rt, &before)
}

// A run.
pub fn run_case(rt: &(impl Input + Print), s: &mut Setting, lists: &mut Lists) -> io::Result<()> {
    let budget = word(rt)? as u64;
    let before = *lists;
    let r = machine::run(
        s.config,
        lent(&lists.image, s.image),
        lent(&lists.inputs, s.inputs),
        s.machine,
        lent_mut(&mut lists.registers, s.registers),
        lent_mut(&mut lists.memory, s.memory),
        lent_mut(&mut lists.addresses, s.addresses),
        lent_mut(&mut lists.values, s.values),
        budget,
    );
    s.machine = r.after;
    print!(rt; "run {:x} {:x} {:x}", r.number(), r.steps, r.cycles)?;
    put_machine(rt, r.after)?;
    lists.put_changes(rt, &before)
}
