// Cases of reading and writing words.
use case_input::word;
use std::io;
use words::{Config, Instruction};

fn put_parts(rt: &impl Print, i: Instruction) -> io::Result<()> {
    print!(rt; " {:x} {:x} {:x}", i.row, i.flag, i.destination)?;
    print!(rt; " {:x} {:x} {:x}", i.source, i.number, i.value)
}

pub fn read_case(rt: &(impl Input + Print), c: Config) -> io::Result<()> {
    let w = word(rt)?;
    print!(rt; "read {w:08x}")?;
    match words::read_word(c, w) {
        Ok(i) => {
            print!(rt; " 0")?;
            put_parts(rt, i)?;
        }
        Err(x) => print!(rt; " {:x}", x.number())?,
    }
    println!(rt)
}

pub fn write_case(rt: &(impl Input + Print), c: Config) -> io::Result<()> {
    let i = Instruction {
        row: word(rt)?,
        flag: word(rt)?,
        destination: word(rt)?,
        source: word(rt)?,
        number: word(rt)?,
        value: word(rt)?,
    };
    print!(rt; "write")?;
    put_parts(rt, i)?;
    print!(rt; ":")?;
    match words::write_word(c, i) {
        Ok(w) => println!(rt; " 0 {w:08x}"),
        Err(x) => println!(rt; " {:x}", x.number()),
    }
}
