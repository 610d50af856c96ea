// What a call leaves, in hex.
use state::{Core, Machine};
use std::io;

fn put_core(rt: &impl Print, c: Core) -> io::Result<()> {
    print!(rt; ": pc {:x} wp {:x} rx {:x} ry {:x}", c.pc, c.wp, c.rx, c.ry)?;
    print!(rt;
        " loaded {:x} n {:x} z {:x} spr7 {:x}",
        c.loaded, c.n, c.z, c.spr7
    )?;
    print!(rt;
        " depth {:x} imask {:x} saved {:x}",
        c.depth, c.imask, c.saved
    )?;
    print!(rt;
        " mode {:x} posted {:x} port {:x}",
        c.mode, c.posted, c.port
    )?;
    print!(rt; " taken {:x} logged {:x}", c.taken, c.logged)
}

// The cells that are not as before.
pub fn put_changes(rt: &impl Print, name: &str, before: &[u32], after: &[u32]) -> io::Result<()> {
    print!(rt; "; {name}")?;
    for (at, (old, new)) in before.iter().zip(after).enumerate() {
        if old != new {
            print!(rt; " {at:x}={new:x}")?;
        }
    }
    Ok(())
}

pub fn put_machine(rt: &impl Print, m: Machine) -> io::Result<()> {
    put_core(rt, m.core)?;
    put_changes(rt, "stack", &[0; Machine::STACK_CELLS], &m.stack)
}
