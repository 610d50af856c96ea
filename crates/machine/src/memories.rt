// Reading and writing memories.
ghost use Rattle.std.specs.Prelude.{◌≡◌, ◌<◌, get_or, length};
ghost use Rattle.state.specs.State.{state};
ghost use Rattle.state.specs.Step.{put_of, applied};
ghost use Rattle.state.specs.Landing.{Inside, Landing};

use state::{Change, Write};

// A cell that is there.
pub fn cell(xs: &[u32], i: usize) -> u32
    requires { i < length xs.now }
    ensures { result ≡ get_or xs.now i 0 }
{
    xs[i]
}

// A write, if there is one.
fn put(xs: &mut [u32], w: Option<Write>)
    requires { Inside (length xs.old) w }
    ensures { xs.new ≡ put_of w xs.old }
{
    if let Some(Write { at, value }) = w {
        xs[at] = value;
    }
}

// All writes of a change.
pub fn commit(
    x: Change,
    stack: &mut [u32],
    registers: &mut [u32],
    memory: &mut [u32],
    addresses: &mut [u32],
    values: &mut [u32],
)
    requires { Landing (length registers.old) (length memory.old) (length addresses.old) x × (length stack.old ≡ 63) × (length values.old ≡ length addresses.old) }
    ensures { state x.core stack.new registers.new memory.new addresses.new values.new ≡ applied x (state x.core stack.old registers.old memory.old addresses.old values.old) }
{
    put(stack, x.stack);
    put(registers, x.reg);
    put(memory, x.dm);
    put(addresses, x.logat);
    put(values, x.logval);
}
