// What an instruction of each kind changes, from the values that it reads; its own stops are tested here.
ghost use Rattle.std.specs.Prelude.{◌≡◌, ◌+◌, ◌-◌, ◌*◌, ◌/◌, ◌%◌, not, length, ◌==◌, nat_le, nat_lt, slice_index};
ghost use Rattle.laws.specs.Choice.{pick as choice};
ghost use Rattle.laws.specs.Test.{imp};
ghost use Rattle.arith.specs.Width.{bits};
ghost use Rattle.arith.specs.Width.{one as flag};
ghost use Rattle.arith.specs.Alu.{Within};
ghost use Rattle.state.specs.State.{top};
ghost use Rattle.state.specs.Cores.{posting, flagged, indexed, multiplied, deep, masked, banked, taking, logging, off, write, change, stopped, moved, to_register, to_memory, to_stack, to_log};
ghost use Rattle.state.specs.Context.{wp_in, n_in, z_in, mask_in, address_in};
ghost use Rattle.state.specs.Operands.{data_address};
ghost use Rattle.state.specs.Plans.{product, with_top_bit};
ghost use Rattle.plans.specs.Values.{up, went, onward, further, computed, compared, taken_at};

use crate::values::{cut, one, value_at, wide, with_top_bit};
use crate::{Operands, context};
use state::{Change, Core, Machine, Write};
use words::{Config, Operation};

// "Data addresses are register values mod 65,536."
const DATA_ADDRESSES: u32 = 65536;

// How many values a cell of the return stack has.
const STACK_WORDS: usize = 0x100000000;

// The core at the next address.
fn next(m: Core) -> Core
    ensures { result ≡ onward m }
{
    m.go(m.pc.wrapping_add(1))
}

// An instruction of a kind that no word has.
pub fn skip(m: Core) -> Change
    ensures { result ≡ moved (onward m) }
{
    next(m).moved()
}

// The result to a register, and the flags: promised of words at the width.
pub fn compute(c: Config, m: Core, bit26: u32, o: Operation, t: Operands) -> Change
    ensures { Within (bits c.regwidth) t.d t.x m.n → result ≡ computed c m bit26 o t }
{
    let w = arith::alu_within(c.regwidth, o, t.d, t.x, m.n);
    next(m).flagged(bit26, w.z, w.n).to_register(t.at, w.value)
}

// The flags alone, promised of the same.
pub fn compare(c: Config, m: Core, bit26: u32, o: Operation, t: Operands) -> Change
    ensures { Within (bits c.regwidth) t.d t.x m.n → result ≡ compared c m bit26 o t }
{
    let w = arith::alu_within(c.regwidth, o, t.d, t.x, m.n);
    next(m).flagged(bit26, w.z, w.n).moved()
}

pub fn multiply(c: Config, m: Core, t: Operands) -> Change
    ensures { result ≡ to_register (multiplied (onward m) (product c t.d t.x).high) t.at (product c t.d t.x).value }
{
    let p = arith::mul(c.regwidth, t.d, t.x);
    next(m).multiplied(p.high as u64).to_register(t.at, p.value)
}

// LDYX: x is RX, y is RY.
pub fn load_index(m: Core, bit26: u32, x: u32, y: u32) -> Change
    ensures { result ≡ moved (flagged (indexed (onward m) 1 x y) bit26 (flag (x == y)) 0) }
{
    next(m)
        .indexed(1, x as usize, y as usize)
        .flagged(bit26, one(x == y), 0)
        .moved()
}

// RX one further, the mark of an LDYX as it was, and the flags of MOVX, from RX as it was.
fn index_core(c: Config, m: Core, bit26: u32) -> Core
    ensures { result ≡ flagged (further c (onward m)) bit26 (flag (m.rx == m.ry)) 0 }
{
    let x = m.rx.wrapping_add(1);
    let equal = one(m.rx == m.ry);
    if x == c.regsize as usize {
        return next(m).indexed(m.loaded, 0, m.ry).flagged(bit26, equal, 0);
    }
    next(m).indexed(m.loaded, x, m.ry).flagged(bit26, equal, 0)
}

// MOVX to DM: a is the address register's value, x the value of the register that RX names. 27 before an LDYX, then 13.
pub fn index_store(c: Config, m: Core, bit26: u32, a: u32, x: u32) -> Change
    ensures { result ≡ choice (not (m.loaded == 0)) (choice (nat_lt (data_address a) c.dmsize) (to_memory (flagged (further c (onward m)) bit26 (flag (m.rx == m.ry)) 0) (data_address a) x) (stopped m 13)) (stopped m 27) }
{
    if m.loaded == 0 {
        return m.stopped(27);
    }
    let t = a % DATA_ADDRESSES;
    if t < c.dmsize {
        return index_core(c, m, bit26).to_memory(t as usize, x);
    }
    m.stopped(13)
}

// MOVX from DM: i is the cell of the register that RX names.
pub fn index_load(c: Config, m: Core, bit26: u32, a: u32, i: usize, memory: &[u32]) -> Change
    ensures { result ≡ choice (not (m.loaded == 0)) (choice (nat_lt (data_address a) (length memory.now)) (to_register (flagged (further c (onward m)) bit26 (flag (m.rx == m.ry)) 0) i (slice_index memory.now (data_address a))) (stopped m 13)) (stopped m 27) }
{
    if m.loaded == 0 {
        return m.stopped(27);
    }
    let t = (a % DATA_ADDRESSES) as usize;
    if t < memory.len() {
        return index_core(c, m, bit26).to_register(i, value_at(memory, t));
    }
    m.stopped(13)
}

// A value to a register: MOV of a register, a constant, or a data cell by its direct address.
pub fn assign(m: Core, i: usize, x: u32) -> Change
    ensures { result ≡ to_register (onward m) i x }
{
    next(m).to_register(i, x)
}

// MOV %d,@%s: a is the address register's value.
pub fn load_register(m: Core, i: usize, a: u32, memory: &[u32]) -> Change
    ensures { result ≡ choice (nat_lt (data_address a) (length memory.now)) (to_register (onward m) i (slice_index memory.now (data_address a))) (stopped m 13) }
{
    let t = (a % DATA_ADDRESSES) as usize;
    if t < memory.len() {
        return next(m).to_register(i, value_at(memory, t));
    }
    m.stopped(13)
}

// MOV @%d,%s.
pub fn store_register(c: Config, m: Core, a: u32, x: u32) -> Change
    ensures { result ≡ choice (nat_lt (data_address a) c.dmsize) (to_memory (onward m) (data_address a) x) (stopped m 13) }
{
    let t = a % DATA_ADDRESSES;
    if t < c.dmsize {
        return next(m).to_memory(t as usize, x);
    }
    m.stopped(13)
}

// MOV &a,%s.
pub fn store_direct(m: Core, a: u32, x: u32) -> Change
    ensures { result ≡ to_memory (onward m) a x }
{
    next(m).to_memory(a as usize, x)
}

// No write to another address than a is posted.
fn near(m: Core, a: u32) -> bool
    ensures { result ≡ imp (m.posted == 1) (m.port == a) }
{
    !(m.posted == 1) | (m.port == a as u64)
}

// A port read at address a: 9 straight after a write to another address, 14 with no input left.
pub fn port_read(c: Config, m: Core, i: usize, a: u32, inputs: &[u32]) -> Change
    ensures { result ≡ choice (imp (m.posted == 1) (m.port == a)) (choice (nat_lt m.taken (length inputs.now)) (to_register (taking (onward m)) i (slice_index inputs.now m.taken % top c)) (stopped m 14)) (stopped m 9) }
{
    if !near(m, a) {
        return m.stopped(9);
    }
    let t = m.taken;
    if inputs.len() <= t {
        return m.stopped(14);
    }
    let x = cut(c.regwidth, wide(inputs[t]));
    next(m).positioned(t + 1, m.logged).to_register(i, x)
}

// IORMW: a port read, and a write of the value with its top bit set.
pub fn port_modify(c: Config, m: Core, i: usize, a: u32, inputs: &[u32], room: usize) -> Change
    ensures { result ≡ choice (imp (m.posted == 1) (m.port == a)) (choice (nat_lt m.taken (length inputs.now)) (choice (nat_lt m.logged room) (change (posting (logging (taking (onward m))) 1 a) (write i (slice_index inputs.now m.taken % top c)) off off (write m.logged a) (write m.logged (with_top_bit c (slice_index inputs.now m.taken % top c)))) (stopped m 15)) (stopped m 14)) (stopped m 9) }
{
    if !near(m, a) {
        return m.stopped(9);
    }
    let t = m.taken;
    if inputs.len() <= t {
        return m.stopped(14);
    }
    let l = m.logged;
    if room <= l {
        return m.stopped(15);
    }
    let x = cut(c.regwidth, wide(inputs[t]));
    let y = with_top_bit(c, x);
    next(m).positioned(t + 1, l + 1).posting(a as u64).change(
        Some(Write { at: i, value: x }),
        None,
        None,
        Some(Write { at: l, value: a }),
        Some(Write { at: l, value: y }),
    )
}

// A port write of x to address a: 15 with no room in the log.
pub fn port_write(m: Core, a: u32, x: u32, room: usize) -> Change
    ensures { result ≡ choice (nat_lt m.logged room) (to_log (posting (logging (onward m)) 1 a) m.logged a x) (stopped m 15) }
{
    let l = m.logged;
    if room <= l {
        return m.stopped(15);
    }
    next(m)
        .positioned(m.taken, l + 1)
        .posting(a as u64)
        .to_log(l, a, x)
}

// A jump to p.
pub fn jump(m: Core, p: usize) -> Change
    ensures { result ≡ moved (went m p) }
{
    m.go(p).moved()
}

// A jump to p where bit 2 N + Z of `taken` is set: the four answers of a condition.
pub fn branch(m: Core, taken: u32, p: usize) -> Change
    ensures { result ≡ moved (choice (taken_at taken m.n m.z) (went m p) (onward m)) }
{
    let i = 2 * (m.n % 2) + m.z % 2;
    if (taken >> (i as u32)) % 2 == 1 {
        return m.go(p).moved();
    }
    next(m).moved()
}

// A call of p: 10 with the return stack full, at `limit` addresses.
pub fn call(limit: usize, m: Core, p: usize) -> Change
    ensures { result ≡ choice (nat_lt m.depth limit) (to_stack (deep (went m p) (m.depth + 1)) m.depth (up m.pc % 0x100000000)) (stopped m 10) }
{
    let d = m.depth;
    if d < limit {
        let back = m.pc.wrapping_add(1) % STACK_WORDS;
        return m.go(p).deep(d + 1).to_stack(d, back as u32);
    }
    m.stopped(10)
}

// The core that returns to the newest address.
fn returned(m: Core, newest: usize, stack: &[u32]) -> Core
    ensures { result ≡ deep (went m (slice_index stack.now newest)) newest }
{
    let back = value_at(stack, newest) as usize;
    m.go(back).deep(newest)
}

// RET: 11 with the return stack empty.
pub fn ret(m: Core, stack: &[u32]) -> Change
    ensures { result ≡ choice (nat_lt 0 m.depth) (to_stack (deep (went m (slice_index stack.now (m.depth - 1))) (m.depth - 1)) (m.depth - 1) 0) (stopped m 11) }
{
    let d = m.depth;
    if d == 0 {
        return m.stopped(11);
    }
    returned(m, d - 1, stack).to_stack(d - 1, 0)
}

// RLD: a return that loads a constant, ready at the width.
pub fn ret_constant(m: Core, i: usize, x: u32, stack: &[u32]) -> Change
    ensures { result ≡ choice (nat_lt 0 m.depth) (change (deep (went m (slice_index stack.now (m.depth - 1))) (m.depth - 1)) (write i x) off (write (m.depth - 1) 0) off off) (stopped m 11) }
{
    let d = m.depth;
    if d == 0 {
        return m.stopped(11);
    }
    returned(m, d - 1, stack).change(
        Some(Write { at: i, value: x }),
        None,
        Some(Write {
            at: d - 1,
            value: 0,
        }),
        None,
        None,
    )
}

// JSRWP: 12 where the new bank does not fit; x is the context that it stores.
pub fn enter_bank(c: Config, m: Core, unit: u32, p: u32, x: u32) -> Change
    ensures { result ≡ choice (nat_le (16 * unit + c.regsize) c.rmsize) (to_register (banked (went m p) (16 * unit)) (16 * unit) x) (stopped m 12) }
{
    let w = 16 * (unit as usize);
    if w + (c.regsize as usize) <= c.rmsize as usize {
        return m.go(p as usize).banked(w).to_register(w, x);
    }
    m.stopped(12)
}

// RETWP: x is %00 of the active bank.
pub fn leave_bank(c: Config, m: Core, x: u32) -> Change
    ensures { result ≡ choice (nat_le (wp_in x + c.regsize) c.rmsize) (moved (masked (flagged (banked (went m (address_in x)) (wp_in x)) 0 (z_in x) (n_in x)) (mask_in x) m.saved m.mode)) (stopped m 12) }
{
    let w = 16 * ((x / context::BANK) as usize);
    if w + (c.regsize as usize) <= c.rmsize as usize {
        let z = (x / context::Z % 2) as u64;
        let n = (x / context::N % 2) as u64;
        let mask = (x / context::IMASK % context::IMASKS) as u64;
        return m
            .go((x % context::PCS) as usize)
            .banked(w)
            .flagged(0, z, n)
            .masked(mask, m.saved, m.mode)
            .moved();
    }
    m.stopped(12)
}

// SPR_ON.
pub fn enter_special(m: Core) -> Change
    ensures { result ≡ moved (masked (onward m) 15 m.imask 1) }
{
    next(m).masked(Machine::MASK_MOST, m.imask, 1).moved()
}

// SPR_OFF.
pub fn leave_special(m: Core) -> Change
    ensures { result ≡ moved (masked (onward m) m.saved m.saved 0) }
{
    next(m).masked(m.saved, m.saved, 0).moved()
}
