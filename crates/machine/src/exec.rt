// What a cell does, by its action (words' specs/Actions.antt): one choice for kind, operation and form.
ghost use Rattle.std.specs.Prelude.{◌≡◌, ◌+◌, ◌≤◌, ◌<◌, get_or, length};
ghost use Rattle.state.specs.State.{stack_limit};
ghost use Rattle.state.specs.Operands.{view};
ghost use Rattle.state.specs.Context.{context_of};
ghost use Rattle.cells.specs.Cell.{destination_in, source_in, value_in};
ghost use Rattle.plans.specs.Values.{operands};
ghost use Rattle.machine.specs.Exec.{Fit, Placed, Acts};

use crate::memories::cell;
use cells::{destination, flag, source, taken, value};
use plans::{Operands, context};
use state::{Change, Core};
use words::{Config, Operation, actions, layout};

// A cell that is not carried out here stops with this and its value: the word is not decoded yet, is refused, or enters or leaves special-register mode.
pub const APART: u32 = 256;

// The cell of the destination register.
fn place(m: Core, x: u64) -> usize
    requires { m.wp ≤ 1024 }
    ensures { result ≡ m.wp + destination_in x }
{
    m.wp + destination(x)
}

// The value of the destination register.
fn upper(m: Core, registers: &[u32], x: u64) -> u32
    requires { Placed m (length registers.now) x }
    ensures { result ≡ get_or registers.now (m.wp + destination_in x) 0 }
{
    cell(registers, m.wp + destination(x))
}

// The value of the source register.
fn lower(m: Core, registers: &[u32], x: u64) -> u32
    requires { Placed m (length registers.now) x }
    ensures { result ≡ get_or registers.now (m.wp + source_in x) 0 }
{
    cell(registers, m.wp + source(x))
}

// WP is a multiple of this; JSRWP names it by the quotient.
const BANK_UNIT: usize = 16;

// The context that JSRWP stores.
fn context_of(m: Core) -> u32
    requires { context_of m < 4294967296 }
    ensures { result ≡ context_of m }
{
    let bank = (m.wp / BANK_UNIT) as u32;
    let n = m.n as u32;
    let z = m.z as u32;
    let imask = m.imask as u32;
    let back = (m.pc + 1) as u32;
    context::BANK * bank + context::N * n + context::Z * z + context::IMASK * imask + back
}

// The operands of an ALU cell whose second operand is a register.
fn by_register(m: Core, registers: &[u32], x: u64) -> Operands
    requires { Placed m (length registers.now) x }
    ensures { result ≡ operands (m.wp + destination_in x) (get_or registers.now (m.wp + destination_in x) 0) (get_or registers.now (m.wp + source_in x) 0) }
{
    let at = place(m, x);
    let d = upper(m, registers, x);
    let s = lower(m, registers, x);
    Operands { at, d, x: s }
}

// The same with an immediate or a shift count.
fn by_value(m: Core, registers: &[u32], x: u64) -> Operands
    requires { Placed m (length registers.now) x }
    ensures { result ≡ operands (m.wp + destination_in x) (get_or registers.now (m.wp + destination_in x) 0) (value_in x) }
{
    let at = place(m, x);
    let d = upper(m, registers, x);
    let v = value(x);
    Operands { at, d, x: v }
}

// The change that the word of cell x makes, or its stop, 9 to 15 or 27, or that it is made apart; `limit` is the return stack's.
pub fn exec(
    c: Config,
    limit: usize,
    m: Core,
    inputs: &[u32],
    stack: &[u32],
    registers: &[u32],
    memory: &[u32],
    room: usize,
    x: u64,
) -> Change
    requires { Fit c m registers.now × (context_of m < 4294967296) × (length memory.now ≡ c.dmsize) × (limit ≡ stack_limit c.pcstack) × (m.depth ≤ length stack.now) × Placed m (length registers.now) x }
    ensures { Acts (view c m stack.now registers.now memory.now inputs.now room) x result }
{
    match cells::action(x) {
        actions::UNSUPPORTED => m.stopped(APART + value(x) % APART),
        actions::TST_REGISTER => {
            let t = by_register(m, registers, x);
            plans::compare(c, m, flag(x), Operation::And, t)
        },
        actions::TST_IMMEDIATE => {
            let t = by_value(m, registers, x);
            plans::compare(c, m, flag(x), Operation::And, t)
        },
        actions::AND_REGISTER => {
            let t = by_register(m, registers, x);
            plans::compute(c, m, flag(x), Operation::And, t)
        },
        actions::AND_IMMEDIATE => {
            let t = by_value(m, registers, x);
            plans::compute(c, m, flag(x), Operation::And, t)
        },
        actions::OR_REGISTER => {
            let t = by_register(m, registers, x);
            plans::compute(c, m, flag(x), Operation::Or, t)
        },
        actions::OR_IMMEDIATE => {
            let t = by_value(m, registers, x);
            plans::compute(c, m, flag(x), Operation::Or, t)
        },
        actions::XOR_REGISTER => {
            let t = by_register(m, registers, x);
            plans::compute(c, m, flag(x), Operation::Xor, t)
        },
        actions::XOR_IMMEDIATE => {
            let t = by_value(m, registers, x);
            plans::compute(c, m, flag(x), Operation::Xor, t)
        },
        actions::CMP_REGISTER => {
            let t = by_register(m, registers, x);
            plans::compare(c, m, flag(x), Operation::Sub, t)
        },
        actions::CMP_IMMEDIATE => {
            let t = by_value(m, registers, x);
            plans::compare(c, m, flag(x), Operation::Sub, t)
        },
        actions::CMPS_REGISTER => {
            let t = by_register(m, registers, x);
            plans::compare(c, m, flag(x), Operation::Subs, t)
        },
        actions::CMPS_IMMEDIATE => {
            let t = by_value(m, registers, x);
            plans::compare(c, m, flag(x), Operation::Subs, t)
        },
        actions::SUB_REGISTER => {
            let t = by_register(m, registers, x);
            plans::compute(c, m, flag(x), Operation::Sub, t)
        },
        actions::SUB_IMMEDIATE => {
            let t = by_value(m, registers, x);
            plans::compute(c, m, flag(x), Operation::Sub, t)
        },
        actions::SUBS_REGISTER => {
            let t = by_register(m, registers, x);
            plans::compute(c, m, flag(x), Operation::Subs, t)
        },
        actions::SUBS_IMMEDIATE => {
            let t = by_value(m, registers, x);
            plans::compute(c, m, flag(x), Operation::Subs, t)
        },
        actions::ADD_REGISTER => {
            let t = by_register(m, registers, x);
            plans::compute(c, m, flag(x), Operation::Add, t)
        },
        actions::ADD_IMMEDIATE => {
            let t = by_value(m, registers, x);
            plans::compute(c, m, flag(x), Operation::Add, t)
        },
        actions::ADDC_REGISTER => {
            let t = by_register(m, registers, x);
            plans::compute(c, m, flag(x), Operation::Addc, t)
        },
        actions::ADDC_IMMEDIATE => {
            let t = by_value(m, registers, x);
            plans::compute(c, m, flag(x), Operation::Addc, t)
        },
        actions::SUBC_REGISTER => {
            let t = by_register(m, registers, x);
            plans::compute(c, m, flag(x), Operation::Subc, t)
        },
        actions::SUBC_IMMEDIATE => {
            let t = by_value(m, registers, x);
            plans::compute(c, m, flag(x), Operation::Subc, t)
        },
        actions::MUL_REGISTER => {
            let t = by_register(m, registers, x);
            plans::multiply(c, m, t)
        },
        actions::MUL_IMMEDIATE => {
            let t = by_value(m, registers, x);
            plans::multiply(c, m, t)
        },
        actions::SHR_REGISTER => {
            let t = by_register(m, registers, x);
            plans::compute(c, m, flag(x), Operation::Shr, t)
        },
        actions::SHRA_REGISTER => {
            let t = by_register(m, registers, x);
            plans::compute(c, m, flag(x), Operation::Shra, t)
        },
        actions::SHL_REGISTER => {
            let t = by_register(m, registers, x);
            plans::compute(c, m, flag(x), Operation::Shl, t)
        },
        actions::SHR_COUNT => {
            let t = by_value(m, registers, x);
            plans::compute(c, m, flag(x), Operation::Shr, t)
        },
        actions::SHRA_COUNT => {
            let t = by_value(m, registers, x);
            plans::compute(c, m, flag(x), Operation::Shra, t)
        },
        actions::SHL_COUNT => {
            let t = by_value(m, registers, x);
            plans::compute(c, m, flag(x), Operation::Shl, t)
        },
        actions::ROTR => {
            let t = by_register(m, registers, x);
            plans::compute(c, m, flag(x), Operation::Rotr, t)
        },
        actions::ROTL => {
            let t = by_register(m, registers, x);
            plans::compute(c, m, flag(x), Operation::Rotl, t)
        },
        actions::SHL16 => {
            let t = by_register(m, registers, x);
            plans::compute(c, m, flag(x), Operation::Shl16, t)
        },
        actions::ABS => {
            let t = by_register(m, registers, x);
            plans::compute(c, m, flag(x), Operation::Abs, t)
        },
        actions::CLZ => {
            let t = by_register(m, registers, x);
            plans::compute(c, m, flag(x), Operation::Clz, t)
        },
        actions::BST => {
            let t = by_register(m, registers, x);
            plans::compute(c, m, flag(x), Operation::Bst(value(x)), t)
        },
        actions::BLD => {
            let t = by_register(m, registers, x);
            plans::compute(c, m, flag(x), Operation::Bld(value(x)), t)
        },
        actions::BLDS => {
            let t = by_register(m, registers, x);
            plans::compute(c, m, flag(x), Operation::Blds(value(x)), t)
        },
        actions::LDYX => plans::load_index(m, flag(x), source(x) as u32, destination(x) as u32),
        actions::MOVX_TO => plans::index_store(
            c,
            m,
            flag(x),
            upper(m, registers, x),
            cell(registers, m.wp + m.rx),
        ),
        actions::MOVX_FROM => plans::index_load(
            c,
            m,
            flag(x),
            lower(m, registers, x),
            m.wp + m.rx,
            memory,
        ),
        actions::MOV_REGISTER => plans::assign(m, place(m, x), lower(m, registers, x)),
        actions::MOV_IMMEDIATE => plans::assign(m, place(m, x), value(x)),
        actions::MOV_FROM_REGISTER => plans::load_register(
            m,
            place(m, x),
            lower(m, registers, x),
            memory,
        ),
        actions::MOV_FROM_ADDRESS => plans::assign(
            m,
            place(m, x),
            plans::value_at(memory, value(x) as usize),
        ),
        actions::MOV_TO_REGISTER => plans::store_register(
            c,
            m,
            upper(m, registers, x),
            lower(m, registers, x),
        ),
        actions::MOV_TO_ADDRESS => plans::store_direct(m, value(x), upper(m, registers, x)),
        actions::MOVIO_READ => plans::port_read(c, m, place(m, x), lower(m, registers, x), inputs),
        actions::IORMW => plans::port_modify(
            c,
            m,
            place(m, x),
            lower(m, registers, x),
            inputs,
            room,
        ),
        actions::MOVIO_REGISTER => plans::port_write(
            m,
            upper(m, registers, x),
            lower(m, registers, x),
            room,
        ),
        actions::MOVIO_IMMEDIATE => plans::port_write(m, upper(m, registers, x), value(x), room),
        actions::JMP_ALWAYS => plans::jump(m, value(x) as usize),
        actions::JMP_CONDITION => plans::branch(m, taken(x), value(x) as usize),
        actions::JMP_REGISTER_ALWAYS => plans::jump(
            m,
            (upper(m, registers, x) % layout::TARGETS) as usize,
        ),
        actions::JMP_REGISTER_CONDITION => plans::branch(
            m,
            taken(x),
            (upper(m, registers, x) % layout::TARGETS) as usize,
        ),
        actions::JSR => plans::call(limit, m, value(x) as usize),
        actions::JSR_REGISTER => plans::call(
            limit,
            m,
            (upper(m, registers, x) % layout::TARGETS) as usize,
        ),
        actions::RLD => plans::ret_constant(m, place(m, x), value(x), stack),
        actions::JSRWP => plans::enter_bank(
            c,
            m,
            value(x) / layout::UPPER,
            value(x) % layout::UPPER,
            context_of(m),
        ),
        actions::RET => plans::ret(m, stack),
        actions::RETWP => plans::leave_bank(c, m, cell(registers, m.wp)),
        actions::SPR_OFF => m.stopped(APART),
        _ => m.stopped(APART),
    }
}
