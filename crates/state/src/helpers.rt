// The step helpers: each takes the core by value and hands the new one back, or the change that it makes.
ghost use Rattle.std.specs.Prelude.{◌≡◌};
ghost use Rattle.state.specs.Cores.{at, posting, flagged, indexed, multiplied, deep, masked, banked, positioned, off, change, stopped, moved, to_register, to_memory, to_stack, to_log};
ghost use Rattle.state.specs.State.{reset_machine, stack_limit};

use crate::{Change, Core, Machine, Write};

impl Machine {
    // How many addresses the return stack can hold in any configuration.
    pub const STACK_CELLS: usize = 63;
    // What the record's parts stay below, or are at most, in any configuration.
    pub const PC_LIMIT: usize = 0x800000;

    pub const MASK_MOST: u64 = 15;
    // The largest budget of a run.
    pub const BUDGET_MOST: u64 = 1000000;

    // The machine at reset.
    pub fn reset() -> Machine
        ensures { result ≡ reset_machine }
    {
        let core = Core {
            pc: 0,
            wp: 0,
            rx: 0,
            ry: 0,
            loaded: 0,
            n: 0,
            z: 0,
            spr7: 0,
            depth: 0,
            imask: Machine::MASK_MOST,
            saved: Machine::MASK_MOST,
            mode: 0,
            posted: 0,
            port: 0,
            taken: 0,
            logged: 0,
        };
        Machine {
            core,
            stack: [0; Machine::STACK_CELLS],
        }
    }

    // How many addresses the return stack holds at most under PC_STACK.
    pub fn stack_limit(pcstack: u32) -> usize
        ensures { result ≡ stack_limit pcstack }
    {
        if pcstack == 1 {
            return 1;
        }
        if pcstack == 0 {
            return 0;
        }
        (pcstack as usize) - 1
    }
}

// Each method changes its own copy: by struct updates a compiled step has six instructions more (50.8 in place of 44.8).
impl Core {
    // Control goes to p, and nothing is posted any more.
    pub fn go(mut self, p: usize) -> Core
        ensures { result ≡ posting (at self p) 0 0 }
    {
        self.pc = p;
        self.posted = 0;
        self.port = 0;
        self
    }

    // A write to port address a is posted.
    pub fn posting(mut self, a: u64) -> Core
        ensures { result ≡ posting self 1 a }
    {
        self.posted = 1;
        self.port = a;
        self
    }

    // Z and N, where bit 26 is 0.
    pub fn flagged(mut self, bit26: u32, z: u64, n: u64) -> Core
        ensures { result ≡ flagged self bit26 z n }
    {
        if bit26 == 0 {
            self.n = n;
            self.z = z;
            return self;
        }
        self
    }

    // The mark of an LDYX, RX and RY.
    pub fn indexed(mut self, loaded: u32, x: usize, y: usize) -> Core
        ensures { result ≡ indexed self loaded x y }
    {
        self.loaded = loaded;
        self.rx = x;
        self.ry = y;
        self
    }

    // SPR7.
    pub fn multiplied(mut self, high: u64) -> Core
        ensures { result ≡ multiplied self high }
    {
        self.spr7 = high;
        self
    }

    // How many addresses the return stack holds.
    pub fn deep(mut self, d: usize) -> Core
        ensures { result ≡ deep self d }
    {
        self.depth = d;
        self
    }

    // The masks and the mode.
    pub fn masked(mut self, imask: u64, saved: u64, mode: u64) -> Core
        ensures { result ≡ masked self imask saved mode }
    {
        self.imask = imask;
        self.saved = saved;
        self.mode = mode;
        self
    }

    // WP.
    pub fn banked(mut self, w: usize) -> Core
        ensures { result ≡ banked self w }
    {
        self.wp = w;
        self
    }

    // The positions in the inputs and in the log.
    pub fn positioned(mut self, taken: usize, logged: usize) -> Core
        ensures { result ≡ positioned self taken logged }
    {
        self.taken = taken;
        self.logged = logged;
        self
    }

    // A stop: nothing changes.
    pub fn stopped(self, n: u32) -> Change
        ensures { result ≡ stopped self n }
    {
        Change {
            stop: n,
            core: self,
            reg: None,
            dm: None,
            stack: None,
            logat: None,
            logval: None,
        }
    }

    // This core next, with these writes.
    pub fn change(
        self,
        reg: Option<Write>,
        dm: Option<Write>,
        stack: Option<Write>,
        logat: Option<Write>,
        logval: Option<Write>,
    ) -> Change
        ensures { result ≡ change self reg dm stack logat logval }
    {
        Change {
            stop: 0,
            core: self,
            reg,
            dm,
            stack,
            logat,
            logval,
        }
    }

    pub fn moved(self) -> Change
        ensures { result ≡ moved self }
    {
        self.change(None, None, None, None, None)
    }

    pub fn to_register(self, at: usize, value: u32) -> Change
        ensures { result ≡ to_register self at value }
    {
        self.change(Some(Write { at, value }), None, None, None, None)
    }

    pub fn to_memory(self, at: usize, value: u32) -> Change
        ensures { result ≡ to_memory self at value }
    {
        self.change(None, Some(Write { at, value }), None, None, None)
    }

    pub fn to_stack(self, at: usize, value: u32) -> Change
        ensures { result ≡ to_stack self at value }
    {
        self.change(None, None, Some(Write { at, value }), None, None)
    }

    pub fn to_log(self, at: usize, address: u32, value: u32) -> Change
        ensures { result ≡ to_log self at address value }
    {
        self.change(
            None,
            None,
            None,
            Some(Write { at, value: address }),
            Some(Write { at, value }),
        )
    }
}
