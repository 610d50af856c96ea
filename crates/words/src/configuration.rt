// Which configurations are lawful: refusal 1.
ghost use Rattle.std.specs.Prelude.{◌≡◌};
ghost use Rattle.laws.specs.Test.{test, member};
ghost use Rattle.words.specs.Configs.{data_sizes, lawful_image, lawful_registers, lawful_banks, lawful_memory, lawful_options, lawful_rest, lawful};

use crate::Config;

// Whether d is 0 or a power of two from 2 to 32,768: such a number has at most one bit.
fn data_size(d: u32) -> bool
    ensures { result ≡ member d data_sizes }
{
    (d <= 32768) & ((d != 1) & (d.count_ones() <= 1))
}

// A size is compared with each of its values: by `matches!` a look at a configuration takes some 25 instructions more.
impl Config {
    fn has_lawful_image(&self) -> bool
        ensures { result ≡ test (lawful_image self.now.imwidth self.now.imsize) }
    {
        (self.imwidth == 32) & ((0 < self.imsize) & (self.imsize <= 32768))
    }

    fn has_lawful_registers(&self) -> bool
        ensures { result ≡ test (lawful_registers self.now.regwidth self.now.regsize) }
    {
        ((self.regwidth == 8) | ((self.regwidth == 16) | (self.regwidth == 32)))
            & ((self.regsize == 8)
                | ((self.regsize == 16)
                    | ((self.regsize == 32) | ((self.regsize == 64) | (self.regsize == 128)))))
    }

    fn has_lawful_banks(&self) -> bool
        ensures { result ≡ test (lawful_banks self.now.regwidth self.now.regsize self.now.rmsize) }
    {
        (self.rmsize == self.regsize)
            | ((self.regwidth == 32)
                & ((2 * (self.regsize as u64) <= self.rmsize as u64)
                    & ((self.rmsize == 16)
                        | ((self.rmsize == 32)
                            | ((self.rmsize == 64)
                                | ((self.rmsize == 128)
                                    | ((self.rmsize == 256)
                                        | ((self.rmsize == 512) | (self.rmsize == 1024)))))))))
    }

    fn has_lawful_memory(&self) -> bool
        ensures { result ≡ test (lawful_memory self.now.pcstack self.now.dmsize self.now.dmpipe) }
    {
        (0 < self.pcstack) & ((self.pcstack <= 64) & (data_size(self.dmsize) & (self.dmpipe <= 2)))
    }

    fn has_lawful_options(&self) -> bool
        ensures { result ≡ test (lawful_options self.now.regwidth self.now.alulevel self.now.alumult self.now.aluspr self.now.iopif self.now.ioprmw) }
    {
        (self.alulevel <= 2)
            & ((!(0 < self.alulevel) | (16 <= self.regwidth))
                & ((self.alumult <= 1)
                    & ((self.aluspr <= 1) & ((self.iopif <= 1) & (self.ioprmw <= self.iopif)))))
    }

    fn has_lawful_rest(&self) -> bool
        ensures { result ≡ test (lawful_rest self.now.yamclk self.now.yamsreg3 self.now.alu3op self.now.irqif self.now.copmsize self.now.yamdbg) }
    {
        (self.yamclk <= 1023)
            & ((self.yamsreg3 <= 65535)
                & ((self.alu3op == 0)
                    & ((self.irqif == 0) & ((self.copmsize == 0) & (self.yamdbg == 0)))))
    }

    // Whether the configuration keeps document 01's rules; where it does not, it is refused with 1.
    pub fn lawful(self) -> bool
        ensures { result ≡ test (lawful self) }
    {
        self.has_lawful_image()
            & (self.has_lawful_registers()
                & (self.has_lawful_banks()
                    & (self.has_lawful_memory()
                        & (self.has_lawful_options() & self.has_lawful_rest()))))
    }
}
