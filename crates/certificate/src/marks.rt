// The mark of an address: 255 where it is unused; else its level in bits 5 to 0, bit 6 in a subroutine, bit 7 in special-register mode.
ghost use Rattle.std.specs.Prelude.{◌≡◌, ◌/◌};
ghost use Rattle.rules.specs.Marks.{used, level_of, sub_of, mode_of};
ghost use Rattle.certificate.specs.Settling.{mark_after};

use words::Facts;

#[derive(Clone, Copy, Debug, PartialEq, Eq)]
pub struct Mark {
    pub byte: u8,
}

impl Mark {
    pub const UNUSED: Mark = Mark { byte: 255 };

    const LEVELS: u8 = 64;

    const SPECIAL: u8 = 128;

    pub fn is_used(self) -> bool
        ensures { result ≡ used self.byte }
    {
        self.byte != 255
    }

    pub fn level(self) -> u8
        ensures { result ≡ level_of self.byte }
    {
        self.byte % Self::LEVELS
    }

    // 1 in a subroutine, else 0.
    pub fn sub(self) -> u8
        ensures { result ≡ sub_of self.byte }
    {
        self.byte / Self::LEVELS % 2
    }

    // 1 in special-register mode, else 0.
    pub fn mode(self) -> u8
        ensures { result ≡ mode_of self.byte }
    {
        self.byte / Self::SPECIAL % 2
    }

    // Bits 6 and 7.
    pub fn flags(self) -> u8
        ensures { result ≡ self.byte / 64 }
    {
        self.byte / Self::LEVELS
    }

    // With the mode that a word leaves.
    #[tactic(auto, unfolding(laws::specs::Choice::pick))]
    pub fn after(self, f: Facts) -> Mark
        ensures { result.byte ≡ mark_after f self.byte }
    {
        let byte = if f.enters {
            self.byte % Self::SPECIAL + Self::SPECIAL
        } else if f.leaves {
            self.byte % Self::SPECIAL
        } else {
            self.byte
        };
        Mark { byte }
    }
}
