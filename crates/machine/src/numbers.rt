// The four numbers of a setup, and the setups that they give.
ghost use Rattle.std.specs.Prelude.{◌≡◌};
ghost use Rattle.machine.specs.Setup.{plain_of, closing_of};

use crate::Setup;

// Processes (document 01: handsets) N, leaves L, segments (rows) in a leaf g, bits in a segment b.
#[derive(Clone, Copy, Debug, Default, PartialEq, Eq)]
pub struct Numbers {
    pub processes: u8,
    pub leaves: u8,
    pub segments: u8,
    pub bits: u8,
}

impl Numbers {
    // The setup that closes the names whose bits are 1 in `closed` (document 02, e).
    pub fn closing(self, closed: u64) -> Setup
        ensures { result ≡ closing_of closed self }
    {
        Setup {
            processes: self.processes,
            leaves: self.leaves,
            segments: self.segments,
            bits: self.bits,
            closed,
        }
    }
}

// The setup of four numbers closes none.
impl From<Numbers> for Setup {
    ghost from_gives = { λ n c. c ≡ plain_of n };

    fn from(n: Numbers) -> Setup {
        n.closing(0)
    }
}

// Those of a setup, whatever it closes.
impl From<Setup> for Numbers {
    ghost from_gives = { λ c n. c ≡ closing_of c.closed n };

    fn from(setup: Setup) -> Numbers {
        Numbers {
            processes: setup.processes,
            leaves: setup.leaves,
            segments: setup.segments,
            bits: setup.bits,
        }
    }
}
