// Which names are closed (document 02, e: closed pads): the bits of one number of 64, read with no loop over names.
// That a number is at most 64, or below, stays a clause: it is of one argument, as a shift asks for it. Where `as` narrows, the
// check proves that no number is cut: TryFrom would add a case that cannot be.
ghost use Rattle.std.specs.Prelude.{◌≡◌, ◌*◌, ◌-◌, ◌/◌, ◌%◌, ◌^◌, ◌≤◌, ◌<◌, ltb};
ghost use Rattle.std.specs.Int.Count.{ones};
ghost use Rattle.machine.specs.Setup.{names, open_names};
ghost use Rattle.fresh.specs.Counts.{closed_in};

use machine::Setup;

// The lowest n bits of w.
pub fn lowest(w: u64, n: u8) -> u64
    requires { n < 64 }
    ensures { result ≡ w % 2 ^ n }
{
    w & ((1u64 << n) - 1)
}

// n bits of w, from bit `first` on.
pub(crate) fn part(w: u64, first: u8, n: u8) -> u64
    requires { (first < 64) × (n < 64) }
    ensures { result ≡ w / 2 ^ first % 2 ^ n }
{
    lowest(w >> first, n)
}

// Is no bit of w set from bit k on?
pub(crate) fn is_below(w: u64, k: u8) -> bool
    requires { k ≤ 64 }
    ensures { result ≡ ltb w (2 ^ k) }
{
    k >= 64 || w >> k == 0
}

// How many of n names from one on are closed, half of all at most. In 32 bits: counted in 64, an event took up to 53 instructions more.
pub fn closed_in(closed: u64, first: u8, n: u8) -> u8
    requires { (first < 64) × (n ≤ 32) }
    ensures { result ≡ closed_in closed first n }
{
    (part(closed, first, n) as u32).count_ones() as u8
}

// How many of a setup's k names are open, where none from k on is closed.
pub(crate) fn open_of(setup: Setup, k: u8) -> u8
    requires { (k ≡ names setup) × (k ≤ 64) × (setup.closed < 2 ^ k) }
    ensures { result ≡ open_names setup }
{
    k - setup.closed.count_ones() as u8
}
