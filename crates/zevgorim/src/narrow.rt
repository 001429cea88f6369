// C's 32-bit numbers, for calls that take bytes.
ghost use Rattle.std.specs.Prelude.{◌≡◌};
ghost use Rattle.zevgorim.specs.Narrow.{narrow, numbers_of};

use machine::Numbers;

// 255 stands for every larger number: as a number of a setup, as a kind and as a process it is refused as they are. By a
// name, which its definition has too.
#[tactic(auto, unfolding(crate::specs::Narrow::narrow))]
pub(crate) fn narrowed(x: u32) -> u8
    ensures { result ≡ narrow x }
{
    u8::try_from(x).unwrap_or(255)
}

// The four numbers of a setup.
pub(crate) fn numbers(n: u32, l: u32, g: u32, b: u32) -> Numbers
    ensures { result ≡ numbers_of n l g b }
{
    Numbers {
        processes: narrowed(n),
        leaves: narrowed(l),
        segments: narrowed(g),
        bits: narrowed(b),
    }
}
