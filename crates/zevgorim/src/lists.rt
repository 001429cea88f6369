// The dearest claim's list, for C. The numbers come in 32 bits and are refused where they are too large: none is cut.
ghost use Rattle.std.specs.Prelude.{◌≡◌};
ghost use Rattle.machine.specs.Setup.{plain};
ghost use Rattle.dearest_claim.specs.Dearest.{dearest_list, dearest_buffer};

use crate::narrow::numbers;
use machine::DearestList;

#[unsafe(no_mangle)]
#[tactic(auto, using(crate::proofs::Narrowed::dearest_list_narrowed))]
pub extern "C" fn zevgorim_dearest_list(
    n: u32,
    l: u32,
    g: u32,
    b: u32,
    out: &mut [u8],
) -> DearestList
    ensures list { result ≡ dearest_list (plain n l g b) out.old }
    ensures buffer { out.new ≡ dearest_buffer (plain n l g b) out.old }
{
    dearest::dearest_list(numbers(n, l, g, b), out).into()
}
