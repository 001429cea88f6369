// The limits of a setup's numbers, in the order of their refusals. Where `as` narrows, the check proves that no number is cut: TryFrom
// would add a case that cannot be.
ghost use Rattle.std.specs.Prelude.{◌≡◌, ◌≤◌, IfOk};
ghost use Rattle.machine.specs.Check.{checked};
ghost use Rattle.machine.specs.Refusal.{answered};
ghost use Rattle.machine.specs.Setup.{names, closed_checks, number_answer, setup_answer};

use crate::closed;
use machine::{Refusal, Setup};

const MOST_NAMES: u16 = 64;

// L·g·b, which may pass 64. In 16 bits: of a product in 8 that is None the test of 64 would be two more calls.
fn product(setup: Setup) -> u16
    requires { (setup.leaves ≤ 16) × ((setup.segments ≤ 8) × (setup.bits ≤ 8)) }
    ensures { result ≡ names setup }
{
    u16::from(setup.leaves) * u16::from(setup.segments) * u16::from(setup.bits)
}

// The names k of a setup whose four numbers are within their limits.
#[tactic(auto, unfolding(machine::specs::Setup::number_answer, machine::specs::Setup::is_leaves))]
fn names_of(setup: Setup) -> Result<u8, Refusal>
    ensures answer { answered result ≡ number_answer setup }
    ensures value { IfOk result (λ k. (k ≡ names setup) × (k ≤ 64)) }
{
    if !(1..=64).contains(&setup.processes) {
        return Err(Refusal::Processes);
    }
    if !matches!(setup.leaves, 1 | 2 | 4 | 8 | 16) {
        return Err(Refusal::Leaves);
    }
    if !(1..=8).contains(&setup.segments) {
        return Err(Refusal::Segments);
    }
    if !(1..=8).contains(&setup.bits) {
        return Err(Refusal::Bits);
    }
    let k = product(setup);
    if k > MOST_NAMES {
        return Err(Refusal::Names);
    }
    Ok(k as u8)
}

// Refuses a setup that is outside a limit: its four numbers, then a closed name that is not below k, then no open name.
pub(crate) fn check(setup: Setup) -> Result<(), Refusal>
    ensures { answered result ≡ setup_answer setup }
{
    let k = names_of(setup)?;
    if !closed::is_below(setup.closed, k) {
        return Err(Refusal::ClosedName);
    }
    if closed::open_of(setup, k) == 0 {
        return Err(Refusal::NoneOpen);
    }
    Ok(())
}
