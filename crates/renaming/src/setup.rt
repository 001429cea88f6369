// The setup: its numbers checked, and the state that it gives.
ghost use Rattle.std.specs.Prelude.{◌≡◌};
ghost use Rattle.machine.specs.Outcome.{as_done};
ghost use Rattle.machine.specs.Setup.{given_of, plain_of};
ghost use Rattle.machine.specs.State.{blank, setup as State·setup, partial_setup as State·partial_setup};

use fresh::accepted::Accepted;
use fresh::closing;
use machine::{Numbers, Refusal, Setup, State};

// A count that no setup's counters pass: at most nodes 1 to 15 carry one.
const EVERY: u64 = 15;

// The state of a setup that is accepted, with so many counters filled, from node l - 1 up to node 1, and the others 0.
#[tactic(auto, using(crate::proofs::Made::refused, crate::proofs::Made::accepted, machine::proofs::Facts::Refusals::number_pos))]
fn made(setup: Setup, count: u64) -> Result<State, Refusal>
    ensures { as_done blank result ≡ State·partial_setup setup count }
{
    let accepted = Accepted::try_from(setup)?;
    Ok(accepted.state(count))
}

// The setup's second form: the state of four numbers, which close none, with so many counters filled. Refused with 1 to 5.
pub fn partial_setup(numbers: Numbers, count: u64) -> Result<State, Refusal>
    ensures { as_done blank result ≡ State·partial_setup (plain_of numbers) count }
{
    made(numbers.into(), count)
}

// The fresh state of four numbers, which close none. Refused with 1 to 5.
#[tactic(auto, using(crate::proofs::Listed::every_counter))]
pub fn setup(numbers: Numbers) -> Result<State, Refusal>
    ensures { as_done blank result ≡ State·setup (plain_of numbers) }
{
    made(numbers.into(), EVERY)
}

// The fresh state of four numbers and a list of closed names, one byte each, in any order and with doubles. Refused with 1 to 5, with 19
// where a name is not below k, and with 20 where none stays open.
pub fn closed_setup(numbers: Numbers, closed: &[u8]) -> Result<State, Refusal>
    ensures { as_done blank result ≡ State·setup (given_of closed.now numbers) }
{
    let k = Accepted::try_from(Setup::from(numbers))?.names();
    if !closing::are_below(closed, k) {
        return Err(Refusal::ClosedName);
    }
    made(numbers.closing(closing::closed_of(closed, k)), EVERY)
}
