// A list of events, two bytes each, with its journal.
ghost use Rattle.std.specs.Prelude.{◌≡◌};
ghost use Rattle.machine.specs.Lists;
ghost use Rattle.machine.specs.Refusal.{answered};
ghost use Rattle.machine.specs.State.{done};

use machine::{Refusal, State};
use ranges::range;

// 14 for an odd list, 13 for a journal that is too short, 15 for the state; otherwise every event is carried out and has its entry.
#[tactic(auto, unfolding(machine::specs::Lists::run, machine::specs::Lists::run_journal))]
pub fn run(state: &mut State, events: &[u8], journal: &mut [u8]) -> Result<(), Refusal>
    ensures state { done (answered result) state.new ≡ Lists.run state.old events.now journal.old }
    ensures journal { journal.new ≡ Lists.run_journal state.old events.now journal.old }
{
    if events.len() % 2 != 0 {
        return Err(Refusal::Odd);
    }
    if journal.len() < 4 * (events.len() / 2) {
        return Err(Refusal::Short);
    }
    range::check(state)?;
    runner::run(state, events, journal);
    Ok(())
}
