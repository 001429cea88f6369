// A process before its first request, and the blank state, with every number 0.
ghost use Rattle.std.specs.Prelude.{◌≡◌};
ghost use Rattle.machine.specs.State.{fresh_process, blank};

use machine::{NO_NAME, Process, State, stage};

// A process before its first request: at the root, with no name.
pub fn fresh_process() -> Process
    ensures { result ≡ fresh_process }
{
    Process {
        stage: stage::REMAINDER,
        node: 1,
        name: NO_NAME,
        ..Process::default()
    }
}

// The blank state, which a refused setup gives: document 01 names it.
#[tactic(auto, unfolding(machine::specs::State::blank))]
pub fn blank_state() -> State
    ensures { result ≡ blank }
{
    State::default()
}
