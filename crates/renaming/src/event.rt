// One event: request (document 01: ask), step (turn), release (finish). A refused one leaves the state as it is.
ghost use Rattle.std.specs.Prelude.{◌≡◌};
ghost use Rattle.machine.specs.Event;
ghost use Rattle.machine.specs.Kind.{request as Kind·request, step as Kind·step, release as Kind·release};
ghost use Rattle.machine.specs.Refusal.{answered};
ghost use Rattle.machine.specs.State.{done};

use machine::{Kind, Refusal, State};
use ranges::range;

// Kind 0 requests, 1 steps, 2 releases. 15 for the state, 12 for the kind, 6 for the process, then what the event answers.
#[tactic(auto, unfolding(machine::specs::Event::event))]
pub fn event(state: &mut State, kind: u8, process: u8) -> Result<(), Refusal>
    ensures { done (answered result) state.new ≡ Event.event state.old kind process }
{
    range::check(state)?;
    operations::event(state, kind, process)
}

// The three events by name: three calls, since document 01 and C have a call for each.
#[tactic(auto, unfolding(machine::specs::Event::event))]
pub fn request(state: &mut State, process: u8) -> Result<(), Refusal>
    ensures { done (answered result) state.new ≡ Event.event state.old Kind·request process }
{
    range::check(state)?;
    operations::carry_out(state, Kind::Request, process)
}

#[tactic(auto, unfolding(machine::specs::Event::event))]
pub fn step(state: &mut State, process: u8) -> Result<(), Refusal>
    ensures { done (answered result) state.new ≡ Event.event state.old Kind·step process }
{
    range::check(state)?;
    operations::carry_out(state, Kind::Step, process)
}

#[tactic(auto, unfolding(machine::specs::Event::event))]
pub fn release(state: &mut State, process: u8) -> Result<(), Refusal>
    ensures { done (answered result) state.new ≡ Event.event state.old Kind·release process }
{
    range::check(state)?;
    operations::carry_out(state, Kind::Release, process)
}
