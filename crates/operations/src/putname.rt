// Stage 5: one putname step above the gate gives back a bit or a counter, which counts as a return operation. Why what is told of the
// process stays a clause is said in `lib.rt`.
ghost use Rattle.std.specs.Prelude.{◌≡◌, ◌≢◌, ◌<◌};
ghost use Rattle.machine.specs.Putname.{returned, give_back, climb};
ghost use Rattle.machine.specs.Refusal.{answered};
ghost use Rattle.machine.specs.Room.{has_room, climb_room, where_room};
ghost use Rattle.machine.specs.State.{done, none, figure, process_at};
ghost use Rattle.operations.specs.Setting.{Setting};

use crate::place::Place;
use crate::words;
use fresh::accepted::Accepted;
use machine::{NO_NAME, Process, Refusal, State};

// One return operation more.
fn returned(h: Process) -> Process
    requires { figure h < 255 }
    ensures { result ≡ returned h }
{
    Process {
        returns: h.returns + 1,
        ..h
    }
}

// With a name: its bit is cleared.
#[tactic(auto, unfolding(machine::specs::Putname::give_back))]
#[inline(always)]
pub fn give_back(s: &mut State, p: Place) -> Result<(), Refusal>
    requires told { Setting s.old.setup (process_at s.old p) }
    requires named { (process_at s.old p).name ≢ none }
    ensures { done (answered result) s.new ≡ where_room (has_room (process_at s.old p)) (give_back s.old p) s.old }
{
    let mut h = p.roomy(s)?;
    let word = h.name / s.setup.bits;
    words::clr_bit(&mut s.words[usize::from(word)], h.name % s.setup.bits);
    h.name = NO_NAME;
    s.process[p.index()] = returned(h);
    Ok(())
}

// With no name, above node 1: up to the parent, whose counter rises from a left child.
#[tactic(auto, unfolding(machine::specs::Putname::climb))]
#[inline(always)]
pub fn climb(s: &mut State, p: Place) -> Result<(), Refusal>
    requires told { Setting s.old.setup (process_at s.old p) }
    requires above { 1 < (process_at s.old p).node }
    ensures { done (answered result) s.new ≡ where_room (climb_room s.old p) (climb s.old p) s.old }
{
    let mut h = s.process[p.index()];
    let parent = h.node / 2;
    if h.node % 2 == 0 {
        let counter = s.counters[usize::from(parent)];
        if counter >= Accepted::of(s.setup).fresh_counter(parent) {
            return Err(Refusal::BrokenState);
        }
        h = returned(p.roomy(s)?);
        s.counters[usize::from(parent)] = counter + 1;
    }
    h.node = parent;
    s.process[p.index()] = h;
    Ok(())
}
