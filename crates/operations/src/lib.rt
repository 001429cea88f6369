// One event, done in place: its refusals in order, then what its kind and the process's stage say. For the crates above; a user calls
// those. What is told of a process, and that the state is in range, stays in clauses. A struct of the lent state, the place and that fact
// is refused by the borrow checker where it is taken by value and written through; by `&mut` `probe` was not proved, and each method owes,
// for a clause that goes, one that it still lends that state, and the fact of its new record. A copy of the process's numbers needs one
// that ties it to the state. All of it is made part of each call that carries out events (`inline(always)`): as one function that they
// share, an event of a list took 23 to 25 instructions more, of some 100.
#![tactic(auto)]

mod getname;
mod place;
mod putname;
pub mod words;

ghost use Rattle.std.specs.Prelude.{true, ◌≡◌, ◌<◌};
ghost use Rattle.machine.specs.Event.{request, step, release, event};
ghost use Rattle.machine.specs.Kind.{code};
ghost use Rattle.machine.specs.Range.{in_range};
ghost use Rattle.machine.specs.Refusal.{answered};
ghost use Rattle.machine.specs.State.{done};

use crate::place::Place;
use fresh::accepted::Accepted;
use fresh::state;
use machine::{Kind, NO_NAME, Process, Refusal, State, stage};

// Request (ask), only in the remainder section.
#[tactic(auto, unfolding(machine::specs::Event::request))]
fn request(s: &mut State, p: Place) -> Result<(), Refusal>
    ensures { done (answered result) s.new ≡ request s.old p }
{
    if s.process[p.index()].stage != stage::REMAINDER {
        return Err(Refusal::Busy);
    }
    s.process[p.index()] = Process {
        stage: stage::ENTRY,
        ..state::fresh_process()
    };
    Ok(())
}

// Step (turn), never in the remainder section or at work; the stage decides: document 01 wants the match over its number.
#[tactic(auto, using(crate::proofs::Turns::turns), unfolding(machine::specs::Getname::getname_step, machine::specs::Putname::putname_step))]
#[inline(always)]
fn step(s: &mut State, p: Place) -> Result<(), Refusal>
    requires range { in_range s.old ≡ true }
    requires known { p < s.old.setup.processes }
    ensures { done (answered result) s.new ≡ step s.old p }
{
    let h = s.process[p.index()];
    match h.stage {
        stage::REMAINDER | stage::WORKING => Err(Refusal::NotMoving),
        stage::ENTRY => gate::enter(s, p.number()),
        stage::WAITING => {
            gate::wait(s, p.number());
            Ok(())
        }
        stage::GETNAME if h.node < s.setup.leaves => getname::descend(s, p),
        stage::GETNAME => getname::probe(s, p),
        stage::PUTNAME if h.name != NO_NAME => putname::give_back(s, p),
        stage::PUTNAME if h.node > 1 => putname::climb(s, p),
        stage::PUTNAME => gate::leave(s, p.number(), Accepted::of(s.setup).open_names()),
        stage::EXHAUSTED => Ok(()),
        _ => Err(Refusal::BrokenState),
    }
}

// Release (finish), only at work.
#[tactic(auto, unfolding(machine::specs::Event::release))]
fn release(s: &mut State, p: Place) -> Result<(), Refusal>
    ensures { done (answered result) s.new ≡ release s.old p }
{
    if s.process[p.index()].stage != stage::WORKING {
        return Err(Refusal::NoNameHeld);
    }
    s.process[p.index()].stage = stage::PUTNAME;
    Ok(())
}

// An event of this kind: a stranger first, then the refusals of the kind.
#[tactic(auto, using(crate::proofs::Turns::turns), unfolding(machine::specs::Event::event))]
#[inline(always)]
pub fn carry_out(s: &mut State, kind: Kind, p: u8) -> Result<(), Refusal>
    requires { in_range s.old ≡ true }
    ensures { done (answered result) s.new ≡ event s.old (code kind) p }
{
    if p >= s.setup.processes {
        return Err(Refusal::Stranger);
    }
    let p = Place::of(p);
    match kind {
        Kind::Request => request(s, p),
        Kind::Step => step(s, p),
        Kind::Release => release(s, p),
    }
}

// An event: an unknown kind is refused before all else.
#[tactic(auto, unfolding(machine::specs::Event::event))]
#[inline(always)]
pub fn event(s: &mut State, kind: u8, p: u8) -> Result<(), Refusal>
    requires { in_range s.old ≡ true }
    ensures { done (answered result) s.new ≡ event s.old kind p }
{
    carry_out(s, Kind::try_from(kind)?, p)
}
