// The gate word and its queue: entering, waiting and leaving. For the operations, of which they are made part (`inline(always)`); a user
// calls those above them.
#![tactic(auto)]

ghost use Rattle.std.specs.Borrow.{Array, LendsIf, sem};
ghost use Rattle.std.specs.Prelude.{◌≡◌, ◌≤◌, ◌<◌, get_or, set, length, MatchOption};
ghost use Rattle.machine.specs.contracts.Process.{the_row};
ghost use Rattle.machine.specs.Gate.{enter, await, leave, in_queue, head_gone};
ghost use Rattle.machine.specs.Refusal.{answered};
ghost use Rattle.machine.specs.Room.{can_rise, enter_room, where_room};
ghost use Rattle.machine.specs.Stage.{remainder};
ghost use Rattle.machine.specs.State.{done, no_process, with_segment, with_stage};

use machine::{Process, Refusal, State, stage};

// The record of process p, where there is one: so nothing is asked of p. `get_mut` gives the same, and says nothing of what the slice
// ends as.
fn record_of(process: &mut [Process], p: u8) -> Option<&mut Process>
    ensures* writes_back { sem 𝓛 (LendsIf (Array the_row 0) the_row process.entry result (set process.old p) process.old) }
    ensures item { MatchOption result (length process.old ≤ p) (λ h. (p < length process.old) × (h.now ≡ get_or process.old p no_process)) }
{
    let p = usize::from(p);
    if p >= process.len() {
        return None;
    }
    Some(&mut process[p])
}

// Stage 1: past the gate, or to the queue's end.
#[tactic(auto, unfolding(machine::specs::Gate::enter, machine::specs::Gate::above0, machine::specs::Room::can_fall))]
#[inline(always)]
pub fn enter(s: &mut State, p: u8) -> Result<(), Refusal>
    ensures { done (answered result) s.new ≡ where_room (enter_room s.old) (enter s.old p) s.old }
{
    if s.gate > 0 {
        if let Some(h) = record_of(&mut s.process, p) {
            h.stage = stage::GETNAME;
        }
        s.gate -= 1;
        return Ok(());
    }
    if s.gate <= -64 || s.queued >= 64 {
        return Err(Refusal::BrokenState);
    }
    if let Some(h) = record_of(&mut s.process, p) {
        h.stage = stage::WAITING;
    }
    s.queue[usize::from(s.queued)] = p;
    s.queued += 1;
    s.gate -= 1;
    Ok(())
}

// Is the process in the queue? The search stops nowhere: where p stands in the queue no processor foresees, and a list
// with full queues took 14.2 ns for an event in place of 9.2 (docs/PERFORMANCE.md, Where the time goes).
fn is_queued(s: &State, p: u8) -> bool
    requires { s.now.queued ≤ 64 }
    ensures { result ≡ in_queue s.now p }
{
    let n = s.queued;
    s.queue[..usize::from(n)]
        .iter()
        .fold(false, |found, &x| found | (x == p))
}

// Stage 2: on to stage 3 once out of the queue.
#[tactic(auto, using(crate::proofs::Queue::await_is, crate::proofs::Queue::none_past_the_end))]
#[inline(always)]
pub fn wait(s: &mut State, p: u8)
    requires { s.old.queued ≤ 64 }
    ensures { s.new ≡ await s.old p }
{
    if is_queued(s, p) {
        return;
    }
    if let Some(h) = record_of(&mut s.process, p) {
        h.stage = stage::GETNAME;
    }
}

// The queue's head, if there is one, leaves, and the rest move up.
#[tactic(auto, using(crate::proofs::Queue::moved), unfolding(machine::specs::Gate::head_gone))]
fn advance(s: &mut State)
    ensures { s.new ≡ head_gone s.old }
{
    if s.queued > 0 {
        s.queue.copy_within(1.., 0);
        s.queue[63] = 0;
        s.queued -= 1;
    }
}

// Stage 5 at node 1: the queue's head, if there is one, leaves, and the gate word rises, to `open_names` at most. That these are at most 64
// is of one argument, and stays a clause.
#[tactic(auto, unfolding(machine::specs::Gate::leave, machine::specs::Gate::head_gone, machine::specs::Room::can_rise))]
#[inline(always)]
pub fn leave(s: &mut State, p: u8, open_names: u8) -> Result<(), Refusal>
    requires { open_names ≤ 64 }
    ensures { done (answered result) s.new ≡ where_room (can_rise open_names s.old.gate) (leave s.old p) s.old }
{
    if i16::from(s.gate) >= i16::from(open_names) {
        return Err(Refusal::BrokenState);
    }
    s.gate += 1;
    advance(s);
    if let Some(h) = record_of(&mut s.process, p) {
        h.stage = stage::REMAINDER;
        h.segment = 0;
    }
    Ok(())
}
