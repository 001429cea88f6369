// The one runner: each event of a list is carried out on the state in place, and its entry written.
#![tactic(auto)]

mod journal;

ghost use Rattle.std.specs.Prelude.{◌≡◌, true, ◌*◌, ◌≤◌, length};
ghost use Rattle.machine.specs.Lists.{events_of, after, written};
ghost use Rattle.machine.specs.Range.{in_range};

use machine::State;

// The events of a list, on a state in range, which stays a clause as in `operations`. A byte left over is no event. An entry is stored by
// index, since of what a write through `as_chunks_mut` leaves its contract says nothing; `lent::Text` would count what the loop counts.
#[tactic(auto, using(crate::proofs::Going::finish))]
pub fn run(s: &mut State, events: &[u8], journal: &mut [u8])
    requires range { in_range s.old ≡ true }
    requires room { 2 * length events.now ≤ length journal.old }
    ensures state { s.new ≡ after s.old (events_of events.now) }
    ensures journal { journal.new ≡ written s.old events.now journal.old }
{
    let (pairs, _) = events.as_chunks::<2>();
    for (i, &[kind, p]) in pairs.iter().enumerate() {
        let answer = operations::event(s, kind, p);
        journal[4 * i..4 * i + 4].copy_from_slice(&journal::entry(answer, s, p));
    }
}
