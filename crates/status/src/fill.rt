// The status records, filled.
ghost use Rattle.std.specs.Prelude.{◌≡◌};
ghost use Rattle.machine.specs.Refusal.{answered};
ghost use Rattle.machine.specs.Reports.{status_answer, status_records};

use machine::{Refusal, State, Status};
use ranges::range;

// Fills lent records, one for each process in rising order. Refused with 15 for the state, then 13 where the records are fewer than the
// processes: nothing is written. The records from N on are untouched.
#[tactic(auto, unfolding(machine::specs::Reports::status_answer, machine::specs::Reports::status_records))]
pub fn fill_status(state: &State, records: &mut [Status]) -> Result<(), Refusal>
    ensures answer { answered result ≡ status_answer state.now records.old }
    ensures filled { records.new ≡ status_records state.now records.old }
{
    range::check(state)?;
    let n = usize::from(state.setup.processes);
    if records.len() < n {
        return Err(Refusal::Short);
    }
    // The process by index: after `zip` on `iter_mut` no proof knows what a slice holds.
    let lent = &mut records[..n];
    for (i, record) in lent.iter_mut().enumerate() {
        let h = state.process[i];
        *record = Status {
            stage: h.stage,
            name: h.name,
            figure: h.figure(),
        };
    }
    Ok(())
}
