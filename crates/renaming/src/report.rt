// The gate report.
ghost use Rattle.std.specs.Prelude.{◌≡◌};
ghost use Rattle.machine.specs.Outcome.{as_report};
ghost use Rattle.machine.specs.Reports.{positive_part, gate_report};

use machine::{GateReport, Refusal, State};
use ranges::range;

// A number from -64 to 64, or 0 when it is negative: one call of the library, made twice.
#[tactic(auto, unfolding(machine::specs::Reports::positive_part))]
fn positive_part(a: i8) -> u8
    ensures { result ≡ positive_part a }
{
    u8::try_from(a).unwrap_or(0)
}

// Names still free at the gate, and processes queued there; 15 for the state.
#[tactic(auto, unfolding(machine::specs::Reports::gate_report))]
pub fn gate_report(state: &State) -> Result<GateReport, Refusal>
    ensures { as_report result ≡ gate_report state.now }
{
    range::check(state)?;
    Ok(GateReport {
        free: positive_part(state.gate),
        queued: positive_part(-state.gate),
    })
}
