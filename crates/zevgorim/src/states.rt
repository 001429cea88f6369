// Setups, events, lists and the gate report, for C. A number of a setup or of an event comes in 32 bits and is refused where it is too
// large, and a count comes in 64: none is cut. A call each, since document 01 names each and C has no generic one.
ghost use Rattle.std.specs.Prelude.{◌≡◌};
ghost use Rattle.machine.specs.Event;
ghost use Rattle.machine.specs.Kind.{request as Kind·request, step as Kind·step, release as Kind·release};
ghost use Rattle.machine.specs.Lists;
ghost use Rattle.machine.specs.Reports;
ghost use Rattle.machine.specs.Setup.{given, plain};
ghost use Rattle.machine.specs.State.{setup as State·setup, partial_setup};

use crate::narrow::{narrowed, numbers};
use fresh::state::blank_state;
use machine::{Done, Report, State};
use renaming::{event, list, report, setup};

#[unsafe(no_mangle)]
#[tactic(auto, using(crate::proofs::Narrowed::setup_narrowed))]
pub extern "C" fn zevgorim_setup(n: u32, l: u32, g: u32, b: u32) -> Done
    ensures { result ≡ State·setup (plain n l g b) }
{
    Done::given(setup::setup(numbers(n, l, g, b)), blank_state())
}

#[unsafe(no_mangle)]
#[tactic(auto, using(crate::proofs::Narrowed::partial_narrowed))]
pub extern "C" fn zevgorim_partial_setup(n: u32, l: u32, g: u32, b: u32, count: u64) -> Done
    ensures { result ≡ partial_setup (plain n l g b) count }
{
    Done::given(
        setup::partial_setup(numbers(n, l, g, b), count),
        blank_state(),
    )
}

// The closed names are bytes already.
#[unsafe(no_mangle)]
#[tactic(auto, using(crate::proofs::Narrowed::setup_narrowed))]
pub extern "C" fn zevgorim_closed_setup(n: u32, l: u32, g: u32, b: u32, closed: &[u8]) -> Done
    ensures { result ≡ State·setup (given n l g b closed.now) }
{
    Done::given(
        setup::closed_setup(numbers(n, l, g, b), closed),
        blank_state(),
    )
}

#[unsafe(no_mangle)]
#[tactic(auto, using(crate::proofs::Narrowed::event_narrowed))]
pub extern "C" fn zevgorim_event(mut state: State, kind: u32, process: u32) -> Done
    ensures { result ≡ Event.event state kind process }
{
    Done::left(
        event::event(&mut state, narrowed(kind), narrowed(process)),
        &state,
    )
}

#[unsafe(no_mangle)]
#[tactic(auto, using(crate::proofs::Narrowed::process_narrowed))]
pub extern "C" fn zevgorim_request(mut state: State, process: u32) -> Done
    ensures { result ≡ Event.event state Kind·request process }
{
    Done::left(event::request(&mut state, narrowed(process)), &state)
}

#[unsafe(no_mangle)]
#[tactic(auto, using(crate::proofs::Narrowed::process_narrowed))]
pub extern "C" fn zevgorim_step(mut state: State, process: u32) -> Done
    ensures { result ≡ Event.event state Kind·step process }
{
    Done::left(event::step(&mut state, narrowed(process)), &state)
}

#[unsafe(no_mangle)]
#[tactic(auto, using(crate::proofs::Narrowed::process_narrowed))]
pub extern "C" fn zevgorim_release(mut state: State, process: u32) -> Done
    ensures { result ≡ Event.event state Kind·release process }
{
    Done::left(event::release(&mut state, narrowed(process)), &state)
}

#[unsafe(no_mangle)]
pub extern "C" fn zevgorim_run(mut state: State, events: &[u8], journal: &mut [u8]) -> Done
    ensures done { result ≡ Lists.run state events.now journal.old }
    ensures journal { journal.new ≡ Lists.run_journal state events.now journal.old }
{
    Done::left(list::run(&mut state, events, journal), &state)
}

#[unsafe(no_mangle)]
pub extern "C" fn zevgorim_gate_report(state: State) -> Report
    ensures { result ≡ Reports.gate_report state }
{
    report::gate_report(&state).into()
}
