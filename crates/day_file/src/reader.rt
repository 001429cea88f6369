// The reader of a day file, in two calls: the setup's state, and the events as a part of the file.
ghost use Rattle.std.specs.Prelude.{◌≡◌};
ghost use Rattle.day_file.specs.Layout.{file_answer, read_setup, read_events, events_start, further, Bytes};
ghost use Rattle.machine.specs.Outcome.{as_done};
ghost use Rattle.machine.specs.Refusal.{answered};
ghost use Rattle.machine.specs.State.{blank};

use crate::layout;
use crate::layout::HEAD_SIZE;
use fresh::accepted::Accepted;
use machine::{Refusal, Setup, State};
use renaming::setup;

// Is the file a day file whose setup is accepted? Refused with 10, 11, then 1 to 5.
pub fn file_answer(file: &[u8]) -> Result<(), Refusal>
    ensures { answered result ≡ file_answer file.now }
{
    Accepted::try_from(Setup::from(layout::numbers_in(file)?))?;
    Ok(())
}

// The fresh state of the file's setup.
pub fn read_setup(file: &[u8]) -> Result<State, Refusal>
    ensures { as_done blank result ≡ read_setup file.now }
{
    setup::setup(layout::numbers_in(file)?)
}

// The events, the caller's own file from byte 27 on and no copy; of a refused file, an empty part of it: no Option, since document 01 wants
// that part, and C a place and a size. The clause `bytes` is what a slice's type says, for whoever knows the file as numbers.
#[tactic(auto, using(crate::proofs::Accepted::has_head, crate::proofs::Accepted::hands))]
pub fn read_events(file: &[u8]) -> &[u8]
    ensures value { result.now ≡ read_events file.now }
    ensures start { result.ref_ptr ≡ further (events_start file.now) file.entry.ref_ptr }
    ensures bytes { Bytes file.now }
{
    let refused = file_answer(file).is_err();
    if refused {
        return &file[0..0];
    }
    &file[HEAD_SIZE..]
}
