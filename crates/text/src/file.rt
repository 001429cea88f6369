// The text of a day file: what the program `pads` prints for it.
ghost use Rattle.std.specs.Prelude.{◌≡◌, ◌*◌, ◌%◌, ◌≤◌, true, length, take, IfOk};
ghost use Rattle.machine.specs.Lists.{events_of, journal};
ghost use Rattle.machine.specs.Outcome.{as_written};
ghost use Rattle.machine.specs.Range.{in_range};
ghost use Rattle.text.specs.File.{file_text};
ghost use Rattle.text.specs.Lent.{given, lent_after};
ghost use Rattle.text.specs.Lines.{lines};

use crate::{lines, refusal};
use day_file::reader;
use machine::{Refusal, State};
use renaming::list;

// Runs events on a state in range, which stays a clause as in `operations`, and puts the lines of their journal.
fn events_text(state: &mut State, events: &[u8], out: &mut [u8]) -> Result<usize, Refusal>
    requires even { length events.now % 2 ≡ 0 }
    requires few { 2 * length events.now ≤ 65536 }
    requires in_range { in_range state.old ≡ true }
    ensures value { as_written result ≡ given (lines (journal state.old (events_of events.now))) out.old }
    ensures buffer { out.new ≡ lent_after (lines (journal state.old (events_of events.now))) out.old }
{
    let mut journal = [0; 65536];
    list::run(state, events, &mut journal)?;
    lines::journal_text(&journal[..2 * events.len()], out)
}

// A line for each event, or `refused n` for a file that is refused; 13 when the buffer is shorter than the text. The last line of the
// contract follows from the others, and lets a caller take the text as a part of the buffer.
pub fn file_text(file: &[u8], out: &mut [u8]) -> Result<usize, Refusal>
    ensures value { as_written result ≡ given (file_text file.now) out.old }
    ensures buffer { out.new ≡ lent_after (file_text file.now) out.old }
    ensures size_in_bounds { IfOk result (λ size. (size ≤ length out.new) × (size ≡ length (take size out.new))) }
{
    match reader::read_setup(file) {
        Ok(mut state) => events_text(&mut state, reader::read_events(file), out),
        Err(why) => refusal::refused_text(why, out),
    }
}
