// The day file and what the program prints for it, for C.
ghost use Rattle.std.specs.Prelude.{◌≡◌};
ghost use Rattle.machine.specs.Setup.{plain};
ghost use Rattle.day_file.specs.Layout.{file_answer, read_setup, read_events};
ghost use Rattle.day_file.specs.Writer.{write_file, write_buffer};
ghost use Rattle.text.specs.File.{file_text};
ghost use Rattle.text.specs.Lent.{given, lent_after};
ghost use Rattle.text.specs.Lines;
ghost use Rattle.zevgorim.specs.Part.{bytes_of, events_part};

use crate::Part;
use crate::narrow::numbers;
use day_file::layout::HEAD_SIZE;
use day_file::reader;
use fresh::state::blank_state;
use machine::refusal::answered;
use machine::{Done, Written};
use text::{file, lines};

#[unsafe(no_mangle)]
pub extern "C" fn zevgorim_file_answer(file: &[u8]) -> u8
    ensures { result ≡ file_answer file.now }
{
    answered(&reader::file_answer(file))
}

#[unsafe(no_mangle)]
pub extern "C" fn zevgorim_read_setup(file: &[u8]) -> Done
    ensures { result ≡ read_setup file.now }
{
    Done::given(reader::read_setup(file), blank_state())
}

// The events of a file, as a place and a size in it: the bytes there are those that `read_events` hands back.
#[unsafe(no_mangle)]
#[tactic(auto, using(day_file::proofs::Accepted::has_head, day_file::proofs::Accepted::hands), unfolding(crate::specs::Part::events_part))]
pub extern "C" fn zevgorim_read_events(file: &[u8]) -> Part
    ensures part { result ≡ events_part file.now }
    ensures bytes { bytes_of result file.now ≡ read_events file.now }
{
    if reader::file_answer(file).is_err() {
        return Part::default();
    }
    Part {
        offset: HEAD_SIZE,
        size: file.len() - HEAD_SIZE,
    }
}

// The numbers come in 32 bits and are refused where they are too large: none is cut.
#[unsafe(no_mangle)]
#[tactic(auto, using(crate::proofs::Narrowed::file_narrowed))]
pub extern "C" fn zevgorim_write_file(
    n: u32,
    l: u32,
    g: u32,
    b: u32,
    events: &[u8],
    out: &mut [u8],
) -> Written
    ensures written { result ≡ write_file (plain n l g b) events.now out.old }
    ensures buffer { out.new ≡ write_buffer (plain n l g b) events.now out.old }
{
    day_writer::write_file(numbers(n, l, g, b), events, out).into()
}

#[unsafe(no_mangle)]
pub extern "C" fn zevgorim_journal_text(journal: &[u8], out: &mut [u8]) -> Written
    ensures written { result ≡ given (Lines.lines journal.now) out.old }
    ensures buffer { out.new ≡ lent_after (Lines.lines journal.now) out.old }
{
    lines::journal_text(journal, out).into()
}

#[unsafe(no_mangle)]
pub extern "C" fn zevgorim_file_text(file: &[u8], out: &mut [u8]) -> Written
    ensures written { result ≡ given (file_text file.now) out.old }
    ensures buffer { out.new ≡ lent_after (file_text file.now) out.old }
{
    file::file_text(file, out).into()
}
