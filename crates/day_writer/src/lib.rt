// The writer of a day file, into a lent buffer: the reader's layout the other way round.
#![tactic(auto)]

ghost use Rattle.std.specs.Prelude.{◌≡◌};
ghost use Rattle.machine.specs.Outcome.{as_written};
ghost use Rattle.machine.specs.Refusal.{answered};
ghost use Rattle.machine.specs.Setup.{plain_of};
ghost use Rattle.day_file.specs.Layout.{entry};
ghost use Rattle.day_file.specs.Writer.{entry_bytes, head_bytes, write_answer, write_file, write_buffer};

use day_file::layout::{HEAD_SIZE, LONGEST, TURN};
use fresh::accepted::Accepted;
use machine::{Numbers, Refusal, Setup};

// An entry of the contents: its kind, where its body begins, and the body's size. The reader compares numbers, as document 01 gives them;
// that the two agree is the theorem of `round_trip`.
fn entry(kind: u8, offset: u32, size: u32) -> [u8; 9]
    ensures { result ≡ entry_bytes (entry kind offset size) }
{
    let offset = offset.to_le_bytes();
    let size = size.to_le_bytes();
    [
        kind, offset[0], offset[1], offset[2], offset[3], size[0], size[1], size[2], size[3],
    ]
}

// What stands before so many bytes of events: the letters TURN and 2, the contents, and the setup's four numbers.
fn head(numbers: Numbers, size: u32) -> [u8; HEAD_SIZE]
    ensures { result ≡ head_bytes (plain_of numbers) size }
{
    let mut head = [0; HEAD_SIZE];
    head[..4].copy_from_slice(&TURN);
    head[4] = 2;
    head[5..14].copy_from_slice(&entry(1, 23, 4));
    head[14..23].copy_from_slice(&entry(2, 27, size));
    head[23..].copy_from_slice(&<[u8; 4]>::from(numbers));
    head
}

// Refused by the setup with 1 to 5, and by the bytes of the list and of the buffer.
fn check(numbers: Numbers, size: usize, room: usize) -> Result<(), Refusal>
    ensures { answered result ≡ write_answer (plain_of numbers) size room }
{
    Accepted::try_from(Setup::from(numbers))?;
    if size % 2 != 0 {
        return Err(Refusal::Odd);
    }
    if size > LONGEST - HEAD_SIZE {
        return Err(Refusal::TooLong);
    }
    if room < HEAD_SIZE + size {
        return Err(Refusal::NoRoom);
    }
    Ok(())
}

// The file of a setup's four numbers and its events, at the start of the buffer. Refused with 1 to 5, 14, 16 when the file would pass
// 32,768 bytes, 17 when the buffer is shorter than the file: nothing is written. Past its check a size is small, and `as` keeps it. Both
// parts have places that are known: by `lent::Text` it would be as long.
#[tactic(auto, using(crate::proofs::Writing::accepted))]
pub fn write_file(numbers: Numbers, events: &[u8], out: &mut [u8]) -> Result<usize, Refusal>
    ensures value { as_written result ≡ write_file (plain_of numbers) events.now out.old }
    ensures buffer { out.new ≡ write_buffer (plain_of numbers) events.now out.old }
{
    let size = events.len();
    check(numbers, size, out.len())?;
    out[0..HEAD_SIZE].copy_from_slice(&head(numbers, size as u32));
    out[HEAD_SIZE..HEAD_SIZE + size].copy_from_slice(events);
    Ok(HEAD_SIZE + size)
}
