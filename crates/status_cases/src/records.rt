// One record of the input, and its line.
use cases::{image, input, line};
use machine::{State, Status, refusal};
use renaming::list;
use status::fill;
use std::io::{self, ErrorKind, Read, Write};

// Runs the list that follows in the input.
fn run_next<R: Read>(input: &mut R, state: &mut State) -> io::Result<()> {
    let [size]: [u8; 1] = input::read(input)?;
    let mut events = [0; 255];
    let events = input::read_into(input, &mut events, size.into())?;
    let mut journal = [0; 512];
    // a refused list leaves the state as it is, and the line shows that
    let _ = list::run(state, events, &mut journal);
    Ok(())
}

// Reads a record, runs its list, fills the status records and prints its line. An error where the input ends, within a record too, and
// where more is to be lent than there is.
pub(crate) fn next<R: Read, W: Write>(input: &mut R, output: &mut W) -> io::Result<()> {
    let mut state = image::state_of(&input::read(input)?);
    run_next(input, &mut state)?;
    let [count]: [u8; 1] = input::read(input)?;
    let count = usize::from(count);
    let mut records = [Status {
        stage: 170,
        name: 170,
        figure: 170,
    }; 80];
    let lent = records.get_mut(..count).ok_or(ErrorKind::InvalidData)?;
    let filled = fill::fill_status(&state, lent);
    let bytes = records.map(|h| [h.stage, h.name, h.figure]);
    let shown = bytes.get(..count).ok_or(ErrorKind::InvalidData)?;
    let answer = refusal::answered(&filled);
    line::print_bytes(output, "roll", &[answer.into()], shown.as_flattened())
}
