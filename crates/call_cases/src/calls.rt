// One record of the input: a state's image, the call's number, and what the call is given besides. 0 is an event, with its
// kind and its process; 1 a list, with the events' length, the journal's length and the events; 2 the gate report; 3 the setup
// of the state's four numbers with a count, in eight bytes, low byte first; 4 the setup of these with a list of closed names, its
// length in two bytes, low byte first, and the list. Input and output stay two arguments: each is lent on by itself.
use cases::{image, input, line};
use fresh::state;
use machine::{GateReport, Numbers, Refusal, State, refusal};
use renaming::{event, list, report, setup};
use std::io::{self, ErrorKind, Read, Write};

// What a record calls.
#[derive(Clone, Copy)]
enum Call {
    Event,
    List,
    Report,
    Setup,
    Closed,
}

impl TryFrom<u8> for Call {
    ghost use Rattle.call_cases.specs.Call.{Decodes};

    type Error = io::Error;

    ghost try_from_gives = { Decodes };

    fn try_from(n: u8) -> io::Result<Call> {
        match n {
            0 => Ok(Call::Event),
            1 => Ok(Call::List),
            2 => Ok(Call::Report),
            3 => Ok(Call::Setup),
            4 => Ok(Call::Closed),
            _ => Err(ErrorKind::InvalidData.into()),
        }
    }
}

// What a call answered, and the digest of the state that it left.
fn print_state<W: Write, T>(
    output: &mut W,
    word: &str,
    outcome: &Result<T, Refusal>,
    state: &State,
) -> io::Result<()> {
    let answer = refusal::answered(outcome);
    line::print_line(output, word, &[answer.into(), image::digest(state).into()])
}

// An event.
fn event_call<R: Read, W: Write>(
    input: &mut R,
    output: &mut W,
    mut state: State,
) -> io::Result<()> {
    let [kind, process]: [u8; 2] = input::read(input)?;
    let done = event::event(&mut state, kind, process);
    print_state(output, "event", &done, &state)
}

// A list: the answer, the digest of the state that it left, and the journal. Journal bytes that the call leaves untouched show as 170.
fn list_call<R: Read, W: Write>(input: &mut R, output: &mut W, mut state: State) -> io::Result<()> {
    let [size, room]: [u8; 2] = input::read(input)?;
    let mut events = [0; 255];
    let events = input::read_into(input, &mut events, size.into())?;
    let mut journal = [170; 255];
    let journal = &mut journal[..usize::from(room)];
    let done = list::run(&mut state, events, journal);
    let answer = refusal::answered(&done);
    line::print_bytes(
        output,
        "list",
        &[answer.into(), image::digest(&state).into()],
        journal,
    )
}

// The gate report.
fn report_call<W: Write>(output: &mut W, state: &State) -> io::Result<()> {
    let report = report::gate_report(state);
    let answer = refusal::answered(&report);
    let GateReport { free, queued } = report.unwrap_or_default();
    let numbers = [answer, free, queued].map(u64::from);
    line::print_line(output, "report", &numbers)
}

// What a setup gives: the state, or the blank one where it is refused.
fn print_setup<W: Write>(
    output: &mut W,
    word: &str,
    made: &Result<State, Refusal>,
) -> io::Result<()> {
    let blank = state::blank_state();
    print_state(output, word, made, made.as_ref().unwrap_or(&blank))
}

// A setup with a count.
fn setup_call<R: Read, W: Write>(
    input: &mut R,
    output: &mut W,
    numbers: Numbers,
) -> io::Result<()> {
    let count = u64::from_le_bytes(input::read(input)?);
    print_setup(output, "setup", &setup::partial_setup(numbers, count))
}

// A setup with a list of closed names, of at most 600 bytes.
fn closed_call<R: Read, W: Write>(
    input: &mut R,
    output: &mut W,
    numbers: Numbers,
) -> io::Result<()> {
    let size = u16::from_le_bytes(input::read(input)?);
    let mut closed = [0; 600];
    let closed = input::read_into(input, &mut closed, size.into())?;
    print_setup(output, "closed", &setup::closed_setup(numbers, closed))
}

// Reads a record, makes its call and prints its line. An error where the input ends, within a record too, and where the number is no
// call's.
pub(crate) fn next<R: Read, W: Write>(input: &mut R, output: &mut W) -> io::Result<()> {
    let state = image::state_of(&input::read(input)?);
    let [call]: [u8; 1] = input::read(input)?;
    match Call::try_from(call)? {
        Call::Event => event_call(input, output, state),
        Call::List => list_call(input, output, state),
        Call::Report => report_call(output, &state),
        Call::Setup => setup_call(input, output, state.setup.into()),
        Call::Closed => closed_call(input, output, state.setup.into()),
    }
}
