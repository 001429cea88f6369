// Reads calls of the dearest list from standard input until it ends: N, L, g, b, then the bytes that are lent in four bytes, low byte
// first. Makes each call, runs the list that it made from the setup's own state, and prints a line: `dearest`, the answer, the figure, the
// claim figure of the dearest holder after the run, and what is amiss. What to compare with, in the file `stdout`, comes from a simulator
// of other authorship.
#![tactic(auto)]

use cases::{input, line};
use machine::{Dearest, Numbers, Refusal, State, refusal, stage};
use renaming::{list, setup};
use std::io::{self, ErrorKind, Read, Write};

// The byte that lent buffers are filled with.
const LENT: u8 = 170;

// What a call's list did: the claim figure of the dearest holder after it, and whether something is amiss. Both are printed.
struct Outcome {
    holder: u8,
    is_amiss: bool,
}

// The largest claim figure of a process that holds a name; 0 if none does.
fn dearest_holder(state: &State) -> u8 {
    state
        .process
        .iter()
        .filter(|h| h.stage == stage::WORKING)
        .map(|h| h.steps)
        .max()
        .unwrap_or(0)
}

// That of the state after a list from a setup's own state.
fn holder_after(numbers: Numbers, events: &[u8]) -> Result<u8, Refusal> {
    let mut state = setup::setup(numbers)?;
    let mut journal = [0; 8192];
    list::run(&mut state, events, &mut journal)?;
    Ok(dearest_holder(&state))
}

// Amiss are a size that is odd, above 4,096 or past what was lent, and a byte past the list that changed.
fn outcome_of(numbers: Numbers, size: usize, out: &[u8]) -> Outcome {
    let Some((events, rest)) = out.split_at_checked(size) else {
        return Outcome {
            holder: 0,
            is_amiss: true,
        };
    };
    Outcome {
        holder: holder_after(numbers, events).unwrap_or_default(),
        is_amiss: size % 2 != 0 || size > 4096 || rest.iter().any(|&byte| byte != LENT),
    }
}

// Reads a call, makes it and prints its line. An error where the input ends, within a record too, and where more is asked than there is.
fn next<R: Read, W: Write>(input: &mut R, output: &mut W) -> io::Result<()> {
    let numbers = Numbers::from(input::read(input)?);
    let room = input::read_size(input)?;
    let mut out = [LENT; 65536];
    let out = out.get_mut(..room).ok_or(ErrorKind::InvalidData)?;
    let made = dearest::dearest_list(numbers, out);
    let answer = refusal::answered(&made);
    let Dearest { figure, size } = made.unwrap_or_default();
    let Outcome { holder, is_amiss } = outcome_of(numbers, size, out);
    let shown = [answer, figure, holder, is_amiss.into()].map(u64::from);
    line::print_line(output, "dearest", &shown)
}

// A program has a main of its own.
fn main(rt: HostRuntime) {
    // stops at the first error, as where the input ends; a proved loop has to end, so the numbers end too, where no run gets to
    let _ = (0..u64::MAX).try_for_each(|_| next(&mut rt.stdin(), &mut rt.stdout()));
}
