// A state from 542 bytes, one for each number in the order of its fields and eight for the closed names, and the figure that shows a state
// or bytes on a line.
ghost use Rattle.std.specs.Prelude.{◌≡◌, ◌+◌, ◌≤◌, length, take, drop};
ghost use Rattle.machine.specs.Bytes.{process_bytes};
ghost use Rattle.cases.specs.Image.{state_of, digest_from, digest_of};

use machine::{Numbers, Process, State};
use std::array;

// The bytes of an image that are still to be taken.
#[derive(Drop)]
struct Rest<'a> {
    bytes: &'a [u8],
}

impl Rest<'_> {
    // Takes the next N bytes.
    fn take<const N: usize>(&mut self) -> [u8; N]
        requires { N ≤ length self.old.bytes.now }
        ensures taken { result ≡ take N self.old.bytes.now }
        ensures rest { self.new.bytes.now ≡ drop N self.old.bytes.now }
        ensures left { N + length self.new.bytes.now ≡ length self.old.bytes.now }
    {
        let (taken, rest) = self.bytes.split_first_chunk().unwrap();
        self.bytes = rest;
        *taken
    }
}

// The state of an image.
pub fn state_of(image: &[u8; 542]) -> State
    ensures { result ≡ state_of image.now }
{
    let mut rest = Rest { bytes: image };
    let numbers = Numbers::from(rest.take());
    let closed = u64::from_le_bytes(rest.take());
    let [gate, queued] = rest.take::<2>();
    let queue = rest.take();
    let counters = rest.take();
    let words = rest.take();
    let (processes, _) = rest.bytes.as_chunks();
    State {
        setup: numbers.closing(closed),
        gate: gate.cast_signed(),
        queued,
        queue,
        counters,
        words,
        process: array::from_fn(|p| Process::from(processes[p])),
    }
}

// The figure with bytes mixed in: each is added to 31 times the figure before it, modulo 65521.
fn mix(figure: u16, bytes: &[u8]) -> u16
    ensures { result ≡ digest_from figure bytes.now }
{
    // a remainder by 65521 is a u16, and Rust has no From that knows
    bytes.iter().fold(
        figure,
        |d, &byte| ((31 * u32::from(d) + u32::from(byte)) % 65521) as u16,
    )
}

// The figure for bytes.
pub fn digest_bytes(bytes: &[u8]) -> u16
    ensures { result ≡ digest_from 0 bytes.now }
{
    mix(0, bytes)
}

// The figure with a process mixed in.
fn mix_process(figure: u16, h: &Process) -> u16
    ensures { result ≡ digest_from figure (process_bytes h.now) }
{
    mix(figure, &<[u8; 6]>::from(*h))
}

// The figure for a state.
pub fn digest(state: &State) -> u16
    ensures { result ≡ digest_of state.now }
{
    let setup = state.setup;
    let figure = mix(0, &<[u8; 4]>::from(Numbers::from(setup)));
    let figure = mix(figure, &setup.closed.to_le_bytes());
    let figure = mix(figure, &[state.gate.cast_unsigned(), state.queued]);
    let figure = mix(figure, &state.queue);
    let figure = mix(figure, &state.counters);
    let figure = mix(figure, &state.words);
    state.process.iter().fold(figure, mix_process)
}
