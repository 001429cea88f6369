// Reads calls of the day file's writer from standard input until it ends: N, L, g, b; then the bytes of the list, how many of them
// follow, and the bytes that are lent, each in four bytes, low byte first; then those that follow. The rest of the list is 0. Prints a
// line for each: `write`, the answer, the size, and the figure of the bytes lent, which were 170 before the call. What to compare with,
// in the file `stdout`, comes from a simulator of other authorship.
#![tactic(auto)]

use cases::{image, input, line};
use machine::{Numbers, refusal};
use std::io::{self, ErrorKind, Read, Write};

// Reads a call, makes it and prints its line. An error where the input ends, within a record too, and where more is asked than there is.
fn next<R: Read, W: Write>(input: &mut R, output: &mut W) -> io::Result<()> {
    // made before the input is read: behind a `?` each is made twice
    let mut events = [0; 262144];
    let mut out = [170; 65536];
    let numbers = Numbers::from(input::read(input)?);
    let size = input::read_size(input)?;
    let given = input::read_size(input)?;
    let room = input::read_size(input)?;
    // what is asked is looked at before the list is read
    let events = events.get_mut(..size).ok_or(ErrorKind::InvalidData)?;
    let out = out.get_mut(..room).ok_or(ErrorKind::InvalidData)?;
    input::read_into(input, events, given)?;
    let written = day_writer::write_file(numbers, events, out);
    let answer = refusal::answered(&written);
    // Rust has no From between usize and u64
    let size = written.unwrap_or_default() as u64;
    let figure = image::digest_bytes(out);
    line::print_line(output, "write", &[answer.into(), size, figure.into()])
}

// A program has a main of its own.
fn main(rt: HostRuntime) {
    // stops at the first error, as where the input ends; a proved loop has to end, so the numbers end too, where no run gets to
    let _ = (0..u64::MAX).try_for_each(|_| next(&mut rt.stdin(), &mut rt.stdout()));
}
