// Reads day files from standard input until it ends, each behind its length in four bytes, low byte first. Prints for each a line
// `case N`, and then what `pads` prints for it. What to compare with, in the file `stdout`, comes from a simulator of other
// authorship.
#![tactic(auto)]

use cases::{input, line};
use std::io::{self, ErrorKind, Read, Write};
use text::file;

// Reads a file, and prints its number and its text. An error where the input ends, within a file too.
fn next<R: Read, W: Write>(input: &mut R, output: &mut W, n: u64) -> io::Result<()> {
    let size = input::read_size(input)?;
    let mut bytes = [0; 65536];
    let file = input::read_into(input, &mut bytes, size)?;
    line::print_line(output, "case", &[n])?;
    let mut out = [0; 262144];
    let size = file::file_text(file, &mut out).map_err(|_| ErrorKind::InvalidData)?;
    output.write_all(&out[..size])
}

// A program has a main of its own.
fn main(rt: HostRuntime) {
    // stops at the first error, as where the input ends; a proved loop has to end, so the numbers end too, where no run gets to
    let _ = (0..u64::MAX).try_for_each(|n| next(&mut rt.stdin(), &mut rt.stdout(), n));
}
