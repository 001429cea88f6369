// Reads a day file from standard input and prints a line for each event (answer, stage, pad, figure), or only `refused n`.
#![tactic(auto)]

use std::env::{Env, FillError};
use text::file;

// Standard input, for the kit's call, which takes a descriptor and fills one buffer up to the input's end.
const STDIN: i32 = 0;

// Says a line where no output of the program is read.
fn complain(rt: &impl Eprint, line: &str) {
    let _ = rt.eprintln(line);
}

// The text of the file on standard input.
fn print_text(rt: &(impl Print + Eprint)) {
    // one byte more than a file may have, so that a longer one shows
    let mut input = [0; 32769];
    let n = io::read_full(STDIN, &mut input);
    // 16,370 events take at most 16 bytes each
    let mut out = [0; 262144];
    let Ok(size) = file::file_text(&input[..n], &mut out) else {
        return;
    };
    if rt.write_all(&out[..size]).is_err() {
        complain(rt, "pads: cannot write");
    }
}

// Whether there is an argument behind the program's name, of whatever bytes and length.
fn has_argument(env: &impl Env) -> bool {
    !matches!(env.arg(1, &mut [0]), Err(FillError::NotPresent))
}

fn main(rt: HostRuntime) {
    if has_argument(&rt) {
        complain(&rt, "usage: pads < FILE");
    } else {
        print_text(&rt);
    }
}
