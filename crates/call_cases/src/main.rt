// Reads records from standard input until it ends, each a state and a call on it, makes the calls, and prints a line for
// each: what the call answered, and what it left in the state and in the journal. The lines to compare with, in the file
// `stdout`, come from a simulator of other authorship.
#![tactic(auto)]

mod calls;

// A program has a main of its own.
fn main(rt: HostRuntime) {
    // stops at the first error, as where the input ends; a proved loop has to end, so the numbers end too, where no run gets to
    let _ = (0..u64::MAX).try_for_each(|_| calls::next(&mut rt.stdin(), &mut rt.stdout()));
}
