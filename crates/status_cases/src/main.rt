// Reads records from standard input until it ends, each a state, a list of events and how many status records are lent, 0 to 80. Runs the
// list, fills the records from the state after it, and prints a line for each: `roll`, the answer, and the three bytes of each record
// lent, which were 170 before the call. The lines to compare with, in the file `stdout`, come from a simulator of other authorship.
#![tactic(auto)]

mod records;

// A program has a main of its own.
fn main(rt: HostRuntime) {
    // stops at the first error, as where the input ends; a proved loop has to end, so the numbers end too, where no run gets to
    let _ = (0..u64::MAX).try_for_each(|_| records::next(&mut rt.stdin(), &mut rt.stdout()));
}
