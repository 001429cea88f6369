// Whether each number of a state is in its range. `as` stands where a number is narrowed: the check proves that nothing is cut, and
// `try_from` would add a case that cannot happen.
ghost use Rattle.std.specs.Prelude.{◌≡◌, ◌*◌, ◌<◌, ◌≤◌, MatchResult, false, true, length};
ghost use Rattle.machine.specs.Below.{all_below};
ghost use Rattle.machine.specs.Check.{all_of};
ghost use Rattle.machine.specs.Range.{gate_in_range, place_test, word_test, closed_test, entry_tests, in_range};
ghost use Rattle.ranges.specs.Tests.{Greatest, packed, past_test};

use crate::{counters, processes};
use fresh::accepted::Accepted;
use machine::{Refusal, State};

// The gate word, -64 to k, the number of open names. That k is at most 64 is of one argument, and stays a clause.
fn gate_in_range(k: u8, a: i8) -> bool
    requires { k ≤ 64 }
    ensures { result ≡ gate_in_range k a }
{
    (-64..=k as i8).contains(&a)
}

// The greatest of numbers; 0 of none. A fold from 0: `max` takes the first number apart, so that three of 32 are compared one by one, and
// an event of light took some 25 instructions more, where an event call is near its bar (docs/PERFORMANCE.md).
fn greatest(xs: &[u8]) -> u8
    ensures { Greatest xs.now (length xs.now) result }
{
    xs.iter().fold(0, |top, &x| top.max(x))
}

// Are all the numbers from place m on 0? The fold stops nowhere, and `|` reads each number, whatever m is, so that the compiler takes many
// at once: with `||` an event took some 550 instructions more.
fn is_zero_from(xs: &[u8; 64], m: u8) -> bool
    ensures { result ≡ all_below 64 (past_test m xs.now) }
{
    xs.iter()
        .zip(0u8..64)
        .fold(true, |zero, (&x, i)| zero & ((i < m) | (x == 0)))
}

// The first m numbers of the queue are below n, the others 0, and so below n too: the greatest is looked for among all.
fn queue_in_range(queue: &[u8; 64], m: u8, n: u8) -> bool
    requires { 1 ≤ n }
    ensures { result ≡ all_below 64 (place_test n m queue.now) }
{
    greatest(queue) < n && is_zero_from(queue, m)
}

// The segment words in use, each of b bits.
fn words_in_range(words: &[u8; 64], accepted: Accepted) -> bool
    ensures { result ≡ all_below (accepted.leaves * accepted.segments) (word_test accepted words.now) }
{
    let setup = accepted.setup();
    let used = &words[..usize::from(setup.leaves * setup.segments)];
    u16::from(greatest(used)) < 1u16 << setup.bits
}

// The words side by side, each of so many bits, as one number: with the words in use, bit p is that of name p. The last is put first, so
// that each is one shift away from the next.
fn packed(words: &[u8], bits: u8) -> u64
    requires { bits ≤ 8 }
    ensures { result ≡ packed bits words.now }
{
    words
        .iter()
        .rev()
        .fold(0, |packed, &word| packed << bits | u64::from(word))
}

// The segment words in use, each of b bits, have no closed bit set. All are tested at once: word by word, an event call with 32 words took
// some 120 instructions more. Words and setup stay two arguments: a struct of both, for two functions, would be longer.
fn words_open(words: &[u8; 64], accepted: Accepted) -> bool
    requires { all_below (accepted.leaves * accepted.segments) (word_test accepted words.now) ≡ true }
    ensures { result ≡ all_below (accepted.leaves * accepted.segments) (closed_test accepted words.now) }
{
    let setup = accepted.setup();
    let used = &words[..usize::from(setup.leaves * setup.segments)];
    setup.closed == 0 || packed(used, setup.bits) & setup.closed == 0
}

// The gate word and its queue of 0 to 64.
fn entry_in_range(s: &State, accepted: Accepted) -> bool
    requires { accepted ≡ s.now.setup }
    ensures { result ≡ all_of (entry_tests s.now.setup s.now.gate s.now.queued s.now.queue) }
{
    let setup = accepted.setup();
    gate_in_range(accepted.open_names(), s.gate)
        && s.queued <= 64
        && queue_in_range(&s.queue, s.queued, setup.processes)
}

// Is every number of the state in its range?
#[tactic(auto, unfolding(machine::specs::Range::in_range))]
pub fn in_range(s: &State) -> bool
    ensures { result ≡ in_range s.now }
{
    let Ok(accepted) = Accepted::try_from(s.setup) else {
        return false;
    };
    entry_in_range(s, accepted)
        && counters::counters_in_range(&s.counters, accepted)
        && words_in_range(&s.words, accepted)
        && words_open(&s.words, accepted)
        && processes::processes_in_range(&s.process, accepted)
}

// Refuses a state that has a number out of its range.
pub fn check(s: &State) -> Result<(), Refusal>
    ensures { MatchResult result (λ _. in_range s.now ≡ true) (λ why. (why ≡ Refusal.BrokenState) × (in_range s.now ≡ false)) }
{
    if in_range(s) {
        Ok(())
    } else {
        Err(Refusal::BrokenState)
    }
}
