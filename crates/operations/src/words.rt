// The three atomic operations of 003, section 7.1, on one word. A number is narrowed by `as`: the check proves that it is not cut, and
// TryFrom would add a case that cannot happen.
ghost use Rattle.std.specs.Prelude.{◌≡◌, ◌<◌, ◌≤◌, IfSome};
ghost use Rattle.std.specs.Option.{unwrap_or};
ghost use Rattle.machine.specs.Operations.{first_zero, set_first_zero, clr_bit, bounded_decrement};

// The index of the lowest of so many bits that is neither set nor closed: the trailing zeros of the complement, as document 01 wants it,
// and not the trailing ones.
#[tactic(auto, using(crate::proofs::Bytes::first_zero_is))]
fn first_zero(word: u8, bits: u8, closed: u8) -> Option<u8>
    requires { bits ≤ 8 }
    ensures answer { unwrap_or result bits ≡ first_zero bits closed word }
    ensures below { IfSome result (λ i. i < bits) }
{
    let i = (!(word | closed)).trailing_zeros() as u8;
    (i < bits).then_some(i)
}

// The lowest clear bit that is not closed is set, and its index is the answer; if there is none, the word stays.
#[tactic(auto, using(crate::proofs::Bytes::or_first_zero), unfolding(machine::specs::Operations::set_first_zero))]
pub fn set_first_zero(word: &mut u8, bits: u8, closed: u8) -> Option<u8>
    requires { bits ≤ 8 }
    ensures answer { unwrap_or result bits ≡ (set_first_zero bits closed word.old).answer }
    ensures below { IfSome result (λ i. i < bits) }
    ensures word { word.new ≡ (set_first_zero bits closed word.old).word }
{
    let i = first_zero(*word, bits, closed)?;
    *word |= 1 << i;
    Some(i)
}

// Bit i becomes 0.
#[tactic(auto, using(crate::proofs::Bytes::and_not))]
pub fn clr_bit(word: &mut u8, i: u8)
    requires { i < 8 }
    ensures { word.new ≡ clr_bit word.old i }
{
    *word &= !(1 << i);
}

// Answers the old value and subtracts 1 unless it was 0.
#[tactic(auto, unfolding(machine::specs::Operations::bounded_decrement))]
pub fn bounded_decrement(counter: &mut u8) -> u8
    ensures { record { answer = result; word = counter.new } ≡ bounded_decrement counter.old }
{
    let old = *counter;
    *counter = old.saturating_sub(1);
    old
}
