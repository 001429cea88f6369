// A list of closed names (document 02, e: closed pads), one byte each, as one number.
ghost use Rattle.std.specs.Prelude.{true, ◌≡◌, ◌%◌, ◌≤◌};
ghost use Rattle.machine.specs.Closed.{closing, closed_by, lists_below};

// One name below 64 more is closed; one that is closed stays so.
#[tactic(auto, using(crate::proofs::Listed::or_closing))]
fn close(closed: u64, p: u8) -> u64
    ensures { result ≡ closing closed (p % 64) }
{
    closed | 1u64.wrapping_shl(p.into())
}

// Is every name of the list below k?
pub fn are_below(list: &[u8], k: u8) -> bool
    ensures { result ≡ lists_below k list.now }
{
    list.iter().all(|&p| p < k)
}

// The number whose bits are the names of a list of names below k. That k is at most 64 is of one argument, and stays a clause.
pub fn closed_of(list: &[u8], k: u8) -> u64
    requires { (k ≤ 64) × (lists_below k list.now ≡ true) }
    ensures { result ≡ closed_by 0 list.now }
{
    list.iter().fold(0, |closed, &p| close(closed, p))
}
