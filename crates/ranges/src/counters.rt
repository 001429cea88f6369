// The counters of a state: each at most its fresh value. `as` stands where a number is narrowed: the check proves that nothing is cut, and
// `try_from` would add a case that cannot happen.
ghost use Rattle.std.specs.Prelude.{◌≡◌, ◌+◌, ◌^◌, ◌<◌, ◌≤◌};
ghost use Rattle.machine.specs.Below.{all_below};
ghost use Rattle.fresh.specs.Counts.{closed_in};
ghost use Rattle.ranges.specs.Tests.{node_test};

use fresh::accepted::Accepted;
use fresh::closed;

// How many bits each number of four bits has.
const ONES: [u8; 16] = [0, 1, 1, 2, 1, 2, 2, 3, 1, 2, 2, 3, 2, 3, 3, 4];

// How many of the lowest n bits of w are set. Of up to eight, four at a time are looked up: counted, an event call with 16 leaves took some
// 140 instructions more.
fn ones_of_lowest(w: u64, n: u8) -> u8
    requires { n ≤ 32 }
    ensures { result ≡ closed_in w 0 n }
{
    if n > 8 {
        return closed::closed_in(w, 0, n);
    }
    let low = closed::lowest(w, n) as usize;
    ONES[low % 16] + ONES[low / 16]
}

// The counters beside the setup that they are for.
#[derive(Drop)]
struct Counters<'a> {
    counters: &'a [u8; 16],
    accepted: Accepted,
}

impl Counters<'_> {
    // A counter of at most its fresh value; node 0 is none.
    fn one_in_range(&self, v: u8) -> bool
        requires { (v < 16) × (v < self.now.accepted.leaves) }
        ensures { result ≡ node_test self.now.accepted self.now.counters.now v }
    {
        v == 0 || self.counters[usize::from(v)] <= self.accepted.fresh_counter(v)
    }

    // The counters of the nodes below L, one by one. The bound 16 is for the compiler, which then knows each node's depth. By place: a
    // node's number says what its limit is.
    fn each_in_range(&self) -> bool
        ensures { result ≡ all_below self.now.accepted.leaves (node_test self.now.accepted self.now.counters.now) }
    {
        let leaves = self.accepted.setup().leaves;
        (0u8..16).all(|v| v >= leaves || self.one_in_range(v))
    }

    // The counter of node i of depth d. The names under the nodes of a level stand side by side, n under each left child and as many under
    // each right one.
    fn level_counter_in_range(&self, d: u8, i: u8) -> bool
        requires { (d < 4) × ((2 ^ d < self.now.accepted.leaves) × (i < 2 ^ d)) }
        ensures { result ≡ node_test self.now.accepted self.now.counters.now (2 ^ d + i) }
    {
        let closed = self.accepted.setup().closed;
        let v = (1u8 << d) + i;
        let n = self.accepted.names() >> (d + 1);
        let rest = closed >> (2 * i * n);
        self.counters[usize::from(v)] <= n - ones_of_lowest(rest, n)
    }

    // The counters of depth d.
    fn level_in_range(&self, d: u8) -> bool
        requires { (d < 4) × (2 ^ d < self.now.accepted.leaves) }
        ensures { result ≡ all_below (2 ^ d) (λ i. node_test self.now.accepted self.now.counters.now (2 ^ d + i)) }
    {
        (0..1u8 << d).all(|i| self.level_counter_in_range(d, i))
    }

    // The counters of the nodes below L, level by level.
    fn levels_in_range(&self) -> bool
        ensures { result ≡ all_below self.now.accepted.leaves (node_test self.now.accepted self.now.counters.now) }
    {
        let height = self.accepted.setup().leaves.ilog2() as u8;
        (0..height).all(|d| self.level_in_range(d))
    }
}

// The counters of the nodes below L. Two functions for speed alone (docs/PERFORMANCE.md, Closed names): with none closed a fresh value is
// one shift, and otherwise the names are counted level by level.
pub(crate) fn counters_in_range(counters: &[u8; 16], accepted: Accepted) -> bool
    ensures { result ≡ all_below accepted.leaves (node_test accepted counters.now) }
{
    let counters = Counters { counters, accepted };
    if accepted.setup().closed == 0 {
        counters.each_in_range()
    } else {
        counters.levels_in_range()
    }
}
