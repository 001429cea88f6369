// What an accepted setup gives: its names, its closed names word by word, a counter's fresh value, and its state. Where `as` narrows, the
// check proves that no number is cut: TryFrom would add a case that cannot be.
ghost use Rattle.std.specs.Prelude.{◌≡◌, ◌+◌, ◌*◌, ◌<◌};
ghost use Rattle.machine.specs.Below.{tabulate};
ghost use Rattle.machine.specs.Closed.{closed_word};
ghost use Rattle.machine.specs.Setup.{names, open_names, setup_answer};
ghost use Rattle.machine.specs.State.{depth, fresh_counter, fresh_process_at, partial_counter_at, partial};

use crate::{closed, limits, state};
use machine::{Process, Refusal, Setup, State};
use std::marker::Model;

// A setup that passed its checks, on which each method may rest: its values keep that, and `of` asks for it.
#[derive(Clone, Copy)]
pub struct Accepted {
    setup: Setup,
}

impl Model for Accepted {
    ghost use Rattle.std.specs.Prelude.{◌≡◌};
    ghost use Rattle.machine.specs.Setup.{setup_answer};
    ghost use Rattle.machine.specs.declared.Setup.{Setup as SetupRecord};

    ghost Value = { SetupRecord };

    ghost view = { λ a. a.setup };

    ghost invariant = { λ a. setup_answer a.setup ≡ 0 };

    ghost inverse = { λ c. record { setup = c } };
}

impl TryFrom<Setup> for Accepted {
    ghost use Rattle.fresh.specs.Accepted.{Accepts};

    type Error = Refusal;

    ghost try_from_gives = { Accepts };

    fn try_from(setup: Setup) -> Result<Accepted, Refusal> {
        limits::check(setup)?;
        Ok(Accepted { setup })
    }
}

impl Accepted {
    // For a setup that is known to pass the checks, as that of a state in range: TryFrom would check it again.
    pub fn of(setup: Setup) -> Accepted
        requires { setup_answer setup ≡ 0 }
        ensures { result ≡ setup }
    {
        Accepted { setup }
    }

    // The setup, which has passed its checks.
    pub fn setup(self) -> Setup
        ensures value { result ≡ self }
        ensures accepted { setup_answer result ≡ 0 }
    {
        self.setup
    }

    // The names k = L·g·b.
    pub fn names(self) -> u8
        ensures { result ≡ names self }
    {
        let setup = self.setup;
        setup.leaves * setup.segments * setup.bits
    }

    // The open ones of them.
    pub fn open_names(self) -> u8
        ensures { result ≡ open_names self }
    {
        let setup = self.setup;
        let k = self.names();
        let all_open = setup.closed == 0;
        if all_open {
            return k;
        }
        closed::open_of(setup, k)
    }

    // The closed bits of segment word r.
    pub fn closed_word(self, r: u8) -> u8
        requires { r < self.leaves * self.segments }
        ensures { result ≡ closed_word self r }
    {
        let setup = self.setup;
        closed::part(setup.closed, r * setup.bits, setup.bits) as u8
    }

    // The fresh value of node v's counter: the open names under its left child, of which there are k / 2^d names, d one
    // more than the node's depth.
    pub fn fresh_counter(self, v: u8) -> u8
        requires { (0 < v) × (v < self.leaves) }
        ensures { result ≡ fresh_counter self v }
    {
        let closed = self.setup.closed;
        let d = level(v);
        let n = self.names() >> d;
        let all_open = closed == 0;
        if all_open {
            return n;
        }
        let before = 2 * v - (1u8 << d);
        n - closed::closed_in(closed, before * n, n)
    }

    // The counters of so many nodes, from node l - 1 up to node 1, with 0 at every other place.
    fn counters(self, count: u64) -> [u8; 16]
        ensures { result ≡ tabulate 16 (partial_counter_at self count) }
    {
        let leaves = self.setup.leaves;
        let every = leaves - 1;
        let filled = count.min(every.into()) as u8;
        let first = leaves - filled;
        let mut counters = [0; 16];
        for v in (first..leaves).rev() {
            counters[usize::from(v)] = self.fresh_counter(v);
        }
        counters
    }

    // The processes in use fresh, with an unused place at each of the others.
    fn processes(self) -> [Process; 64]
        ensures { result ≡ tabulate 64 (fresh_process_at self) }
    {
        let mut process = [Process::default(); 64];
        for p in 0..self.setup.processes {
            process[usize::from(p)] = state::fresh_process();
        }
        process
    }

    // The fresh state with so many of its counters: segment words, then counters.
    pub fn state(self, count: u64) -> State
        ensures { result ≡ partial self count }
    {
        State {
            setup: self.setup,
            gate: self.open_names() as i8,
            queued: 0,
            queue: [0; 64],
            words: [0; 64],
            counters: self.counters(count),
            process: self.processes(),
        }
    }
}

// One more than the depth of a node that may carry a counter. A byte, since a shift of a byte by a u32 casts it, and owes that it fits.
fn level(v: u8) -> u8
    requires { (0 < v) × (v < 16) }
    ensures { result ≡ depth v + 1 }
{
    v.ilog2() as u8 + 1
}
