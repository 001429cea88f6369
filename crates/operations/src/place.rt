// The place of a process in a state, below 64.
ghost use Rattle.std.specs.Prelude.{◌≡◌, ◌<◌, true, false, MatchResult};
ghost use Rattle.machine.specs.Room.{has_room};
ghost use Rattle.machine.specs.State.{process_at};

use machine::{Process, Refusal, State};
use std::marker::Model;

#[derive(Clone, Copy)]
pub(crate) struct Place {
    number: u8,
}

impl Model for Place {
    ghost use Rattle.std.specs.Prelude.{ℕ, ◌<◌};

    ghost Value = { ℕ };

    ghost view = { λ p. p.number };

    ghost invariant = { λ p. p.number < 64 };

    ghost inverse = { λ n. record { number = n } };
}

impl Place {
    // For a number that is known to be below 64, by a test or by the state's range: TryFrom would test it again.
    pub(crate) fn of(p: u8) -> Place
        requires { p < 64 }
        ensures { result ≡ p }
    {
        Place { number: p }
    }

    // The number, for the gate: the field, which is private for the invariant's sake.
    pub(crate) fn number(self) -> u8
        ensures { result ≡ self }
    {
        self.number
    }

    // The index of the process in the state's array.
    pub(crate) fn index(self) -> usize
        ensures number { result ≡ self }
        ensures place { result < 64 }
    {
        usize::from(self.number)
    }

    // The process there, where it has room for one more.
    pub(crate) fn roomy(self, s: &State) -> Result<Process, Refusal>
        ensures { MatchResult result
            (λ h. (h ≡ process_at s.now self) × (has_room h ≡ true))
            (λ why. (why ≡ Refusal.BrokenState) × (has_room (process_at s.now self) ≡ false)) }
    {
        let h = s.process[self.index()];
        if h.has_room() {
            Ok(h)
        } else {
            Err(Refusal::BrokenState)
        }
    }
}
