// What C is given for the result of a call: a number for the answer, beside what the call gave. A refused call gives 0 for each figure.
ghost use Rattle.std.specs.Prelude.{◌≡◌};
ghost use Rattle.machine.specs.Outcome.{as_done, as_written, as_report, as_dearest};
ghost use Rattle.machine.specs.Refusal.{answered};
ghost use Rattle.machine.specs.State.{done};

use crate::refusal::answered;
use crate::{DearestList, Done, Refusal, Report, State, Written};

// The gate report: names still free at the gate (document 01: pads still open), and processes queued there.
#[derive(Clone, Copy, Debug, Default, PartialEq, Eq)]
pub struct GateReport {
    pub free: u8,
    pub queued: u8,
}

// The dearest claim's figure, and how many bytes its list takes.
#[derive(Clone, Copy, Debug, Default, PartialEq, Eq)]
pub struct Dearest {
    pub figure: u8,
    pub size: usize,
}

impl Done {
    // The state that a call gave, or the one that stands for it where the call is refused: given by whoever asks, so that it is not From.
    pub fn given(made: Result<State, Refusal>, otherwise: State) -> Done
        ensures { result ≡ as_done otherwise made }
    {
        Done {
            answer: answered(&made),
            state: made.unwrap_or(otherwise),
        }
    }

    // The state that a call left of the one that it was lent. Lent here too: by value it is copied once more.
    pub fn left(outcome: Result<(), Refusal>, state: &State) -> Done
        ensures { result ≡ done (answered outcome) state.now }
    {
        Done {
            answer: answered(&outcome),
            state: *state,
        }
    }
}

// C's records have fields of their own, so that each has its conversion.

impl From<Result<usize, Refusal>> for Written {
    ghost from_gives = { λ r w. w ≡ as_written r };

    fn from(written: Result<usize, Refusal>) -> Written {
        Written {
            answer: answered(&written),
            size: written.unwrap_or_default(),
        }
    }
}

impl From<Result<GateReport, Refusal>> for Report {
    ghost from_gives = { λ r o. o ≡ as_report r };

    fn from(report: Result<GateReport, Refusal>) -> Report {
        let answer = answered(&report);
        let GateReport { free, queued } = report.unwrap_or_default();
        Report {
            answer,
            free,
            queued,
        }
    }
}

impl From<Result<Dearest, Refusal>> for DearestList {
    ghost from_gives = { λ r o. o ≡ as_dearest r };

    fn from(list: Result<Dearest, Refusal>) -> DearestList {
        let answer = answered(&list);
        let Dearest { figure, size } = list.unwrap_or_default();
        DearestList {
            answer,
            figure,
            size,
        }
    }
}
