// The journal: four bytes for each event.
ghost use Rattle.std.specs.Prelude.{◌≡◌, ◌≤◌, ◌<◌, false};
ghost use Rattle.machine.specs.Lists.{shows_none, entry_bytes};
ghost use Rattle.machine.specs.Refusal.{answered};
ghost use Rattle.machine.specs.State.{process_at, figure};

use machine::{Refusal, State, refusal};

// What an entry has in the place of a process that it does not show: a byte of the journal, and so no Option.
const UNSHOWN: u8 = 255;

// An entry: the answer, then stage, name and figure of the process after the event, or 255s where none is shown.
pub(crate) fn entry(r: Result<(), Refusal>, s: &State, p: u8) -> [u8; 4]
    requires { shows_none (answered r) ≡ false → (p < 64) × (figure (process_at s.now p) ≤ 255) }
    ensures { result ≡ entry_bytes (answered r) (process_at s.now p) }
{
    let answer = refusal::answered(&r);
    if let Err(Refusal::Kind | Refusal::Stranger | Refusal::BrokenState) = r {
        return [answer, UNSHOWN, UNSHOWN, UNSHOWN];
    }
    let h = s.process[usize::from(p)];
    [answer, h.stage, h.name, h.figure()]
}
