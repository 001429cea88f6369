// The status records (document 01: roll), for C.
ghost use Rattle.std.specs.Prelude.{◌≡◌};
ghost use Rattle.machine.specs.Reports.{status_answer, status_records};

use machine::refusal::answered;
use machine::{State, Status};
use status::fill;

#[unsafe(no_mangle)]
pub extern "C" fn zevgorim_fill_status(state: State, records: &mut [Status]) -> u8
    ensures answer { result ≡ status_answer state records.old }
    ensures filled { records.new ≡ status_records state records.old }
{
    answered(&fill::fill_status(&state, records))
}
