// The dearest claim for a setup (document 02, d): a list of events in which one process's claim costs the most steps possible, written into
// a lent buffer.
#![tactic(auto)]

ghost use Rattle.std.specs.Prelude.{◌≡◌, [], ◌∷◌, suc, ◌+◌, ◌*◌, ◌≤◌, length, replicate, IfOk};
ghost use Rattle.lent.specs.Text.{Appends};
ghost use Rattle.machine.specs.Kind.{code, request, step};
ghost use Rattle.machine.specs.Lists.{event_of, list_bytes};
ghost use Rattle.machine.specs.Outcome.{as_dearest};
ghost use Rattle.machine.specs.Refusal.{answered};
ghost use Rattle.machine.specs.Setup.{height, plain_of};
ghost use Rattle.dearest_claim.specs.Dearest.{tried, claims, dear, dearest_answer, dearest_list, dearest_buffer};

use fresh::accepted::Accepted;
use lent::Text;
use machine::{Dearest, Kind, Numbers, Refusal, Setup};

// The bytes that the lent buffer must have.
const ROOM: usize = 4096;

// The height of the tree, whose leaves are a power of 2: asked for twice. It fits a byte, and the check proves it.
fn height_of(setup: Accepted) -> u8
    ensures { result ≡ height setup.leaves }
{
    setup.setup().leaves.trailing_zeros() as u8
}

// How many segments the dearest claim tries: the smaller of g and 1 + (n - 1) / b. By a name of its own, as in the definitions.
fn tried_of(setup: Accepted) -> u8
    ensures { result ≡ tried setup }
{
    let setup = setup.setup();
    setup.segments.min(1 + (setup.processes - 1) / setup.bits)
}

// Puts an event.
#[tactic(auto, unfolding(machine::specs::Lists::list_bytes))]
fn put_event(text: &mut Text, kind: Kind, p: u8)
    requires { text.old.size + 2 ≤ length text.old.buffer.now }
    ensures { Appends text.old text.new (list_bytes (event_of (code kind) p ∷ [])) }
{
    text.put(&[kind.into(), p]);
}

// Puts the claim of a process: its request, and so many steps.
fn put_claim(text: &mut Text, p: u8, steps: u8)
    requires { text.old.size + 2 * suc steps ≤ length text.old.buffer.now }
    ensures { Appends text.old text.new
        (list_bytes (event_of request p ∷ replicate steps (event_of step p))) }
{
    put_event(text, Kind::Request, p);
    for _ in 0..steps {
        put_event(text, Kind::Step, p);
    }
}

// Puts the claims of the first processes.
fn put_claims(text: &mut Text, setup: Accepted, count: u8)
    requires { (count ≤ suc (dear setup)) × (text.old.size + 4096 ≤ length text.old.buffer.now) }
    ensures { Appends text.old text.new (list_bytes (claims setup count)) }
{
    let h = height_of(setup);
    let bits = setup.setup().bits;
    for p in 0..count {
        let steps = h + 2 + p / bits;
        put_claim(text, p, steps);
    }
}

// The setup, where it is accepted and the buffer has so many bytes: 1 to 5, then 18.
#[tactic(auto, unfolding(dearest_claim::specs::Dearest::dearest_answer))]
fn checked(numbers: Numbers, room: usize) -> Result<Accepted, Refusal>
    ensures answer { answered result ≡ dearest_answer (plain_of numbers) room }
    ensures setup { IfOk result (λ setup. setup ≡ plain_of numbers) }
{
    let setup = Accepted::try_from(Setup::from(numbers))?;
    if room < ROOM {
        return Err(Refusal::SmallBuffer);
    }
    Ok(setup)
}

// The list at the start of the buffer, with its figure, for a setup of four numbers, which closes none. Refused with 1 to 5, then 18 when
// the buffer is under 4,096 bytes: nothing is written.
pub fn dearest_list(numbers: Numbers, out: &mut [u8]) -> Result<Dearest, Refusal>
    ensures list { as_dearest result ≡ dearest_list (plain_of numbers) out.old }
    ensures buffer { out.new ≡ dearest_buffer (plain_of numbers) out.old }
{
    let room = out.len();
    let setup = checked(numbers, room)?;
    let segments = tried_of(setup);
    let mut text = Text::new(out);
    put_claims(&mut text, setup, (segments - 1) * numbers.bits + 1);
    Ok(Dearest {
        figure: height_of(setup) + segments,
        size: text.size,
    })
}
