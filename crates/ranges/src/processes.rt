// The processes of a state. The greatest of each number is kept, in a loop that stops nowhere, and the four of them are tested side by
// side, so that the compiler takes the four at once in the loop, too: an event with 64 processes took 1,510 instructions, 1,960 with a test
// of each process by `all`, and 2,610 with a comparison for each of the four.
ghost use Rattle.std.specs.Prelude.{◌≡◌, ℕ, ◌+◌, ◌-◌, ◌*◌, ◌%◌, ◌<◌, ◌≤◌, ◌&&◌, nat_le, nat_lt, length, get_or};
ghost use Rattle.machine.specs.Below.{all_below};
ghost use Rattle.machine.specs.Range.{process_test};
ghost use Rattle.machine.specs.Setup.{setup_answer};
ghost use Rattle.machine.specs.State.{no_process};
ghost use Rattle.machine.specs.declared.Setup.{Setup};
ghost use Rattle.ranges.specs.Tests.{byte_test, headroom, ranks_fit, ranked, name_limit, shut_test};

use fresh::accepted::Accepted;
use fresh::closed;
use machine::{Process, stage};

// A node less 1, and 255 for node 0.
fn node_rank(v: u8) -> u8
    ensures { (l : ℕ) → 1 ≤ l → l ≤ 16 → nat_le result (2 * l - 2) ≡ (nat_le 1 v && nat_lt v (2 * l)) }
{
    v.wrapping_sub(1)
}

// A name more 1, and 0 for none.
fn name_rank(m: u8) -> u8
    ensures { (result ≡ (m + 1) % 256) × (m ≤ 255) }
{
    m.wrapping_add(1)
}

// Is the sum of steps and returns a byte?
fn sum_fits(steps: u8, returns: u8) -> bool
    ensures { result ≡ nat_le (steps + returns) 255 }
{
    returns <= u8::MAX - steps
}

// One more than the greatest name that may be open: k, or 63 where name 63 is closed.
fn name_limit(accepted: Accepted) -> u8
    ensures { result ≡ name_limit accepted }
{
    if accepted.setup().closed >> 63 == 0 {
        accepted.names()
    } else {
        63
    }
}

// Is name m open, of those below 63? No name, 255, is looked up as name 63, which the limit settles.
fn is_open(closed: u64, m: u8) -> bool
    ensures { result ≡ shut_test closed m }
{
    (closed::lowest(closed, 63) >> (m % 64)) % 2 == 0
}

// Has no process a closed name below 63? By a fold: as `all`, an event with 64 processes took some 80 instructions more.
fn names_open(process: &[Process], closed: u64) -> bool
    ensures { result ≡ all_below (length process.now) (λ p. shut_test closed (get_or process.now p no_process).name) }
{
    process
        .iter()
        .fold(true, |open, p| open & is_open(closed, p.name))
}

// Is each of the four bytes below 128? The highest bit of each tells.
fn bytes_below_128(x: u32) -> bool
    ensures { result ≡ all_below 4 (byte_test x) }
{
    x & 0x8080_8080 == 0
}

// What the greatest stage, node less 1, segment and name more 1 lack to 127, a byte each.
fn headroom(accepted: Accepted) -> u32
    ensures value { result ≡ headroom accepted }
    ensures accepted { setup_answer accepted ≡ 0 }
{
    let setup = accepted.setup();
    u32::from_le_bytes([
        127 - stage::EXHAUSTED,
        127 - (2 * setup.leaves - 2),
        127 - (setup.segments - 1),
        127 - name_limit(accepted),
    ])
}

// Are a stage, a node less 1, a segment and a name more 1 in their ranges? A byte below 128 is at most its limit where it stays below 128
// with what the limit lacks to 127 added to it; a greater one, which may carry into the next, is seen before.
fn ranks_fit(stage: u8, node: u8, segment: u8, name: u8, room: u32) -> bool
    ensures { (c : Setup) → setup_answer c ≡ 0 → room ≡ headroom c → result ≡ ranks_fit c stage node segment name }
{
    let ranks = u32::from_le_bytes([stage, node, segment, name]);
    bytes_below_128(ranks) && bytes_below_128(ranks.wrapping_add(room))
}

// Is each number of each process in its range, but for closed names below 63? The greatest of each is compared, a node less 1 and a name
// more 1, so that node 0 is the greatest and no name the least.
fn numbers_in_range(process: &[Process], accepted: Accepted) -> bool
    ensures tests { result ≡ all_below (length process.now) (λ p. ranked accepted (get_or process.now p no_process)) }
    ensures bytes { (p : ℕ) → p < length process.now → (get_or process.now p no_process).name ≤ 255 }
{
    let room = headroom(accepted);
    let mut stage = 0u8;
    let mut node = 0u8;
    let mut segment = 0u8;
    let mut name = 0u8;
    let mut fits = true;
    for p in process {
        stage = stage.max(p.stage);
        node = node.max(node_rank(p.node));
        segment = segment.max(p.segment);
        name = name.max(name_rank(p.name));
        fits &= sum_fits(p.steps, p.returns);
    }
    ranks_fit(stage, node, segment, name, room) && fits
}

// Is each of the processes in use in its ranges? With none closed no name is looked up.
pub(crate) fn processes_in_range(process: &[Process; 64], accepted: Accepted) -> bool
    ensures { result ≡ all_below accepted.processes (λ p. process_test accepted (get_or process.now p no_process)) }
{
    let setup = accepted.setup();
    let used = &process[..usize::from(setup.processes)];
    (setup.closed == 0 || names_open(used, setup.closed)) && numbers_in_range(used, accepted)
}
