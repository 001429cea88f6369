// Stage 3: one getname step at a node or at a leaf. Why what is told of the process stays a clause is said in `lib.rt`.
ghost use Rattle.std.specs.Prelude.{◌≡◌, ◌+◌, ◌*◌, ◌≤◌, ◌<◌, IfSome};
ghost use Rattle.std.specs.Option.{unwrap_or};
ghost use Rattle.machine.specs.Getname.{claimed, side, outcome, descend, probe};
ghost use Rattle.machine.specs.Refusal.{answered};
ghost use Rattle.machine.specs.Room.{getname_room, where_room};
ghost use Rattle.machine.specs.State.{done, figure, process_at};
ghost use Rattle.operations.specs.Setting.{Setting};

use crate::place::Place;
use crate::words;
use fresh::accepted::Accepted;
use machine::{ClaimStep, Process, Refusal, Setup, State, stage};

// Left if the counter's old value was above 0, otherwise right.
#[tactic(auto, unfolding(machine::specs::Getname::side))]
fn side_of(node: u8, old: u8) -> ClaimStep
    requires { node < 32 }
    ensures { result ≡ side node old }
{
    if old > 0 {
        ClaimStep::Left(2 * node)
    } else {
        ClaimStep::Right(2 * node + 1)
    }
}

// Won, the next segment, or none left, by the answer of set_first_zero on the segment word of this number.
#[tactic(auto, unfolding(machine::specs::Getname::outcome))]
fn outcome_of(setup: Setup, word: u8, segment: u8, bit: Option<u8>) -> ClaimStep
    requires segment { segment < setup.segments }
    requires names { word * setup.bits + setup.bits ≤ 64 }
    requires below { IfSome bit (λ i. i < setup.bits) }
    ensures { result ≡ outcome setup word segment (unwrap_or bit setup.bits) }
{
    match bit {
        Some(i) => ClaimStep::Won(word * setup.bits + i),
        None if segment + 1 < setup.segments => ClaimStep::NextSegment(segment + 1),
        None => ClaimStep::Exhausted,
    }
}

// What a getname step makes of the process.
fn claim(mut h: Process, step: ClaimStep) -> Process
    requires { figure h < 255 }
    ensures { result ≡ claimed step h }
{
    h.steps += 1;
    match step {
        ClaimStep::Left(node) | ClaimStep::Right(node) => h.node = node,
        ClaimStep::Won(name) => {
            h.stage = stage::WORKING;
            h.name = name;
        }
        ClaimStep::NextSegment(segment) => h.segment = segment,
        ClaimStep::Exhausted => h.stage = stage::EXHAUSTED,
    }
    h
}

// At a node below L: bounded_decrement of its counter.
#[tactic(auto, unfolding(machine::specs::Getname::descend, machine::specs::Operations::bounded_decrement))]
#[inline(always)]
pub fn descend(s: &mut State, p: Place) -> Result<(), Refusal>
    requires node { (process_at s.old p).node < 16 }
    ensures { done (answered result) s.new ≡ where_room (getname_room s.old p) (descend s.old p) s.old }
{
    let h = p.roomy(s)?;
    let old = words::bounded_decrement(&mut s.counters[usize::from(h.node)]);
    s.process[p.index()] = claim(h, side_of(h.node, old));
    Ok(())
}

// At a leaf: set_first_zero on its segment word.
#[tactic(auto, unfolding(machine::specs::Getname::probe, machine::specs::Operations::set_first_zero))]
#[inline(always)]
pub fn probe(s: &mut State, p: Place) -> Result<(), Refusal>
    requires told { Setting s.old.setup (process_at s.old p) }
    requires leaf { s.old.setup.leaves ≤ (process_at s.old p).node }
    ensures { done (answered result) s.new ≡ where_room (getname_room s.old p) (probe s.old p) s.old }
{
    let h = p.roomy(s)?;
    let setup = s.setup;
    let word = (h.node - setup.leaves) * setup.segments + h.segment;
    let closed = Accepted::of(setup).closed_word(word);
    let bit = words::set_first_zero(&mut s.words[usize::from(word)], setup.bits, closed);
    s.process[p.index()] = claim(h, outcome_of(setup, word, h.segment, bit));
    Ok(())
}
