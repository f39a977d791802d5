//! Rehearsals of a wiring in which one order alone is legal.

ghost use Rattle.std.specs.Prelude.{◌≡◌, ◌∷◌, [], IfOk};
ghost use Rattle.step_core.specs.declared.wiring.Event.TheVariants.{Open, Close};
ghost use Rattle.parts_tests.specs.HandOvers.{one_lane, sends, computes, hand_over};

use crate::tests::comparing::fails_at;
use listed::{Listed, NoMemory};
use rehearsal::{decided, rehearse};
use std::alloc::Global;
use std::test::Fail;
use step_core::{Event, Lane, Wiring};

const OPENED: Event = Event::Open {
    actor: 0,
    lane: 0,
    task: 0,
};

const CLOSED: Event = Event::Close {
    actor: 0,
    lane: 0,
    task: 0,
};

const TAKEN: Event = Event::Take {
    actor: 1,
    lane: 0,
    task: 0,
};

const DONE: Event = Event::Done { actor: 1, task: 0 };

fn lanes(alloc: Global) -> Result<Listed<Lane>, NoMemory>
    ensures { IfOk result (λ lanes. lanes ≡ one_lane) }
{
    let mut lanes = Listed::new(alloc);
    lanes.push(Lane {
        sender: 0,
        receiver: 1,
        capacity: 1,
    })?;
    Ok(lanes)
}

fn sends(alloc: Global) -> Result<Listed<Event>, NoMemory>
    ensures { IfOk result (λ program. program ≡ sends) }
{
    let mut program = Listed::new(alloc);
    program.push(OPENED)?;
    program.push(CLOSED)?;
    Ok(program)
}

fn computes(alloc: Global) -> Result<Listed<Event>, NoMemory>
    ensures { IfOk result (λ program. program ≡ computes) }
{
    let mut program = Listed::new(alloc);
    program.push(TAKEN)?;
    program.push(DONE)?;
    Ok(program)
}

fn programs(alloc: Global) -> Result<Listed<Listed<Event>>, NoMemory>
    ensures { IfOk result (λ programs. programs ≡ sends ∷ (computes ∷ [])) }
{
    let mut programs = Listed::new(alloc);
    programs.push(sends(alloc)?)?;
    programs.push(computes(alloc)?)?;
    Ok(programs)
}

fn hand_over(alloc: Global) -> Result<Wiring, NoMemory>
    ensures { IfOk result (λ wiring. wiring ≡ hand_over) }
{
    let lanes = lanes(alloc)?;
    Ok(Wiring::new(2, lanes, programs(alloc)?))
}

/// Sent, then computed.
const ORDER: [Event; 4] = [OPENED, CLOSED, TAKEN, DONE];

/// Whether a seed gives the order that is legal.
fn gives(alloc: Global, wiring: &Wiring, seed: u64) -> Result<bool, NoMemory>
    requires { wiring.now ≡ hand_over }
{
    Ok(rehearse(alloc, wiring, seed)?.as_slice() == ORDER.as_slice())
}

/// Seeds of each size.
static SEEDS: [u64; 6] = [0, 1, 2, 1 << 33, 1_234_567_890_123, u64::MAX];

fn all_give(alloc: Global, wiring: &Wiring) -> Result<(), Fail>
    requires { wiring.now ≡ hand_over }
{
    for seed in &SEEDS {
        if !gives(alloc, wiring, *seed)? {
            return fails_at(seed);
        }
    }
    Ok(())
}

#[test]
fn hands_over_at_every_seed(rt: HostRuntime) -> Result<(), Fail> {
    all_give(rt.alloc(), &hand_over(rt.alloc())?)
}

#[test]
fn cites_that_a_seed_decides() {
    decided();
}
