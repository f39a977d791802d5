//! Node steps over a wiring that was worked out by hand.

ghost use Rattle.std.specs.Prelude.{◌≡◌, ◌<◌, ◌∷◌, ◌++◌, [], length, IfOk};
ghost use Rattle.step_core.specs.declared.wiring.Event.TheVariants.{Open, Close};
ghost use Rattle.step_core.specs.States.{IsStateOf};
ghost use Rattle.parts_tests.specs.Relays.{relay_lanes, sends_two, sends_one, passes_on, relay};

use crate::tests::comparing::{fails_at, holds};
use crate::tests::models::listed_of;
use listed::{Listed, NoMemory};
use std::alloc::Global;
use std::test::Fail;
use step_core::{
    Event, Lane, NotYet, State, Wiring, bounded, closed_next, progress, refused_by, tasks_counted,
};

fn open(actor: u32, lane: u32, task: u64) -> Event
    ensures { result ≡ Open actor lane task }
{
    Event::Open { actor, lane, task }
}

fn close(actor: u32, lane: u32, task: u64) -> Event
    ensures { result ≡ Close actor lane task }
{
    Event::Close { actor, lane, task }
}

fn lane(sender: u32, receiver: u32) -> Lane
    ensures { result ≡ record { sender = sender; receiver = receiver; capacity = 1 } }
{
    Lane {
        sender,
        receiver,
        capacity: 1,
    }
}

fn relay_lanes(alloc: Global) -> Result<Listed<Lane>, NoMemory>
    ensures { IfOk result (λ lanes. lanes ≡ relay_lanes) }
{
    listed_of(alloc, &[lane(0, 1), lane(0, 2), lane(1, 2)])
}

fn sends_two(alloc: Global) -> Result<Listed<Event>, NoMemory>
    ensures { IfOk result (λ program. program ≡ sends_two) }
{
    listed_of(
        alloc,
        &[open(0, 0, 0), close(0, 0, 0), open(0, 0, 1), close(0, 0, 1)],
    )
}

fn sends_one(alloc: Global) -> Result<Listed<Event>, NoMemory>
    ensures { IfOk result (λ program. program ≡ sends_one) }
{
    listed_of(alloc, &[open(1, 1, 2), close(1, 1, 2)])
}

fn passes_on(alloc: Global) -> Result<Listed<Event>, NoMemory>
    ensures { IfOk result (λ program. program ≡ passes_on) }
{
    let taken = Event::Take {
        actor: 2,
        lane: 0,
        task: 0,
    };
    let computed = Event::Done { actor: 2, task: 3 };
    listed_of(alloc, &[taken, open(2, 2, 0), close(2, 2, 0), computed])
}

/// Puts the programs of node 0 behind others.
fn push_senders(alloc: Global, programs: &mut Listed<Listed<Event>>) -> Result<(), NoMemory>
    ensures { IfOk result (λ _. programs.new ≡ programs.old ++ sends_two ∷ (sends_one ∷ [])) }
{
    programs.push(sends_two(alloc)?)?;
    programs.push(sends_one(alloc)?)
}

fn programs(alloc: Global) -> Result<Listed<Listed<Event>>, NoMemory>
    ensures { IfOk result (λ programs. programs ≡ sends_two ∷ (sends_one ∷ (passes_on ∷ []))) }
{
    let mut programs = Listed::new(alloc);
    push_senders(alloc, &mut programs)?;
    programs.push(passes_on(alloc)?)?;
    Ok(programs)
}

fn relay(alloc: Global) -> Result<Wiring, NoMemory>
    ensures { IfOk result (λ wiring. wiring ≡ relay) }
{
    let lanes = relay_lanes(alloc)?;
    Ok(Wiring::new(3, lanes, programs(alloc)?))
}

/// The actor that steps, and why it can't, where it can't.
type StepRow = (u32, Option<NotYet>);

/// Node 0 sends twice over a lane with room for one task, and to node 2, to which node 1 sends too.
static STEPS: [StepRow; 19] = [
    (
        2,
        Some(NotYet::Empty {
            taken: 0,
            closed: 0,
        }),
    ),
    (0, None),
    (1, Some(NotYet::SendBusy(0))),
    (0, None),
    (
        0,
        Some(NotYet::Full {
            opened: 1,
            taken: 0,
        }),
    ),
    (1, None),
    (2, None),
    (2, Some(NotYet::ReceiveBusy(1))),
    (0, Some(NotYet::SendBusy(1))),
    (1, None),
    (1, Some(NotYet::Ended)),
    (2, None),
    (0, None),
    (2, None),
    (2, None),
    (2, Some(NotYet::Ended)),
    (0, None),
    (0, Some(NotYet::Ended)),
    (1, Some(NotYet::Ended)),
];

/// Whether an actor's step makes the event that was next, or is refused so.
fn steps(wiring: &Wiring, state: &mut State, row: &StepRow) -> bool
    requires actor { row.now.0 < length wiring.now.programs }
    requires state { IsStateOf wiring.now state.old }
    ensures { IsStateOf wiring.now state.new }
{
    let next = state.next(wiring, row.0);
    match state.step(wiring, row.0) {
        Ok(event) => next == Some(event) && row.1.is_none(),
        Err(refusal) => row.1 == Some(refusal),
    }
}

fn walks(wiring: &Wiring, state: &mut State) -> Result<(), Fail>
    requires { IsStateOf wiring.now state.old }
    ensures { IsStateOf wiring.now state.new }
{
    for row in &STEPS {
        if u64::from(row.0) >= wiring.actors() || !steps(wiring, state, row) {
            return fails_at(row);
        }
    }
    Ok(())
}

/// Whether an actor has made its whole program, of so many events.
fn has_ended(wiring: &Wiring, state: &State, actor: u32, events: usize) -> bool
    requires actor { actor < length wiring.now.programs }
    requires state { IsStateOf wiring.now state.now }
{
    wiring.program(actor).len() == events
        && state.made(actor) == events as u64
        && state.next(wiring, actor).is_none()
}

/// How many events each actor of the relay makes.
static ENDS: [(u32, usize); 3] = [(0, 4), (1, 2), (2, 4)];

fn have_ended(wiring: &Wiring, state: &State) -> Result<(), Fail>
    requires { IsStateOf wiring.now state.now }
{
    for row in &ENDS {
        if u64::from(row.0) >= wiring.actors() || !has_ended(wiring, state, row.0, row.1) {
            return fails_at(row);
        }
    }
    Ok(())
}

fn walks_to_the_end(wiring: &Wiring, state: &mut State) -> Result<(), Fail>
    requires { IsStateOf wiring.now state.old }
{
    walks(wiring, state)?;
    have_ended(wiring, state)
}

fn goes(alloc: Global, wiring: &Wiring) -> Result<(), Fail> {
    walks_to_the_end(wiring, &mut State::new(alloc, wiring)?)
}

#[test]
fn steps_until_all_have_ended(rt: HostRuntime) -> Result<(), Fail> {
    goes(rt.alloc(), &relay(rt.alloc())?)
}

/// Whether a wiring has the sizes and the last lane of the relay.
fn is_relay(wiring: &Wiring) -> bool {
    wiring.known();
    wiring.nodes() == 3
        && wiring.actors() == 3
        && wiring.events() == 10
        && wiring.lanes().len() == 3
        && wiring.lane(2) == lane(1, 2)
}

#[test]
fn keeps_a_wiring(rt: HostRuntime) -> Result<(), Fail> {
    holds(is_relay(&relay(rt.alloc())?), "relay")
}

#[test]
fn cites_laws() {
    progress();
    bounded();
    closed_next();
    refused_by();
    tasks_counted();
}
