//! Turn by turn through a wiring: each turn makes one event.

ghost use Rattle.std.specs.Prelude.{◌≡◌, ℕ, ◌+◌, ◌<◌, ◌≤◌, List, [], ◌∷◌, ◌++◌, length, sum_by, None, IfOk, IfSome};
ghost use Rattle.std.specs.Vec.{vec_capacity};
ghost use Rattle.step_core.specs.declared.wiring.Event.{Event};
ghost use Rattle.step_core.specs.Histories.{IsLegal, IsComplete, CanGoOn};
ghost use Rattle.step_core.specs.States.{IsStateAfter, IsStateOf};
ghost use Rattle.step_core.specs.Paced.{IsPaced};
ghost use Rattle.rehearsal.specs.Choices.{drawn_by, IsFirstFrom, IsChosen, IsRehearsed};

use crate::numbers::{drawn_by, following, turned};
use listed::NoMemory;
use std::alloc::Global;
use step_core::{Event, State, Wiring, bounded, progress};

/// Makes the next event of the first actor, cyclically from this one, that can make it; `None` where no actor can. Tries each actor once
/// at most, and takes no memory.
fn choose(state: &mut State, wiring: &Wiring, first: u32) -> Option<Event>
    requires first { first < length wiring.now.programs }
    requires state { IsStateOf wiring.now state.old }
    ensures chosen { (h : List Event) → IsStateAfter wiring.now state.old h → IfSome result (λ e. IsFirstFrom wiring.now h first e) }
    ensures made { (h : List Event) → IsStateAfter wiring.now state.old h
        → IfSome result (λ e. IsStateAfter wiring.now state.new (h ++ e ∷ [])) }
    ensures stuck { (h : List Event) → IsStateAfter wiring.now state.old h → result ≡ None → CanGoOn wiring.now h → ⊥ }
{
    wiring.known();
    let actors = wiring.actors();
    let mut actor = first;
    for _tried in 0..actors {
        if let Ok(event) = state.step(wiring, actor) {
            return Some(event);
        }
        actor = following(actors, actor);
    }
    None
}

/// Makes the event that a number chooses. Takes no memory.
fn turn(state: &mut State, wiring: &Wiring, number: u64) -> Event
    requires unfinished { (h : List Event) × IsStateAfter wiring.now state.old h × (length h < sum_by length wiring.now.programs) }
    requires paced { (periods : List (List ℕ)) × IsPaced wiring.now periods }
    ensures chosen { (h : List Event) → IsStateAfter wiring.now state.old h → IsChosen wiring.now h number result }
    ensures made { (h : List Event) → IsStateAfter wiring.now state.old h → IsStateAfter wiring.now state.new (h ++ result ∷ []) }
{
    wiring.known();
    bounded();
    progress();
    let first = drawn_by(wiring.actors(), number);
    match choose(state, wiring, first) {
        Some(event) => event,
        None => unreachable!(),
    }
}

/// Makes all events of a wiring, from the state in which nothing has happened, and appends each to a history that has room for all.
fn make_all(wiring: &Wiring, seed: u64, state: &mut State, history: &mut Vec<Event>)
    requires state { IsStateAfter wiring.now state.old history.old.items }
    requires empty { history.old.items ≡ [] }
    requires paced { (periods : List (List ℕ)) × IsPaced wiring.now periods }
    requires short { sum_by length wiring.now.programs ≤ 4000000 }
    requires room { sum_by length wiring.now.programs ≤ vec_capacity history.old }
    ensures legal { IsLegal wiring.now history.new.items }
    ensures chosen { IsRehearsed wiring.now seed history.new.items }
    ensures counted { length history.new.items ≡ sum_by length wiring.now.programs }
{
    let mut number = seed;
    for _made in 0..wiring.events() {
        number = turned(number);
        let event = turn(state, wiring, number);
        history.push_reserved(event);
    }
}

/// The whole history of a wiring in which a seed chooses the actor of each event: a number starts as the seed and is turned once an event,
/// and of the actors, cyclically from the one that it draws, the first that can make its next event makes it.
///
/// `NoMemory` where the history, with room for each event of the programs, or the state finds no room; no event has been made then, and
/// none takes memory. An event costs a try of each actor at most, and a try takes no time that grows with the wiring or the history.
pub fn rehearse(alloc: Global, wiring: &Wiring, seed: u64) -> Result<Vec<Event>, NoMemory>
    requires paced { (periods : List (List ℕ)) × IsPaced wiring.now periods }
    requires short { sum_by length wiring.now.programs ≤ 4000000 }
    ensures legal { IfOk result (λ h. IsLegal wiring.now h.items) }
    ensures complete { IfOk result (λ h. IsComplete wiring.now h.items) }
    ensures chosen { IfOk result (λ h. IsRehearsed wiring.now seed h.items) }
    ensures counted { IfOk result (λ h. length h.items ≡ sum_by length wiring.now.programs) }
{
    bounded();
    let mut history = Vec::with_capacity(alloc, wiring.events() as usize)?;
    let mut state = State::new(alloc, wiring)?;
    make_all(wiring, seed, &mut state, &mut history);
    Ok(history)
}
