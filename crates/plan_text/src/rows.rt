//! The lines of a plan's routes and slots.

ghost use Rattle.std.specs.Prelude.{◌≡◌, ℕ, suc, ◌^◌, ◌<◌, List, [], ◌∷◌, IfOk, MatchOption, length, map, slice_index};
ghost use Rattle.flow_routes.specs.declared.flow.Route.{Route};
ghost use Rattle.period_table.specs.declared.table.Slot.{Slot};
ghost use Rattle.period_table.specs.declared.table.Piece.{Piece};
ghost use Rattle.period_table.specs.Lanes.{lanes_of};
ghost use Rattle.text_lines.specs.Lines.{words_of};
ghost use Rattle.plan_text.specs.Walks.{IsKind};
ghost use Rattle.plan_text.specs.Reading.{IsNext, HasNoNext, IsNumbered, IsRouteHead, IsRouteLine, IsPieceWord, ArePieceWords, IsSlotLine, AreRead};
ghost use Rattle.plan_text.specs.Reading.Place.{at_row};

use crate::head::{Head, MOST_NUMBER, pair_round};
use crate::walks::{node_named, walk_over};
use flow_routes::Route;
use listed::{Listed, NoMemory};
use period_table::{Piece, Slot, is_route, is_slot, lane_count};
use platform_file::Timed;
use schedule_model::Series;
use std::alloc::Global;
use text_lines::{first_line, natural_of, numbers_are_read_as_printed, words_of};

/// The greatest count or duration.
const MOST_COUNT: u128 = 1 << 100;

/// The most slots.
const MOST_SLOTS: usize = u32::MAX as usize;

/// The number of the target that is a node.
fn target_at(timed: &Timed, end: u32) -> Option<u32>
    ensures { MatchOption result ((kind : ℕ) → kind < length timed.now.platform.targets → end ≡ slice_index timed.now.platform.targets kind → ⊥)
        (λ kind. (kind < length timed.now.platform.targets) × (end ≡ slice_index timed.now.platform.targets kind)) }
{
    timed.known();
    let targets = timed.platform().targets();
    for kind in 0..targets.len() {
        if targets[kind] == end {
            return Some(kind as u32);
        }
    }
    None
}

/// The kind of the routes to an end.
fn kind_of(timed: &Timed, series: Series, end: u32) -> Option<u32>
    ensures { MatchOption result ((kind : ℕ) → IsKind timed.now series end kind → ⊥) (λ kind. IsKind timed.now series end kind) }
{
    match series {
        Series::Tasking => Some(0),
        Series::Scatter => target_at(timed, end),
    }
}

/// The first of some words, and the others.
fn next_word<'a>(words: &'a [&'a [u8]]) -> Option<(&'a [u8], &'a [&'a [u8]])>
    ensures { MatchOption result (map (λ word. word.now) words.now ≡ [])
        (λ found. map (λ word. word.now) words.now ≡ found.0.now ∷ map (λ word. word.now) found.1.now) }
{
    let Some((first, others)) = words.split_first() else {
        return None;
    };
    Some((*first, others))
}

/// The number of a line's second word, where this is the first, and the other words.
fn numbered<'a>(word: &[u8], words: &'a [&'a [u8]]) -> Option<(u128, &'a [&'a [u8]])>
    ensures { MatchOption result ((number : ℕ) (others : List (List ℕ)) → IsNumbered word.now (map (λ word. word.now) words.now) number others → ⊥)
        (λ found. IsNumbered word.now (map (λ word. word.now) words.now) found.0 (map (λ word. word.now) found.1.now)) }
{
    numbers_are_read_as_printed();
    let Some((first, others)) = next_word(words) else {
        return None;
    };
    if first != word {
        return None;
    }
    let Some((second, behind)) = next_word(others) else {
        return None;
    };
    let Some(number) = natural_of(second, MOST_NUMBER) else {
        return None;
    };
    Some((number, behind))
}

/// The count and the start of the route of this number, and the names behind.
fn route_head<'a>(
    timed: &Timed,
    number: u64,
    words: &'a [&'a [u8]],
) -> Option<(u128, u32, &'a [&'a [u8]])>
    ensures { MatchOption result ((count start : ℕ) (others : List (List ℕ)) → IsRouteHead timed.now number (map (λ word. word.now) words.now) count start others → ⊥)
        (λ head. IsRouteHead timed.now number (map (λ word. word.now) words.now) head.0 head.1 (map (λ word. word.now) head.2.now)) }
{
    numbers_are_read_as_printed();
    let Some((found, others)) = numbered(b"route", words) else {
        return None;
    };
    if found != u128::from(number) {
        return None;
    }
    let Some((word, behind)) = next_word(others) else {
        return None;
    };
    let Some(count) = natural_of(word, MOST_COUNT) else {
        return None;
    };
    let Some((name, names)) = next_word(behind) else {
        return None;
    };
    let Some(start) = node_named(timed, name) else {
        return None;
    };
    Some((count, start, names))
}

/// The route of a line's words.
fn route_of_words(
    alloc: Global,
    timed: &Timed,
    series: Series,
    number: u64,
    words: &[&[u8]],
) -> Result<Option<Route>, NoMemory>
    ensures { (text : List ℕ) → map (λ word. word.now) words.now ≡ words_of text
        → IfOk result (λ found. MatchOption found ((route : Route) → IsRouteLine timed.now series number text route → ⊥) (λ route. IsRouteLine timed.now series number text route)) }
{
    timed.known();
    let Some((count, start, names)) = route_head(timed, number, words) else {
        return Ok(None);
    };
    let Some((links, end)) = walk_over(alloc, timed, start, names)? else {
        return Ok(None);
    };
    let Some(kind) = kind_of(timed, series, end) else {
        return Ok(None);
    };
    let route = Route {
        links,
        end,
        count,
        kind,
    };
    if is_route(timed, series, &route) {
        Ok(Some(route))
    } else {
        Ok(None)
    }
}

/// The route of a line.
fn route_in(
    alloc: Global,
    timed: &Timed,
    series: Series,
    number: u64,
    text: &[u8],
) -> Result<Option<Route>, NoMemory>
    ensures { IfOk result
        (λ found. MatchOption found ((route : Route) → IsRouteLine timed.now series number text.now route → ⊥)
        (λ route. IsRouteLine timed.now series number text.now route)) }
{
    let words = words_of(alloc, text)?;
    route_of_words(alloc, timed, series, number, words.as_slice())
}

/// The piece of a word.
fn piece_in(word: &[u8]) -> Option<Piece>
    ensures { MatchOption result ((piece : Piece) → IsPieceWord word.now piece → ⊥) (λ piece. IsPieceWord word.now piece) }
{
    let Some((lane, count)) = pair_round(b':', u128::from(u32::MAX), MOST_COUNT, word) else {
        return None;
    };
    Some(Piece {
        lane: lane as u32,
        count,
    })
}

/// The pieces of some words.
fn pieces_in(alloc: Global, words: &[&[u8]]) -> Result<Option<Listed<Piece>>, NoMemory>
    ensures { IfOk result
        (λ found. MatchOption found ((pieces : List Piece) → ArePieceWords (map (λ word. word.now) words.now) pieces → ⊥)
        (λ pieces. ArePieceWords (map (λ word. word.now) words.now) pieces)) }
{
    let mut pieces = Listed::new(alloc);
    for word in words {
        let Some(piece) = piece_in(word) else {
            return Ok(None);
        };
        pieces.push(piece)?;
    }
    Ok(Some(pieces))
}

/// The slot of a line's words, over the lanes of some routes.
fn slot_of_words(
    alloc: Global,
    lanes: u128,
    routes: &[Route],
    words: &[&[u8]],
) -> Result<Option<Slot>, NoMemory>
    requires { lanes ≡ length (lanes_of routes.now) }
    ensures { (text : List ℕ) → map (λ word. word.now) words.now ≡ words_of text
        → IfOk result (λ found. MatchOption found ((slot : Slot) → IsSlotLine (lanes_of routes.now) text slot → ⊥) (λ slot. IsSlotLine (lanes_of routes.now) text slot)) }
{
    let Some((duration, others)) = numbered(b"slot", words) else {
        return Ok(None);
    };
    if duration > MOST_COUNT {
        return Ok(None);
    }
    let Some(pieces) = pieces_in(alloc, others)? else {
        return Ok(None);
    };
    let slot = Slot { duration, pieces };
    if is_slot(lanes, routes, &slot) {
        Ok(Some(slot))
    } else {
        Ok(None)
    }
}

/// The slot of a line, over the lanes of some routes.
fn slot_in(
    alloc: Global,
    lanes: u128,
    routes: &[Route],
    text: &[u8],
) -> Result<Option<Slot>, NoMemory>
    requires { lanes ≡ length (lanes_of routes.now) }
    ensures { IfOk result
        (λ found. MatchOption found ((slot : Slot) → IsSlotLine (lanes_of routes.now) text.now slot → ⊥)
        (λ slot. IsSlotLine (lanes_of routes.now) text.now slot)) }
{
    let words = words_of(alloc, text)?;
    slot_of_words(alloc, lanes, routes, words.as_slice())
}

/// The route of the next line, and what is left.
fn route_after<'a>(
    alloc: Global,
    timed: &Timed,
    series: Series,
    number: u64,
    bytes: &'a [u8],
) -> Result<Option<(Route, &'a [u8])>, NoMemory>
    ensures { IfOk result
        (λ found. MatchOption found (HasNoNext (IsRouteLine timed.now series number) bytes.now)
        (λ next. IsNext (IsRouteLine timed.now series number) bytes.now next.0 next.1.now)) }
{
    let Some((text, rest)) = first_line(bytes) else {
        return Ok(None);
    };
    match route_in(alloc, timed, series, number, text)? {
        Some(route) => Ok(Some((route, rest))),
        None => Ok(None),
    }
}

/// The slot of the next line, and what is left.
fn slot_after<'a>(
    alloc: Global,
    lanes: u128,
    routes: &[Route],
    bytes: &'a [u8],
) -> Result<Option<(Slot, &'a [u8])>, NoMemory>
    requires { lanes ≡ length (lanes_of routes.now) }
    ensures { IfOk result
        (λ found. MatchOption found (HasNoNext (IsSlotLine (lanes_of routes.now)) bytes.now)
        (λ next. IsNext (IsSlotLine (lanes_of routes.now)) bytes.now next.0 next.1.now)) }
{
    let Some((text, rest)) = first_line(bytes) else {
        return Ok(None);
    };
    match slot_in(alloc, lanes, routes, text)? {
        Some(slot) => Ok(Some((slot, rest))),
        None => Ok(None),
    }
}

/// Reads routes, up to the first line that isn't one, and gives what is left.
pub(crate) fn read_routes<'a>(
    alloc: Global,
    timed: &Timed,
    head: &Head,
    bytes: &'a [u8],
) -> Result<(Listed<Route>, &'a [u8]), NoMemory>
    ensures read { IfOk result
        (λ found. AreRead (length found.0) timed.now (at_row head.now [] []) bytes.now (at_row head.now found.0 []) found.1.now) }
    ensures all { IfOk result (λ found. HasNoNext (IsRouteLine timed.now head.now.series (length found.0)) found.1.now) }
{
    let mut routes = Listed::new(alloc);
    let mut rest = bytes;
    while let Some((route, left)) = route_after(
        alloc,
        timed,
        head.series,
        routes.len() as u64,
        rest,
    )? {
        routes.push(route)?;
        rest = left;
    }
    Ok((routes, rest))
}

/// Reads slots, up to the first line that isn't one or to 2^32 - 1 of them, and gives what is left.
pub(crate) fn read_slots<'a>(
    alloc: Global,
    timed: &Timed,
    head: &Head,
    routes: &[Route],
    bytes: &'a [u8],
) -> Result<(Listed<Slot>, &'a [u8]), NoMemory>
    ensures read { IfOk result
        (λ found. AreRead (length found.0) timed.now (at_row head.now routes.now []) bytes.now
        (at_row head.now routes.now found.0) found.1.now) }
    ensures few { IfOk result (λ found. length found.0 < 2 ^ 32) }
    ensures all { IfOk result (λ found. suc (length found.0) < 2 ^ 32 → HasNoNext (IsSlotLine (lanes_of routes.now)) found.1.now) }
{
    let lanes = lane_count(routes);
    let mut slots = Listed::new(alloc);
    let mut rest = bytes;
    while slots.len() < MOST_SLOTS {
        let Some((slot, left)) = slot_after(alloc, lanes, routes, rest)? else {
            return Ok((slots, rest));
        };
        slots.push(slot)?;
        rest = left;
    }
    Ok((slots, rest))
}
