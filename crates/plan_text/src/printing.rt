//! Prints a plan.

ghost use Rattle.std.specs.Prelude.{◌≡◌, ◌<◌, ◌++◌, ◌∷◌, [], All, length, IfOk, OnOk, codes, decimal, string_bytes};
ghost use Rattle.text_lines.specs.Lines.{line};
ghost use Rattle.period_table.specs.Tables.{IsWalk, IsRoute, Fits, nodes_on};
ghost use Rattle.plan_text.specs.Texts.{header_text, ratio_text, name_of, names_text, route_text, routes_text, pieces_text, slot_text, slots_text, numbers_text, plan_text};

use flow_routes::Route;
use listed::NoMemory;
use period_table::{Piece, Slot, Table, fitting_tables_hold};
use platform_file::Timed;
use ratio_core::Ratio;
use schedule_model::Series;
use std::alloc::Global;

/// The line that names the series.
pub(crate) fn header(series: Series) -> &'static str
    ensures { result.now ≡ header_text series }
{
    match series {
        Series::Tasking => "plan 1 tasking",
        Series::Scatter => "plan 1 scatter",
    }
}

/// The line that names the series, with its line feed.
fn begun(alloc: Global, series: Series) -> Result<String, NoMemory>
    ensures { IfOk result (λ text. string_bytes text ≡ line (header_text series)) }
{
    let mut out = String::from_str(alloc, header(series))?;
    out.push_str("\n")?;
    Ok(out)
}

/// Appends a line of a word and a number.
fn push_number(out: &mut String, word: &str, number: u128) -> Result<(), NoMemory>
    ensures { OnOk result (string_bytes out.new ≡ string_bytes out.old ++ line (word.now ++ (codes " " ++ decimal number))) }
{
    write!(out, "{word} {number}\n")?;
    Ok(())
}

/// Appends the line of a rate in tasks per time unit.
fn push_rate(out: &mut String, rate: Ratio) -> Result<(), NoMemory>
    ensures { OnOk result (string_bytes out.new ≡ string_bytes out.old ++ line (codes "rate " ++ ratio_text rate)) }
{
    let (num, den) = (rate.num(), rate.den());
    write!(out, "rate {num}/{den}\n")?;
    Ok(())
}

/// Appends a space and the name of a node.
fn push_name(out: &mut String, timed: &Timed, node: u32) -> Result<(), NoMemory>
    requires { node < length timed.now.platform.nodes }
    ensures { OnOk result (string_bytes out.new ≡ string_bytes out.old ++ (codes " " ++ name_of timed.now node)) }
{
    out.push_str(" ")?;
    out.push_str(timed.platform().nodes()[node as usize].name().as_str())?;
    Ok(())
}

/// Appends the names of the nodes on a walk.
fn push_names(out: &mut String, timed: &Timed, links: &[u32], end: u32) -> Result<(), NoMemory>
    requires walk { IsWalk timed.now links.now end }
    requires end { end < length timed.now.platform.nodes }
    ensures { OnOk result (string_bytes out.new ≡ string_bytes out.old ++ names_text timed.now (nodes_on timed.now links.now end)) }
{
    timed.known();
    for link in links {
        push_name(out, timed, timed.platform().links()[*link as usize].from())?;
    }
    push_name(out, timed, end)
}

/// Appends the line of a route.
fn push_route(
    out: &mut String,
    timed: &Timed,
    series: Series,
    number: usize,
    route: &Route,
) -> Result<(), NoMemory>
    requires route { IsRoute timed.now series route.now }
    ensures { OnOk result (string_bytes out.new ≡ string_bytes out.old ++ route_text timed.now number route.now) }
{
    timed.known();
    fitting_tables_hold();
    let count = route.count;
    write!(out, "route {number} {count}")?;
    push_names(out, timed, route.links.as_slice(), route.end)?;
    out.push_str("\n")?;
    Ok(())
}

/// Appends the lines of some routes.
fn push_routes(
    out: &mut String,
    timed: &Timed,
    series: Series,
    routes: &[Route],
) -> Result<(), NoMemory>
    requires { All (IsRoute timed.now series) routes.now }
    ensures { OnOk result (string_bytes out.new ≡ string_bytes out.old ++ routes_text timed.now 0 routes.now) }
{
    timed.known();
    fitting_tables_hold();
    for number in 0..routes.len() {
        push_route(out, timed, series, number, &routes[number])?;
    }
    Ok(())
}

/// Appends a space and a piece.
fn push_piece(out: &mut String, piece: &Piece) -> Result<(), NoMemory>
    ensures { OnOk result (string_bytes out.new ≡ string_bytes out.old ++ pieces_text (piece.now ∷ [])) }
{
    let (lane, count) = (piece.lane, piece.count);
    write!(out, " {lane}:{count}")?;
    Ok(())
}

/// Appends the line of a slot.
fn push_slot(out: &mut String, slot: &Slot) -> Result<(), NoMemory>
    ensures { OnOk result (string_bytes out.new ≡ string_bytes out.old ++ slot_text slot.now) }
{
    let duration = slot.duration;
    write!(out, "slot {duration}")?;
    for piece in slot.pieces.as_slice() {
        push_piece(out, piece)?;
    }
    out.push_str("\n")?;
    Ok(())
}

/// Appends the lines of some slots.
fn push_slots(out: &mut String, slots: &[Slot]) -> Result<(), NoMemory>
    ensures { OnOk result (string_bytes out.new ≡ string_bytes out.old ++ slots_text slots.now) }
{
    for slot in slots {
        push_slot(out, slot)?;
    }
    Ok(())
}

/// Appends the lines of the numbers: the unit, the period, the tasks, the depth and the rate.
fn push_numbers(
    out: &mut String,
    timed: &Timed,
    series: Series,
    table: &Table,
) -> Result<(), NoMemory>
    requires { Fits timed.now series table.now }
    ensures { OnOk result (string_bytes out.new ≡ string_bytes out.old ++ numbers_text timed.now table.now) }
{
    let _ = series;
    timed.known();
    fitting_tables_hold();
    push_number(out, "unit", u128::from(timed.unit()))?;
    push_number(out, "period", table.period)?;
    push_number(out, "tasks", table.tasks)?;
    push_number(out, "depth", u128::from(table.depth))?;
    if let Some(rate) = table.rate(timed) {
        push_rate(out, rate)?;
    }
    Ok(())
}

/// The text of a plan: a table that fits, with its unit and its rate.
///
/// # Errors
///
/// `NoMemory` where memory runs out.
pub fn print_plan(
    alloc: Global,
    timed: &Timed,
    series: Series,
    table: &Table,
) -> Result<String, NoMemory>
    requires { Fits timed.now series table.now }
    ensures { IfOk result (λ text. string_bytes text ≡ plan_text timed.now series table.now) }
{
    timed.known();
    fitting_tables_hold();
    let mut out = begun(alloc, series)?;
    push_numbers(&mut out, timed, series, table)?;
    push_routes(&mut out, timed, series, table.routes.as_slice())?;
    push_slots(&mut out, table.slots.as_slice())?;
    out.push_str("end\n")?;
    Ok(out)
}
