//! The lines of a plan before its routes.

ghost use Rattle.std.specs.Prelude.{ℕ, ◌<◌, ◌⊎◌, MatchOption, IfOk, IfErr, [], codes};
ghost use Rattle.schedule_model.specs.declared.schedule.Series.{Series};
ghost use Rattle.ratio_core.specs.Fraction.{Fraction};
ghost use Rattle.plan_text.specs.Reading.{IsNext, HasNoNext, IsHeaderLine, IsNumberLine, IsUnitLine, ArePair, IsRateLine, AreRead, IsPlanTextFault};
ghost use Rattle.plan_text.specs.Reading.Place.{at_header, at_row};

use crate::fault::PlanTextFault;
use crate::printing::header;
use platform_file::Timed;
use ratio_core::gcd;
use schedule_model::Series;
use std::marker::Model;
use text_lines::{behind, first_line, natural_of, numbers_are_read_as_printed, parted};

/// The greatest number of a line.
pub(crate) const MOST_NUMBER: u128 = 1 << 107;

/// The greatest part of a rate.
const MOST_PART: u128 = 1 << 127;

/// What the lines before the routes say.
#[derive(Drop)]
pub(crate) struct Head {
    pub(crate) series: Series,
    pub(crate) period: u128,
    pub(crate) tasks: u128,
    pub(crate) depth: u128,
    pub(crate) num: u128,
    pub(crate) den: u128,
}

impl Model for Head {
    ghost use Rattle.plan_text.specs.Reading.{HeadView};

    ghost Value = { HeadView };

    ghost view = { λ a. record { series = a.series; period = a.period; tasks = a.tasks; depth = a.depth; rate = record { num = a.num; den = a.den } } };
}

/// The series of a header.
fn series_in(timed: &Timed, text: &[u8]) -> Option<Series>
    ensures { MatchOption result ((series : Series) → IsHeaderLine timed.now text.now series → ⊥)
        (λ series. IsHeaderLine timed.now text.now series) }
{
    if text == header(Series::Tasking).as_bytes() {
        Some(Series::Tasking)
    } else if text == header(Series::Scatter).as_bytes() && !timed.platform().targets().is_empty() {
        Some(Series::Scatter)
    } else {
        None
    }
}

/// The number behind a word.
fn number_in(word: &[u8], text: &[u8]) -> Option<u128>
    ensures { MatchOption result ((number : ℕ) → IsNumberLine word.now text.now number → ⊥)
        (λ number. IsNumberLine word.now text.now number) }
{
    numbers_are_read_as_printed();
    let Some(rest) = behind(word, text) else {
        return None;
    };
    natural_of(rest, MOST_NUMBER)
}

/// Two numbers within bounds that stand round a byte.
pub(crate) fn pair_round(
    by: u8,
    most_first: u128,
    most_second: u128,
    text: &[u8],
) -> Option<(u128, u128)>
    requires { (by < 48) ⊎ (57 < by) }
    ensures { MatchOption result ((first second : ℕ) → ArePair by most_first most_second text.now first second → ⊥)
        (λ pair. ArePair by most_first most_second text.now pair.0 pair.1) }
{
    numbers_are_read_as_printed();
    let Some((left, right)) = parted(by, text) else {
        return None;
    };
    let Some(first) = natural_of(left, most_first) else {
        return None;
    };
    let Some(second) = natural_of(right, most_second) else {
        return None;
    };
    Some((first, second))
}

/// The parts of the rate of a line, which is in lowest terms.
fn rate_in(text: &[u8]) -> Option<(u128, u128)>
    ensures { MatchOption result ((rate : Fraction) → IsRateLine text.now rate → ⊥)
        (λ rate. IsRateLine text.now (record { num = rate.0; den = rate.1 })) }
{
    let Some(rest) = behind(b"rate ", text) else {
        return None;
    };
    let Some((num, den)) = pair_round(b'/', MOST_PART, MOST_PART, rest) else {
        return None;
    };
    if den == 0 {
        return None;
    }
    if gcd(num, den) != 1 {
        return None;
    }
    Some((num, den))
}

/// The series of the next line, and what is left.
fn header_after<'a>(timed: &Timed, bytes: &'a [u8]) -> Option<(Series, &'a [u8])>
    ensures { MatchOption result (HasNoNext (IsHeaderLine timed.now) bytes.now)
        (λ found. IsNext (IsHeaderLine timed.now) bytes.now found.0 found.1.now) }
{
    let (text, rest) = first_line(bytes)?;
    Some((series_in(timed, text)?, rest))
}

/// The number of the next line, which is to have a word, and what is left.
fn number_after<'a>(word: &[u8], bytes: &'a [u8]) -> Option<(u128, &'a [u8])>
    ensures { MatchOption result (HasNoNext (IsNumberLine word.now) bytes.now)
        (λ found. IsNext (IsNumberLine word.now) bytes.now found.0 found.1.now) }
{
    let (text, rest) = first_line(bytes)?;
    Some((number_in(word, text)?, rest))
}

/// What is left behind the line of the unit.
fn unit_after<'a>(timed: &Timed, bytes: &'a [u8]) -> Option<&'a [u8]>
    ensures { MatchOption result (HasNoNext (IsUnitLine timed.now) bytes.now)
        (λ rest. IsNext (IsUnitLine timed.now) bytes.now timed.now.unit rest.now) }
{
    timed.known();
    let Some((unit, rest)) = number_after(b"unit ", bytes) else {
        return None;
    };
    if unit == u128::from(timed.unit()) {
        Some(rest)
    } else {
        None
    }
}

/// The parts of the rate of the next line, and what is left.
fn rate_after(bytes: &[u8]) -> Option<(u128, u128, &[u8])>
    ensures { MatchOption result (HasNoNext IsRateLine bytes.now)
        (λ found. IsNext IsRateLine bytes.now (record { num = found.0; den = found.1 }) found.2.now) }
{
    let Some((text, rest)) = first_line(bytes) else {
        return None;
    };
    let Some((num, den)) = rate_in(text) else {
        return None;
    };
    Some((num, den, rest))
}

/// Reads the lines before the routes, and gives what is left.
pub(crate) fn read_head<'a>(
    timed: &Timed,
    bytes: &'a [u8],
) -> Result<(Head, &'a [u8]), PlanTextFault>
    ensures ok { IfOk result (λ found. AreRead 6 timed.now at_header bytes.now (at_row found.0 [] []) found.1.now) }
    ensures err { IfErr result (λ fault. IsPlanTextFault timed.now bytes.now fault) }
{
    let Some((series, rest)) = header_after(timed, bytes) else {
        return Err(PlanTextFault::Line(1));
    };
    let Some(rest) = unit_after(timed, rest) else {
        return Err(PlanTextFault::Line(2));
    };
    let Some((period, rest)) = number_after(b"period ", rest) else {
        return Err(PlanTextFault::Line(3));
    };
    let Some((tasks, rest)) = number_after(b"tasks ", rest) else {
        return Err(PlanTextFault::Line(4));
    };
    let Some((depth, rest)) = number_after(b"depth ", rest) else {
        return Err(PlanTextFault::Line(5));
    };
    let Some((num, den, rest)) = rate_after(rest) else {
        return Err(PlanTextFault::Line(6));
    };
    let head = Head {
        series,
        period,
        tasks,
        depth,
        num,
        den,
    };
    Ok((head, rest))
}
