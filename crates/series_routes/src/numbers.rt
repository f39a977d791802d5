//! The whole numbers by which a solution is scaled.

ghost use Rattle.std.specs.Prelude.{◌≡◌, ◌*◌, ◌<◌, ◌≤◌, ◌^◌, [], ◌∷◌, All, length, IfOk};
ghost use Rattle.schedule_model.specs.Operations.{cost_of};
ghost use Rattle.programme_rows.specs.Listings.{each_where};
ghost use Rattle.series_routes.specs.Numbers.{goes_over, multiple_of, common_denominator, product_of};

use flow_routes::Flow;
use listed::NoMemory;
use platform_file::Timed;
use ratio_core::{Ratio, lcm_within};
use std::fmt;

/// The most ticks of a period.
const MOST_TICKS: u128 = 1 << 100;

/// A step on the way to the ticks of a period.
#[derive(Clone, Copy, Debug, PartialEq, Eq)]
pub enum PeriodStep {
    /// The least common multiple of the denominators of the solution.
    Denominators,
    /// The least common multiple of the costs of the links that carry something.
    Costs,
    /// The product of the two.
    Product,
}

impl fmt::Display for PeriodStep {
    ghost use Rattle.std.specs.Prelude.{Some};
    ghost use Rattle.series_routes.specs.Numbers.{step_text};

    ghost output = { λ step. Some (step_text step) };

    fn fmt<W: fmt::Write>(&self, f: &mut fmt::Formatter<W>) -> fmt::Result {
        match self {
            PeriodStep::Denominators => write!(f, "denominators"),
            PeriodStep::Costs => write!(f, "costs"),
            PeriodStep::Product => write!(f, "product"),
        }
    }
}

/// By which whole numbers a solution is scaled.
#[derive(Clone, Copy, Debug, PartialEq, Eq)]
pub struct Scale {
    /// In so many ticks each node computes and each link carries a whole number of tasks.
    pub ticks: u128,
    /// A slot that is so many times as long holds a whole number of tasks.
    pub times: u128,
}

/// Why a solution has no table. `Display` writes the line that names the fault, without a line feed.
#[derive(Clone, Copy, Debug, PartialEq, Eq)]
pub enum TableFault {
    /// Its period exceeds 2^100 ticks: at this step the multiple so far and the next number, or the two factors.
    Period {
        step: PeriodStep,
        left: u128,
        right: u128,
    },
    /// Memory ran out.
    NoMemory,
}

impl fmt::Display for TableFault {
    ghost use Rattle.std.specs.Prelude.{Some};
    ghost use Rattle.series_routes.specs.Numbers.{table_fault_text};

    ghost output = { λ fault. Some (table_fault_text fault) };

    fn fmt<W: fmt::Write>(&self, f: &mut fmt::Formatter<W>) -> fmt::Result {
        match self {
            TableFault::Period { step, left, right } => {
                write!(f, "period overflow at {step}: {left} and {right}")
            }
            TableFault::NoMemory => write!(f, "out of memory"),
        }
    }
}

impl From<NoMemory> for TableFault {
    ghost use Rattle.std.specs.Prelude.{◌≡◌};
    ghost use Rattle.series_routes.specs.declared.numbers.TableFault.TheVariants.{NoMemory as OutOfMemory};

    ghost from_gives = { λ _ fault. fault ≡ OutOfMemory };

    fn from(_error: NoMemory) -> TableFault {
        TableFault::NoMemory
    }
}

/// The least common multiple of what stands so far and one number more.
fn multiple(step: PeriodStep, left: u128, right: u128) -> Result<u128, TableFault>
    requires left { 1 ≤ left }
    requires right { 1 ≤ right }
    ensures value { result ≡ multiple_of step left (right ∷ []) }
    ensures some { IfOk result (λ n. 1 ≤ n) }
    ensures bounded { IfOk result (λ n. n ≤ 2 ^ 100) }
{
    lcm_within(left, right, MOST_TICKS).ok_or(TableFault::Period { step, left, right })
}

/// The least number that makes every value whole.
pub(crate) fn common_denominator(values: &[Ratio]) -> Result<u128, TableFault>
    ensures value { result ≡ common_denominator values.now }
    ensures some { IfOk result (λ n. 1 ≤ n) }
{
    let mut common = 1;
    for value in values {
        common = multiple(PeriodStep::Denominators, common, value.den())?;
    }
    Ok(common)
}

/// Whether a link carries something in one of the flows.
fn is_in_use(flows: &[Flow], link: usize) -> bool
    requires { All (λ flow. link < length flow.amounts) flows.now }
    ensures { result ≡ goes_over flows.now link }
{
    for flow in flows {
        if flow.amounts.as_slice()[link] > 0 {
            return true;
        }
    }
    false
}

/// The least common multiple of the costs of the links that carry something, in the order of the links, given the flows of a solution.
pub(crate) fn common_cost(timed: &Timed, flows: &[Flow]) -> Result<u128, TableFault>
    requires { All (λ flow. length flow.amounts ≡ length timed.now.platform.links) flows.now }
    ensures value { result ≡ multiple_of PeriodStep.Costs 1 (each_where (goes_over flows.now) (cost_of timed.now) (length timed.now.platform.links)) }
    ensures some { IfOk result (λ n. 1 ≤ n) }
{
    timed.known();
    let mut common = 1;
    for link in 0..timed.platform().links().len() {
        if is_in_use(flows, link) {
            common = multiple(
                PeriodStep::Costs,
                common,
                u128::from(timed.cost(link as u32)),
            )?;
        }
    }
    Ok(common)
}

/// The product, where it is a period's.
pub(crate) fn product(left: u128, right: u128) -> Result<u128, TableFault>
    ensures value { result ≡ product_of left right }
    ensures period { IfOk result (λ ticks. (ticks ≡ left * right) × (ticks ≤ 2 ^ 100)) }
{
    let step = PeriodStep::Product;
    match left.checked_mul(right) {
        Some(ticks) if ticks <= MOST_TICKS => Ok(ticks),
        _ => Err(TableFault::Period { step, left, right }),
    }
}
