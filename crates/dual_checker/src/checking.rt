//! The check of a certificate: multiplications and comparisons alone.

ghost use Rattle.std.specs.Prelude.{◌≡◌, ◌<◌, ◌≤◌, ◌^◌, ℕ, ◌*◌, ℤ, pos, ◌+ℤ◌, ◌*ℤ◌, nat_abs, length, option_and_then};
ghost use Rattle.platform_file.specs.Ticks.{TimedView, IsTimed};
ghost use Rattle.schedule_model.specs.declared.schedule.Series.TheVariants.{Tasking, Scatter};
ghost use Rattle.schedule_model.specs.Throughput.{IsUpperRate};
ghost use Rattle.linear_program.specs.Programmes.{RowView, cell_at, row_at};
ghost use Rattle.linear_program.specs.Sizes.{fitting};
ghost use Rattle.linear_program.specs.Pivots.{first_below};
ghost use Rattle.std.specs.Prelude.{int_lt};
ghost use Rattle.tasking_program.specs.Programme.{tasking_programme};
ghost use Rattle.scatter_program.specs.Programme.{scatter_programme};
ghost use Rattle.dual_checker.specs.Verdicts.{price_at, fitting_more, fitting_sum, covered, column_fault, first_fault, value_verdict, verdict_of, IsProof, ProvesOrOverflows};

use crate::verdict::Verdict;
use linear_program::{Certificate, Lp, Row, fitting_product};

/// The sum, where its size is at most 2^127 - 1.
fn fitting_sum(a: i128, b: i128) -> Option<i128>
    ensures { result ≡ fitting (a +ℤ b) }
{
    match a.checked_add(b) {
        Some(sum) if sum != i128::MIN => Some(sum),
        _ => None,
    }
}

/// A sum with a price times a number more, where there is one and the product and the sum fit.
fn fitting_more(sum: Option<i128>, price: i128, number: i128) -> Option<i128>
    ensures { result ≡ option_and_then (λ sum. fitting_more sum price number) sum }
{
    fitting_sum(sum?, fitting_product(price, number)?)
}

/// A row's cell in a column, 0 where none stands there.
fn cell_at(row: &Row, column: u32) -> i128
    ensures { result ≡ cell_at row.now.cells column }
{
    for cell in row.cells() {
        if cell.0 == column {
            return cell.1;
        }
    }
    0
}

/// What the prices make of a column's cells, where every product and partial sum fits.
fn column_sum(lp: &Lp, prices: &[i128], column: u32) -> Option<i128>
    requires { length prices.now ≡ length lp.now.rows }
    ensures { result ≡ fitting_sum prices.now (λ i. cell_at (row_at lp.now i).cells column) (length lp.now.rows) }
{
    let rows = lp.rows();
    let mut sum = Some(0);
    for row in 0..rows.len() {
        sum = fitting_more(sum, prices[row], cell_at(&rows[row], column));
    }
    sum
}

/// What the prices make of the right-hand sides, where every partial sum fits.
fn side_sum(lp: &Lp, prices: &[i128]) -> Option<i128>
    requires { length prices.now ≡ length lp.now.rows }
    ensures { result ≡ fitting_sum prices.now (λ i. (row_at lp.now i).rhs) (length lp.now.rows) }
{
    let rows = lp.rows();
    let mut sum = Some(0);
    for row in 0..rows.len() {
        sum = fitting_more(sum, prices[row], rows[row].rhs());
    }
    sum
}

/// The first price below 0.
fn negative_price(prices: &[i128]) -> Option<u32>
    requires { length prices.now < 2 ^ 32 }
    ensures { result ≡ first_below (length prices.now) (λ k. int_lt (price_at prices.now k) (pos 0)) }
{
    for row in 0..prices.len() as u32 {
        if prices[row as usize] < 0 {
            return Some(row);
        }
    }
    None
}

/// What is wrong with a column whose prices have to sum to at least a number, if anything.
fn uncovered(column: u32, least: Option<i128>, sum: Option<i128>) -> Option<Verdict>
    ensures { result ≡ covered column least sum }
{
    match (least, sum) {
        (Some(least), Some(sum)) => {
            if sum < least {
                Some(Verdict::Column(column))
            } else {
                None
            }
        }
        _ => Some(Verdict::Overflow(column)),
    }
}

/// What is wrong with a column, if anything.
fn column_fault(lp: &Lp, certificate: &Certificate, column: u32) -> Option<Verdict>
    requires prices { length certificate.now.prices ≡ length lp.now.rows }
    requires column { column < lp.now.columns }
    ensures { result ≡ column_fault lp.now certificate.now column }
{
    lp.known();
    let least = fitting_product(certificate.scale(), lp.gain()[column as usize]);
    uncovered(column, least, column_sum(lp, certificate.prices(), column))
}

/// What is wrong with the first column with which something is.
fn first_fault(lp: &Lp, certificate: &Certificate) -> Option<Verdict>
    requires { length certificate.now.prices ≡ length lp.now.rows }
    ensures { result ≡ first_fault lp.now certificate.now lp.now.columns }
{
    for column in 0..lp.columns() {
        let fault = column_fault(lp, certificate, column);
        if fault.is_some() {
            return fault;
        }
    }
    None
}

/// The verdict on the value, where no column is at fault.
fn value_verdict(lp: &Lp, certificate: &Certificate) -> Verdict
    requires { length certificate.now.prices ≡ length lp.now.rows }
    ensures { result ≡ value_verdict lp.now certificate.now }
{
    match side_sum(lp, certificate.prices()) {
        Some(sum) if certificate.best() < sum => Verdict::Value,
        Some(_) => Verdict::Proves,
        None => Verdict::Overflow(lp.columns()),
    }
}

/// What the check says.
fn verdict(lp: &Lp, certificate: &Certificate) -> Verdict
    requires { length certificate.now.prices ≡ length lp.now.rows }
    ensures { result ≡ verdict_of lp.now certificate.now }
{
    lp.known();
    if let Some(row) = negative_price(certificate.prices()) {
        return Verdict::Negative(row);
    }
    match first_fault(lp, certificate) {
        Some(fault) => fault,
        None => value_verdict(lp, certificate),
    }
}

/// Checks that a certificate proves what it says: that no price is below 0, that the prices of each column's cells sum to at least the scale
/// times the column's gain, and those of the right-hand sides to at most the best. Whoever checks needs to trust neither the
/// certificate nor the programme that made it.
///
/// Where a certificate of a platform's programme of tasking proves, no schedule exceeds `best / scale` tasks per tick; where one of its
/// programme of a scatter does, no schedule exceeds `best / scale` messages to every target per tick (clauses `tasking_rate` and
/// `scatter_rate`, per time unit). Takes no memory, and one pass over the rows for each column.
pub fn check(lp: &Lp, certificate: &Certificate) -> Verdict
    requires { length certificate.now.prices ≡ length lp.now.rows }
    ensures verdict { result ≡ verdict_of lp.now certificate.now }
    ensures proof { result ≡ Verdict.Proves → IsProof lp.now certificate.now }
    ensures tasking_rate { (t : TimedView) → IsTimed t → lp.now ≡ tasking_programme t → result ≡ Verdict.Proves
        → IsUpperRate t Tasking (nat_abs certificate.now.best * t.unit) (nat_abs certificate.now.scale) }
    ensures scatter_rate { (t : TimedView) → IsTimed t → 1 ≤ length t.platform.targets → lp.now ≡ scatter_programme t
        → result ≡ Verdict.Proves → IsUpperRate t Scatter (nat_abs certificate.now.best * t.unit) (nat_abs certificate.now.scale) }
    ensures complete { IsProof lp.now certificate.now → ProvesOrOverflows result }
{
    certificate.known();
    tasking_program::prices_bound_rates();
    scatter_program::prices_bound_rates();
    verdict(lp, certificate)
}
