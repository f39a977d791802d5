//! The answer of the simplex.

ghost use Rattle.std.specs.Prelude.{◌≡◌, ◌≢◌, ℕ, ℤ, pos, ◌+◌, ◌<◌, ◌≤◌, ◌^◌, ◌≤ℤ◌, nat_abs, All, OnOk, IfOk, Err, Some};
ghost use Rattle.linear_program.specs.Tableaux.{TableauView, IsCanonical};
ghost use Rattle.linear_program.specs.Programmes.{LpView, IsLp};
ghost use Rattle.linear_program.specs.Starts.{start_tableau, IsBoundedStart};
ghost use Rattle.exact_simplex.specs.Bland.{bland_run};
ghost use Rattle.exact_simplex.specs.Optima.{row_of, value_of, price_of, best_of, first_terms, optimum_of, HasEnded, IsOptimal};
ghost use Rattle.exact_simplex.specs.Answers.{answer_of, tableau_of, IsReached};

use crate::bland::run;
use crate::fault::SolveFault;
use linear_program::{Certificate, Optimum, Tableau};
use listed::{Listed, NoMemory};
use ratio_core::Ratio;
use std::alloc::Global;

/// The row in which a column is basic.
fn basic_row<T: Tableau>(tableau: &T, column: u32) -> Option<u32>
    ensures { result ≡ row_of (T.tableau tableau.now).basic (T.tableau tableau.now).constraints column }
{
    let mut found = None;
    for row in 0..tableau.rows() - 1 {
        if tableau.basic(row) == column {
            found = Some(row);
        }
    }
    found
}

/// The value of a column.
fn value<T: Tableau>(tableau: &T, column: u32) -> Ratio
    requires canonical { IsCanonical (T.tableau tableau.now) }
    requires column { column < (T.tableau tableau.now).values }
    ensures { result ≡ value_of (T.tableau tableau.now) column }
{
    let side = tableau.columns() - 1;
    match basic_row(tableau, column) {
        Some(row) => Ratio::new(
            tableau.cell(row, side).unsigned_abs(),
            tableau.cell(row, column).unsigned_abs(),
        ),
        None => Ratio::from(0u128),
    }
}

/// The values of all columns.
fn values<T: Tableau>(alloc: Global, tableau: &T) -> Result<Listed<Ratio>, NoMemory>
    requires { IsCanonical (T.tableau tableau.now) }
    ensures { IfOk result (λ xs. xs ≡ first_terms (value_of (T.tableau tableau.now)) (T.tableau tableau.now).values) }
{
    let mut values = Listed::new(alloc);
    for column in 0..tableau.columns() - tableau.rows() - 1 {
        values.push(value(tableau, column))?;
    }
    Ok(values)
}

/// The prices of all rows.
fn prices<T: Tableau>(alloc: Global, tableau: &T) -> Result<Listed<i128>, NoMemory>
    requires { HasEnded (T.tableau tableau.now) }
    ensures value { IfOk result (λ ys. ys ≡ first_terms (price_of (T.tableau tableau.now)) (T.tableau tableau.now).constraints) }
    ensures small { IfOk result (λ ys. All (λ price. nat_abs price < 2 ^ 127) ys) }
{
    let last = tableau.rows() - 1;
    let first = tableau.columns() - tableau.rows() - 1;
    let mut prices = Listed::new(alloc);
    for row in 0..last {
        prices.push(tableau.cell(last, first + row))?;
    }
    Ok(prices)
}

/// The values and the certificate of a tableau at which a run has ended.
fn optimum<T: Tableau>(alloc: Global, tableau: &T) -> Result<Optimum, NoMemory>
    requires canonical { IsCanonical (T.tableau tableau.now) }
    requires ended { HasEnded (T.tableau tableau.now) }
    requires best { pos 0 ≤ℤ best_of (T.tableau tableau.now) }
    ensures { IfOk result (λ o. o ≡ optimum_of (T.tableau tableau.now)) }
{
    let last = tableau.rows() - 1;
    let side = tableau.columns() - 1;
    let values = values(alloc, tableau)?;
    let prices = prices(alloc, tableau)?;
    Ok(Optimum {
        values,
        certificate: Certificate::new(
            tableau.cell(last, side - 1),
            tableau.cell(last, side),
            prices,
        ),
    })
}

/// Solves the programme that a tableau starts from, with at most so many pivots by Bland's rule, in exact arithmetic.
///
/// Values and prices are those of the tableau at which the run ends, and prove each other best. Takes one pass over the last row and one
/// over a column for each pivot, beside the pivot itself.
///
/// # Errors
///
/// `Overflow` and `Spent` where the run comes to a pivot that overflows, or isn't ended after `limit` pivots; `NoMemory` where memory runs
/// out. The tableau is then the one that the run had reached.
pub fn solve<T: Tableau>(alloc: Global, tableau: &mut T, limit: u64) -> Result<Optimum, SolveFault>
    requires { IsBoundedStart (T.tableau tableau.old) }
    ensures exact { result ≢ Err SolveFault.NoMemory → answer_of limit (bland_run limit (T.tableau tableau.old)) ≡ Some result }
    ensures tableau { result ≢ Err SolveFault.NoMemory → T.tableau tableau.new ≡ tableau_of (bland_run limit (T.tableau tableau.old)) }
    ensures reached { IsReached limit (T.tableau tableau.old) (T.tableau tableau.new) }
    ensures optimal { (p : LpView) → IsLp p → T.tableau tableau.old ≡ start_tableau p → IfOk result (IsOptimal p) }
{
    run(tableau, limit)?;
    Ok(optimum(alloc, tableau)?)
}
