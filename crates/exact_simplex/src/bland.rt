//! Bland's rule over any tableau.

ghost use Rattle.std.specs.Prelude.{◌≡◌, ℕ, ℤ, pos, ◌+◌, ◌-◌, ◌<◌, ◌≤◌, ◌<ℤ◌, OnOk, OnErr, Err, Some, None, IsSome};
ghost use Rattle.linear_program.specs.Tableaux.{TableauView, width, IsCanonical, IsDerived};
ghost use Rattle.linear_program.specs.Starts.{IsBoundedStart};
ghost use Rattle.exact_simplex.specs.Optima.{HasEnded};
ghost use Rattle.exact_simplex.specs.Answers.{IsReached};
ghost use Rattle.exact_simplex.specs.Bland.{entering_column, leaves_before, leaving_row, Run, bland_run};

use crate::fault::SolveFault;
use linear_program::{PivotFault, Tableau};
use ratio_core::cmp_parts;
use std::cmp::Ordering;

/// The first column that would gain.
fn entering<T: Tableau>(tableau: &T) -> Option<u32>
    ensures { result ≡ entering_column (T.tableau tableau.now) }
{
    let last = tableau.rows() - 1;
    for column in 0..tableau.columns() - 2 {
        if tableau.cell(last, column) < 0 {
            return Some(column);
        }
    }
    None
}

/// Whether a row leaves before another one, by their ratios of right side to cell and then by their basic columns.
fn goes_before<T: Tableau>(tableau: &T, column: u32, row: u32, other: u32) -> bool
    requires column { column < width (T.tableau tableau.now) }
    requires row { row < (T.tableau tableau.now).constraints }
    requires other { other < (T.tableau tableau.now).constraints }
    requires row_positive { pos 0 <ℤ (T.tableau tableau.now).cell row column }
    requires other_positive { pos 0 <ℤ (T.tableau tableau.now).cell other column }
    ensures { result ≡ leaves_before (T.tableau tableau.now) column row other }
{
    let side = tableau.columns() - 1;
    let order = cmp_parts(
        tableau.cell(row, side).unsigned_abs(),
        tableau.cell(row, column).unsigned_abs(),
        tableau.cell(other, side).unsigned_abs(),
        tableau.cell(other, column).unsigned_abs(),
    );
    match order {
        Ordering::Less => true,
        Ordering::Equal => tableau.basic(row) < tableau.basic(other),
        Ordering::Greater => false,
    }
}

/// Of the rows with a positive cell in the column, the one that leaves.
fn leaving<T: Tableau>(tableau: &T, column: u32) -> Option<u32>
    requires { column < width (T.tableau tableau.now) }
    ensures { result ≡ leaving_row (T.tableau tableau.now) column }
{
    let mut best = None;
    for row in 0..tableau.rows() - 1 {
        if tableau.cell(row, column) > 0 {
            best = match best {
                Some(other) if !goes_before(tableau, column, row, other) => Some(other),
                _ => Some(row),
            };
        }
    }
    best
}

/// Pivots by Bland's rule until no column would gain: the first such column enters, and the row of least ratio leaves, of equal ones the
/// one of least basic column. So no tableau comes twice (Bland).
pub fn run<T: Tableau>(tableau: &mut T, limit: u64) -> Result<(), SolveFault>
    requires { IsBoundedStart (T.tableau tableau.old) }
    ensures ended { OnOk result (bland_run limit (T.tableau tableau.old) ≡ Run.ended (T.tableau tableau.new)) }
    ensures overflow { (n i j : ℕ) → result ≡ Err (SolveFault.Overflow n i j)
        → bland_run limit (T.tableau tableau.old) ≡ Run.overflow n i j (T.tableau tableau.new) }
    ensures spent { (n : ℕ) → result ≡ Err (SolveFault.Spent n) → n ≡ limit × bland_run limit (T.tableau tableau.old) ≡ Run.spent (T.tableau tableau.new) }
    ensures reached { IsReached limit (T.tableau tableau.old) (T.tableau tableau.new) }
    ensures gainless { OnOk result (HasEnded (T.tableau tableau.new)) }
    ensures canonical { IsCanonical (T.tableau tableau.new) }
    ensures derived { IsDerived (T.tableau tableau.old) (T.tableau tableau.new) }
{
    let mut made = 0;
    while let Some(column) = entering(tableau) {
        if made == limit {
            return Err(SolveFault::Spent { limit });
        }
        let row = leaving(tableau, column).unwrap();
        match tableau.pivot(row, column) {
            Ok(()) => made += 1,
            Err(PivotFault::Overflow { row, column }) => {
                return Err(SolveFault::Overflow {
                    pivots: made,
                    row,
                    column,
                });
            }
            Err(PivotFault::NoMemory) => return Err(SolveFault::NoMemory),
        }
    }
    Ok(())
}
