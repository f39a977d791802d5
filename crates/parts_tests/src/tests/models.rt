//! Lists and programmes of which the prover knows the items.

ghost use Rattle.std.specs.Prelude.{◌≡◌, pos, ◌<ℤ◌, [], ◌∷◌, IfOk};

use linear_program::{Lp, Row};
use listed::{Listed, NoMemory};
use std::alloc::Global;

/// A list of these items.
pub fn listed_of<T: Copy + Drop>(alloc: Global, items: &[T]) -> Result<Listed<T>, NoMemory>
    ensures { IfOk result (λ list. list ≡ items.now) }
{
    let mut list = Listed::new(alloc);
    for item in items {
        list.push(*item)?;
    }
    Ok(list)
}

fn row(alloc: Global, cells: &[(u32, i128)]) -> Result<Row, NoMemory>
    ensures { IfOk result (λ row. row ≡ record { cells = cells.now; rhs = pos 1 }) }
{
    Ok(Row::new(listed_of(alloc, cells)?, 1))
}

fn one_row(alloc: Global, cells: &[(u32, i128)]) -> Result<Listed<Row>, NoMemory>
    ensures { IfOk result (λ rows. rows ≡ record { cells = cells.now; rhs = pos 1 } ∷ []) }
{
    let mut rows = Listed::new(alloc);
    rows.push(row(alloc, cells)?)?;
    Ok(rows)
}

fn two_rows(
    alloc: Global,
    first: &[(u32, i128)],
    second: &[(u32, i128)],
) -> Result<Listed<Row>, NoMemory>
    ensures { IfOk result (λ rows. rows ≡ record { cells = first.now; rhs = pos 1 } ∷ (record { cells = second.now; rhs = pos 1 } ∷ [])) }
{
    let mut rows = one_row(alloc, first)?;
    rows.push(row(alloc, second)?)?;
    Ok(rows)
}

/// One column of gain 1, and one row, 2 x <= 1.
pub fn halves(alloc: Global) -> Result<Lp, NoMemory>
    ensures { IfOk result (λ lp. lp ≡ record { columns = 1; rows = record { cells = (0, pos 2) ∷ []; rhs = pos 1 } ∷ []; gain = pos 1 ∷ [] }) }
{
    let rows = one_row(alloc, &[(0, 2)])?;
    Ok(Lp::new(1, rows, listed_of(alloc, &[1])?))
}

/// Two columns of gain 1, and the rows a x + y <= 1 and b x + a y <= 1.
pub fn crossing(alloc: Global, a: i128, b: i128) -> Result<Lp, NoMemory>
    requires first { pos 0 <ℤ a }
    requires second { pos 0 <ℤ b }
    ensures { IfOk result (λ lp. lp ≡ record { columns = 2; rows = record { cells = (0, a) ∷ ((1, pos 1) ∷ []); rhs = pos 1 } ∷ (record { cells = (0, b) ∷ ((1, a) ∷ []); rhs = pos 1 } ∷ []); gain = pos 1 ∷ (pos 1 ∷ []) }) }
{
    let rows = two_rows(alloc, &[(0, a), (1, 1)], &[(0, b), (1, a)])?;
    Ok(Lp::new(2, rows, listed_of(alloc, &[1, 1])?))
}
