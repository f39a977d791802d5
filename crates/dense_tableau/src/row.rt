//! One row of a tableau in a pivot.

ghost use Rattle.std.specs.Prelude.{◌≡◌, ◌≢◌, ℕ, ℤ, pos, ◌*◌, ◌^◌, ◌<◌, ◌≤◌, ◌-ℤ◌, ◌*ℤ◌, ◌<ℤ◌, nat_abs, int_div, true, false, cond, nat_eq, length, take, IsSome, None, is_none};
ghost use Rattle.dense_tableau.specs.Flat.{entry, AreColumns};
ghost use Rattle.linear_program.specs.Pivots.{first_below, row_divisor, row_overflow, changed_row};
ghost use Rattle.linear_program.specs.Sizes.{fitting_combination};
ghost use Rattle.ratio_core.specs.Fraction.{gcd_of};

use linear_program::combined;
use ratio_core::gcd;

/// Two products below this number have a difference that fits.
const HALF: u128 = 85070591730234615865843651857942052864;

/// By how much a row and the pivot's row count in their combination.
#[derive(Clone, Copy, Debug, PartialEq, Eq)]
pub struct Multipliers {
    /// The factor of the row, above 0.
    pub own: i128,
    /// The factor of the pivot's row.
    pub pivot: i128,
}

/// The whole part of a cell over a divisor.
fn quotient(cell: i128, divisor: u128) -> i128
    requires some { 0 < divisor }
    requires fits { divisor < 2 ^ 127 }
    ensures { result ≡ int_div cell (pos divisor) }
{
    cell / (divisor as i128)
}

/// The same, without a division where the cell is 0.
fn sparse_quotient(cell: i128, divisor: u128) -> i128
    requires some { 0 < divisor }
    requires fits { divisor < 2 ^ 127 }
    ensures { result ≡ int_div cell (pos divisor) }
{
    if cell == 0 {
        0
    } else {
        quotient(cell, divisor)
    }
}

/// The two cells of the pivot's column over their greatest common divisor.
fn multipliers_of(pivot_cell: i128, cell: i128) -> Multipliers
    requires { pos 0 <ℤ pivot_cell }
    ensures own { result.own ≡ int_div pivot_cell (pos (gcd_of (nat_abs pivot_cell) (nat_abs cell))) }
    ensures pivot { result.pivot ≡ int_div cell (pos (gcd_of (nat_abs pivot_cell) (nat_abs cell))) }
{
    let divisor = gcd(pivot_cell.unsigned_abs(), cell.unsigned_abs());
    Multipliers {
        own: quotient(pivot_cell, divisor),
        pivot: quotient(cell, divisor),
    }
}

/// The greatest size of a row's cells.
pub fn size_of(row: &[i128]) -> u128
    ensures { (j : ℕ) → j < length row.now → nat_abs (entry row.now j) ≤ result }
{
    let mut size = 0;
    for cell in row {
        if *cell != 0 {
            size = size.max(cell.unsigned_abs());
        }
    }
    size
}

/// Whether no product of a factor and a cell of at most this size reaches half of what fits.
fn stays_small(factor: i128, size: u128) -> bool
    ensures { result ≡ true → nat_abs factor * size < 2 ^ 126 }
{
    match factor.unsigned_abs().checked_mul(size) {
        Some(product) => product < HALF,
        None => false,
    }
}

/// Whether a product or the difference in the combination of two cells overflows.
fn overflows_at(by: &Multipliers, cell: i128, pivot_cell: i128) -> bool
    ensures { result ≡ is_none (fitting_combination by.now.own cell by.now.pivot pivot_cell) }
{
    combined(by.own, cell, by.pivot, pivot_cell).is_none()
}

/// The first column at which a row's combination with the pivot's row overflows.
fn overflow_along(row: &[i128], pivot_row: &[i128], by: &Multipliers, column: u32) -> Option<u32>
    requires same { length row.now ≡ length pivot_row.now }
    requires narrow { length row.now < 2 ^ 32 }
    ensures { result
        ≡ first_below (length row.now) (λ j. cond (nat_eq j column) false (is_none (fitting_combination by.now.own (entry row.now j) by.now.pivot (entry pivot_row.now j)))) }
{
    for j in 0..row.len() as u32 {
        if j != column && overflows_at(by, row[j as usize], pivot_row[j as usize]) {
            return Some(j);
        }
    }
    None
}

/// The first column at which a row overflows in a pivot. The sizes of the rows mostly show that there is none.
pub fn overflow_in_row(
    row: &[i128],
    pivot_row: &[i128],
    pivot_size: u128,
    column: u32,
) -> Option<u32>
    requires same { length row.now ≡ length pivot_row.now }
    requires narrow { length row.now < 2 ^ 32 }
    requires column { column < length row.now }
    requires positive { pos 0 <ℤ entry pivot_row.now column }
    requires pivot_size { (j : ℕ) → j < length pivot_row.now → nat_abs (entry pivot_row.now j) ≤ pivot_size }
    ensures { result ≡ row_overflow (length row.now) (entry pivot_row.now) (entry row.now) column }
{
    let cell = row[column as usize];
    if cell == 0 {
        return None;
    }
    let by = multipliers_of(pivot_row[column as usize], cell);
    if stays_small(by.own, size_of(row)) && stays_small(by.pivot, pivot_size) {
        return None;
    }
    overflow_along(row, pivot_row, &by, column)
}

/// The difference of two products, where it fits.
fn difference_of_products(by: &Multipliers, cell: i128, pivot_cell: i128) -> i128
    requires { IsSome (fitting_combination by.now.own cell by.now.pivot pivot_cell) }
    ensures value { result ≡ by.now.own *ℤ cell -ℤ by.now.pivot *ℤ pivot_cell }
    ensures small { nat_abs result < 2 ^ 127 }
{
    by.own * cell - by.pivot * pivot_cell
}

/// Makes a cell its combination with the one below it in the pivot's row. Most cells of a sparse programme are 0 in both, and stay.
fn combine_at(row: &mut [i128], pivot_row: &[i128], by: &Multipliers, j: usize)
    requires same { length row.old ≡ length pivot_row.now }
    requires within { j < length row.old }
    requires fits { IsSome (fitting_combination by.now.own (entry row.old j) by.now.pivot (entry pivot_row.now j)) }
    ensures length { length row.new ≡ length row.old }
    ensures cell { entry row.new j ≡ by.now.own *ℤ entry row.old j -ℤ by.now.pivot *ℤ entry pivot_row.now j }
    ensures small { nat_abs (entry row.new j) < 2 ^ 127 }
    ensures beside { (k : ℕ) → k ≢ j → entry row.new k ≡ entry row.old k }
{
    let (cell, pivot_cell) = (row[j], pivot_row[j]);
    if cell != 0 || pivot_cell != 0 {
        row[j] = difference_of_products(by, cell, pivot_cell);
    }
}

/// Makes a cell its combination with the one below it, and 0 in the pivot's column.
fn combine_column(row: &mut [i128], pivot_row: &[i128], by: &Multipliers, column: u32, j: usize)
    requires same { length row.old ≡ length pivot_row.now }
    requires within { j < length row.old }
    requires fits { j ≢ column → IsSome (fitting_combination by.now.own (entry row.old j) by.now.pivot (entry pivot_row.now j)) }
    ensures length { length row.new ≡ length row.old }
    ensures cell { j ≢ column → entry row.new j ≡ by.now.own *ℤ entry row.old j -ℤ by.now.pivot *ℤ entry pivot_row.now j }
    ensures zero { j ≡ column → entry row.new j ≡ pos 0 }
    ensures small { nat_abs (entry row.new j) < 2 ^ 127 }
    ensures beside { (k : ℕ) → k ≢ j → entry row.new k ≡ entry row.old k }
{
    if j == column as usize {
        row[j] = 0;
    } else {
        combine_at(row, pivot_row, by, j);
    }
}

/// Makes a row its combination with the pivot's row, cell by cell.
fn combine_all(row: &mut [i128], pivot_row: &[i128], by: &Multipliers, column: u32)
    requires same { length row.old ≡ length pivot_row.now }
    requires fits { (j : ℕ) → j < length row.old → j ≢ column
        → IsSome (fitting_combination by.now.own (entry row.old j) by.now.pivot (entry pivot_row.now j)) }
    ensures length { length row.new ≡ length row.old }
    ensures cells { (j : ℕ) → j < length row.old → j ≢ column → entry row.new j ≡ by.now.own *ℤ entry row.old j -ℤ by.now.pivot *ℤ entry pivot_row.now j }
    ensures zero { column < length row.old → entry row.new column ≡ pos 0 }
    ensures small { (j : ℕ) → j < length row.old → nat_abs (entry row.new j) < 2 ^ 127 }
{
    for j in 0..row.len() {
        combine_column(row, pivot_row, by, column, j);
    }
}

/// The same for a row whose own factor is 1: it stays in each column that isn't listed, where the pivot's row is 0.
fn combine_listed(
    row: &mut [i128],
    pivot_row: &[i128],
    columns: &[u32],
    by: &Multipliers,
    column: u32,
)
    requires same { length row.old ≡ length pivot_row.now }
    requires fits { (j : ℕ) → j < length row.old → j ≢ column
        → IsSome (fitting_combination by.now.own (entry row.old j) by.now.pivot (entry pivot_row.now j)) }
    requires own { by.now.own ≡ pos 1 }
    requires columns { AreColumns pivot_row.now columns.now }
    requires some { entry pivot_row.now column ≢ pos 0 }
    ensures length { length row.new ≡ length row.old }
    ensures cells { (j : ℕ) → j < length row.old → j ≢ column → entry row.new j ≡ by.now.own *ℤ entry row.old j -ℤ by.now.pivot *ℤ entry pivot_row.now j }
    ensures zero { column < length row.old → entry row.new column ≡ pos 0 }
    ensures small { (j : ℕ) → j < length row.old → nat_abs (entry row.new j) < 2 ^ 127 }
{
    for k in 0..columns.len() {
        combine_column(row, pivot_row, by, column, columns[k] as usize);
    }
}

/// Makes a row its combination with the pivot's row, which is 0 in the pivot's column.
fn combine(row: &mut [i128], pivot_row: &[i128], columns: &[u32], by: &Multipliers, column: u32)
    requires same { length row.old ≡ length pivot_row.now }
    requires fits { (j : ℕ) → j < length row.old → j ≢ column
        → IsSome (fitting_combination by.now.own (entry row.old j) by.now.pivot (entry pivot_row.now j)) }
    requires columns { AreColumns pivot_row.now columns.now }
    requires some { entry pivot_row.now column ≢ pos 0 }
    ensures length { length row.new ≡ length row.old }
    ensures cells { (j : ℕ) → j < length row.old → j ≢ column → entry row.new j ≡ by.now.own *ℤ entry row.old j -ℤ by.now.pivot *ℤ entry pivot_row.now j }
    ensures zero { column < length row.old → entry row.new column ≡ pos 0 }
    ensures small { (j : ℕ) → j < length row.old → nat_abs (entry row.new j) < 2 ^ 127 }
{
    if by.own == 1 {
        combine_listed(row, pivot_row, columns, by, column);
    } else {
        combine_all(row, pivot_row, by, column);
    }
}

/// Writes the columns in which a row isn't 0, and gives their number.
pub fn nonzero_columns(row: &[i128], columns: &mut [u32]) -> usize
    requires room { length row.now ≤ length columns.old }
    requires narrow { length row.now < 2 ^ 32 }
    ensures listed { AreColumns row.now (take result columns.new) }
    ensures within { result ≤ length columns.old }
    ensures room { length columns.new ≡ length columns.old }
{
    let mut count = 0;
    for j in 0..row.len() {
        if row[j] != 0 {
            columns[count] = j as u32;
            count += 1;
        }
    }
    count
}

/// The greatest common divisor of what was found so far and a cell, without a division where the cell is 0, and with one where it is a
/// multiple.
fn common_divisor(divisor: u128, size: u128) -> u128
    ensures { result ≡ gcd_of divisor size }
{
    if size == 0 {
        divisor
    } else {
        gcd(size, divisor)
    }
}

/// The greatest common divisor of a row, 0 where all cells are 0. It is looked for no further once it is 1.
fn divisor_of(row: &[i128]) -> u128
    requires { (j : ℕ) → j < length row.now → nat_abs (entry row.now j) < 2 ^ 127 }
    ensures value { result ≡ row_divisor (length row.now) (entry row.now) }
    ensures fits { result < 2 ^ 127 }
{
    let mut divisor = 0;
    for cell in row {
        divisor = common_divisor(divisor, cell.unsigned_abs());
        if divisor == 1 {
            return 1;
        }
    }
    divisor
}

/// Divides a row.
fn divide(row: &mut [i128], divisor: u128)
    requires some { 0 < divisor }
    requires fits { divisor < 2 ^ 127 }
    ensures length { length row.new ≡ length row.old }
    ensures divided { (j : ℕ) → j < length row.old → entry row.new j ≡ int_div (entry row.old j) (pos divisor) }
{
    for cell in row.iter_mut() {
        *cell = sparse_quotient(*cell, divisor);
    }
}

/// Whether a row is 1 or -1 in a column, which leaves it no greater divisor.
fn is_unit_at(row: &[i128], column: u32) -> bool
    ensures { result ≡ true → row_divisor (length row.now) (entry row.now) ≡ 1 }
{
    match row.get(column as usize) {
        Some(cell) => cell.unsigned_abs() == 1,
        None => false,
    }
}

/// Divides a row by the greatest common divisor of its cells, which is looked for at one column first, and along the row where it isn't
/// 1 there.
fn reduce(row: &mut [i128], likely: u32)
    requires { (j : ℕ) → j < length row.old → nat_abs (entry row.old j) < 2 ^ 127 }
    ensures length { length row.new ≡ length row.old }
    ensures reduced { (j : ℕ) → j < length row.old → entry row.new j ≡ int_div (entry row.old j) (pos (row_divisor (length row.old) (entry row.old))) }
{
    if is_unit_at(row, likely) {
        return;
    }
    let divisor = divisor_of(row);
    if divisor > 1 {
        divide(row, divisor);
    }
}

/// Changes a row as a pivot does, where it doesn't overflow: a row that is 0 in the pivot's column stays. In its basic column it mostly is
/// 1, so that there is nothing to divide.
pub fn change_row(row: &mut [i128], pivot_row: &[i128], columns: &[u32], column: u32, basic: u32)
    requires columns { AreColumns pivot_row.now columns.now }
    requires same { length row.old ≡ length pivot_row.now }
    requires column { column < length row.old }
    requires positive { pos 0 <ℤ entry pivot_row.now column }
    requires fits { row_overflow (length row.old) (entry pivot_row.now) (entry row.old) column ≡ None }
    ensures length { length row.new ≡ length row.old }
    ensures changed { (j : ℕ) → j < length row.old → entry row.new j ≡ changed_row (length row.old) (entry pivot_row.now) (entry row.old) column j }
{
    let cell = row[column as usize];
    if cell == 0 {
        return;
    }
    let by = multipliers_of(pivot_row[column as usize], cell);
    combine(row, pivot_row, columns, &by, column);
    reduce(row, basic);
}
