//! Programmes, certificates and optima, their laws, and combinations of cells.

use crate::tests::comparing::{fails_at, holds};
use crate::tests::models::{halves, listed_of};
use linear_program::{
    Certificate, Lp, Optimum, PivotFault, Row, combined, pivots_keep_solutions, prices_bound_gains,
    runs_keep_tableaux,
};
use ratio_core::Ratio;
use std::alloc::Global;
use std::test::Fail;

fn is_row(rows: &[Row]) -> bool {
    match rows {
        [row] => row.rhs() == 1 && row.cells() == [(0, 2)].as_slice(),
        _ => false,
    }
}

fn is_halves(lp: &Lp) -> bool {
    lp.known();
    lp.columns() == 1 && lp.gain() == [1].as_slice() && is_row(lp.rows())
}

#[test]
fn keeps_a_programme(rt: HostRuntime) -> Result<(), Fail> {
    holds(is_halves(&halves(rt.alloc())?), "halves")
}

#[test]
fn cites_laws() {
    prices_bound_gains();
    pivots_keep_solutions();
    runs_keep_tableaux();
}

fn certificate(alloc: Global) -> Result<Certificate, Fail> {
    Ok(Certificate::new(2, 1, listed_of(alloc, &[1])?))
}

fn is_certificate(certificate: &Certificate) -> bool {
    certificate.known();
    certificate.scale() == 2 && certificate.best() == 1 && certificate.prices() == [1].as_slice()
}

fn optimum(alloc: Global) -> Result<Optimum, Fail> {
    Ok(Optimum {
        values: listed_of(alloc, &[Ratio::new(1, 2)])?,
        certificate: certificate(alloc)?,
    })
}

/// Whether an optimum is that of a half.
pub fn is_optimum(optimum: &Optimum) -> bool {
    optimum.values.as_slice() == [Ratio::new(2, 4)].as_slice()
        && is_certificate(&optimum.certificate)
}

#[test]
fn keeps_an_optimum(rt: HostRuntime) -> Result<(), Fail> {
    holds(is_optimum(&optimum(rt.alloc())?), "a half")
}

#[test]
fn compares_faults() -> Result<(), Fail> {
    holds(PivotFault::NoMemory == PivotFault::NoMemory, "NoMemory")
}

const MOST: i128 = i128::MAX;

const HALF: i128 = 1 << 126;

/// p, a, q and b, and p a - q b where it and both products fit.
static COMBINATIONS: [(i128, i128, i128, i128, Option<i128>); 7] = [
    (2, 3, 5, 1, Some(1)),
    (1, MOST, 0, 7, Some(MOST)),
    (1, -MOST, 0, 7, Some(-MOST)),
    (2, HALF, 0, 0, None),
    (0, 0, -2, HALF, None),
    (1, MOST, -1, 1, None),
    (1, -MOST, 1, 1, None),
];

#[test]
fn combines_within_bounds() -> Result<(), Fail> {
    for row in &COMBINATIONS {
        if combined(row.0, row.1, row.2, row.3) != row.4 {
            return fails_at(row);
        }
    }
    Ok(())
}
