//! Certificates read, checked and printed, and texts that are none.

ghost use Rattle.std.specs.Prelude.{◌≡◌, ◌∷◌, [], pos, negsuc, length, IfOk};

use dual_checker::{
    CertificateFault, Verdict, check, print_certificate, read_certificate, texts_are_certificates,
};
use linear_program::{Certificate, Lp, Row};
use listed::Listed;
use schedule_model::Series;
use std::alloc::Global;
use std::test::Fail;

/// Texts, and the first line of each that isn't one of a certificate with one row.
static LINES: [(&str, u64); 10] = [
    ("", 1),
    (
        "prices 1 scatter\nrows 1\nscale 2\nbest 1\nprice 0 1\nend\n",
        1,
    ),
    (
        "prices 1 tasking\nrows 2\nscale 2\nbest 1\nprice 0 1\nend\n",
        2,
    ),
    (
        "prices 1 tasking\nrows 1\nscale 0\nbest 1\nprice 0 1\nend\n",
        3,
    ),
    (
        "prices 1 tasking\nrows 1\nscale 02\nbest 1\nprice 0 1\nend\n",
        3,
    ),
    (
        "prices 1 tasking\nrows 1\nscale 2\nbest -1\nprice 0 1\nend\n",
        4,
    ),
    (
        "prices 1 tasking\nrows 1\nscale 2\nbest 1\nprice 0 -0\nend\n",
        5,
    ),
    (
        "prices 1 tasking\nrows 1\nscale 2\nbest 1\nprice 1 1\nend\n",
        5,
    ),
    (
        "prices 1 tasking\nrows 1\nscale 2\nbest 1\nprice 0 1\nend",
        6,
    ),
    (
        "prices 1 tasking\nrows 1\nscale 2\nbest 1\nprice 0 1\nend\n\n",
        7,
    ),
];

fn fault_of(alloc: Global, text: &str) -> Option<CertificateFault> {
    read_certificate(alloc, Series::Tasking, 1, text.as_bytes()).err()
}

#[test]
fn names_the_first_line_that_differs(rt: HostRuntime) -> Result<(), Fail> {
    texts_are_certificates();
    for (text, line) in &LINES {
        let found = fault_of(rt.alloc(), text);
        if found != Some(CertificateFault::Line(*line)) {
            return Err(Fail::new(format_args!("{found:?} in {text}")));
        }
    }
    Ok(())
}

/// A row with a cell in each of two columns.
fn row(alloc: Global, first: i128, second: i128, rhs: i128) -> Result<Row, Fail>
    ensures { IfOk result (λ row. row ≡ record { cells = (0, first) ∷ (1, second) ∷ []; rhs = rhs }) }
{
    let mut cells = Listed::new(alloc);
    cells.push((0u32, first))?;
    cells.push((1, second))?;
    Ok(Row::new(cells, rhs))
}

fn rows(alloc: Global) -> Result<Listed<Row>, Fail>
    ensures { IfOk result (λ rows. rows ≡ record { cells = (0, pos 2) ∷ (1, pos 1) ∷ []; rhs = pos 1 } ∷ record { cells = (0, pos 1) ∷ (1, negsuc 0) ∷ []; rhs = pos 0 } ∷ []) }
{
    let mut rows = Listed::new(alloc);
    rows.push(row(alloc, 2, 1, 1)?)?;
    rows.push(row(alloc, 1, -1, 0)?)?;
    Ok(rows)
}

fn gain(alloc: Global) -> Result<Listed<i128>, Fail>
    ensures { IfOk result (λ gain. gain ≡ pos 1 ∷ pos 0 ∷ []) }
{
    let mut gain = Listed::new(alloc);
    gain.push(1i128)?;
    gain.push(0)?;
    Ok(gain)
}

/// Two amounts, of which the first gains, 2 x + y <= 1 and x - y <= 0: the most is a third.
fn thirds(alloc: Global) -> Result<Lp, Fail>
    ensures { IfOk result (λ lp. length lp.rows ≡ 2) }
{
    Ok(Lp::new(2, rows(alloc)?, gain(alloc)?))
}

/// Certificates, and what the check says of them.
static VERDICTS: [(&str, Verdict); 8] = [
    (
        "prices 1 tasking\nrows 2\nscale 3\nbest 1\nprice 0 1\nprice 1 1\nend\n",
        Verdict::Proves,
    ),
    (
        "prices 1 tasking\nrows 2\nscale 3\nbest 2\nprice 0 1\nprice 1 1\nend\n",
        Verdict::Proves,
    ),
    (
        "prices 1 tasking\nrows 2\nscale 3\nbest 1\nprice 0 -1\nprice 1 -1\nend\n",
        Verdict::Negative(0),
    ),
    (
        "prices 1 tasking\nrows 2\nscale 3\nbest 1\nprice 0 1\nprice 1 -1\nend\n",
        Verdict::Negative(1),
    ),
    (
        "prices 1 tasking\nrows 2\nscale 3\nbest 1\nprice 0 1\nprice 1 0\nend\n",
        Verdict::Column(0),
    ),
    (
        "prices 1 tasking\nrows 2\nscale 3\nbest 1\nprice 0 1\nprice 1 2\nend\n",
        Verdict::Column(1),
    ),
    (
        "prices 1 tasking\nrows 2\nscale 3\nbest 0\nprice 0 1\nprice 1 1\nend\n",
        Verdict::Value,
    ),
    (
        "prices 1 tasking\nrows 2\nscale 1\nbest 1\nprice 0 170141183460469231731687303715884105727\nprice 1 0\nend\n",
        Verdict::Overflow(0),
    ),
];

fn is_printed(alloc: Global, certificate: &Certificate, text: &str) -> Result<bool, Fail> {
    Ok(print_certificate(alloc, Series::Tasking, certificate)?.as_str() == text)
}

/// Whether the check says this of a certificate, and its text is this one.
fn is_told(
    alloc: Global,
    lp: &Lp,
    certificate: &Certificate,
    row: &(&str, Verdict),
) -> Result<bool, Fail>
    requires rows { length lp.now.rows ≡ 2 }
    requires prices { length certificate.now.prices ≡ 2 }
{
    if check(lp, certificate) != row.1 {
        return Ok(false);
    }
    is_printed(alloc, certificate, row.0)
}

fn is_as_told(alloc: Global, lp: &Lp, row: &(&str, Verdict)) -> Result<bool, Fail>
    requires { length lp.now.rows ≡ 2 }
{
    match read_certificate(alloc, Series::Tasking, 2, row.0.as_bytes()) {
        Ok(certificate) => is_told(alloc, lp, &certificate, row),
        Err(_) => Ok(false),
    }
}

fn tells_verdicts(alloc: Global, lp: &Lp) -> Result<(), Fail>
    requires { length lp.now.rows ≡ 2 }
{
    for row in &VERDICTS {
        if !is_as_told(alloc, lp, row)? {
            return Err(Fail::new(format_args!("not {:?} of {}", row.1, row.0)));
        }
    }
    Ok(())
}

#[test]
fn checks_prices_columns_and_value(rt: HostRuntime) -> Result<(), Fail> {
    tells_verdicts(rt.alloc(), &thirds(rt.alloc())?)
}
