//! Reads a certificate's text.

ghost use Rattle.std.specs.Prelude.{◌≡◌, ◌<◌, ◌^◌, ◌≤ℤ◌, nat_abs, pos, Ok, Err, [], ◌++◌, MatchResult, IfOk, IfSome, OnOk, length, codes, decimal, string_bytes, All};
ghost use Rattle.dual_checker.specs.Texts.{header_text, price_word};
ghost use Rattle.dual_checker.specs.Reading.{after_text, number_in, number_after, prices_of, priced, certificate_of, IsFault};

use linear_program::Certificate;
use listed::{Listed, NoMemory};
use schedule_model::Series;
use std::alloc::Global;
use text_lines::{behind, first_line, integer_of, numbers_are_read_as_printed};

/// Why a text is no certificate.
#[derive(Clone, Copy, Debug, PartialEq, Eq)]
pub enum CertificateFault {
    /// This line, counted from 1, is the first that isn't one of a certificate with the series and the number of rows, or is missing.
    Line(u64),
    /// Memory ran out.
    NoMemory,
}

impl From<NoMemory> for CertificateFault {
    ghost use Rattle.std.specs.Prelude.{◌≡◌};
    ghost use Rattle.dual_checker.specs.declared.reading.CertificateFault.TheVariants.{NoMemory as OutOfMemory};

    ghost from_gives = { λ _ fault. fault ≡ OutOfMemory };

    fn from(_error: NoMemory) -> CertificateFault {
        CertificateFault::NoMemory
    }
}

/// The line that names the series.
pub(crate) fn header(series: Series) -> &'static str
    ensures { result.now ≡ header_text series }
{
    match series {
        Series::Tasking => "prices 1 tasking",
        Series::Scatter => "prices 1 scatter",
    }
}

/// What is left after a line of this text, which is to be the line of this number.
fn after_text<'a>(number: u64, text: &[u8], bytes: &'a [u8]) -> Result<&'a [u8], CertificateFault>
    ensures { MatchResult result
        (λ rest. after_text number text.now bytes.now ≡ Ok rest.now)
        (λ fault. after_text number text.now bytes.now ≡ Err fault) }
{
    match first_line(bytes) {
        Some((line, rest)) if line == text => Ok(rest),
        _ => Err(CertificateFault::Line(number)),
    }
}

/// What is left after the line of the number of rows.
fn after_rows<'a>(alloc: Global, rows: u32, bytes: &'a [u8]) -> Result<&'a [u8], CertificateFault>
    ensures { MatchResult result
        (λ rest. after_text 2 (codes "rows " ++ decimal rows) bytes.now ≡ Ok rest.now)
        (λ fault. IsFault fault (after_text 2 (codes "rows " ++ decimal rows) bytes.now)) }
{
    let text = rows_text(alloc, rows)?;
    after_text(2, text.as_bytes(), bytes)
}

/// The line of the number of rows.
fn rows_text(alloc: Global, rows: u32) -> Result<String, NoMemory>
    ensures { IfOk result (λ text. string_bytes text ≡ codes "rows " ++ decimal rows) }
{
    let mut text = String::new(alloc);
    write!(text, "rows {rows}")?;
    Ok(text)
}

/// The number that a line writes behind a word, where it is at least the bound.
fn number_in(word: &[u8], least: i128, line: &[u8]) -> Option<i128>
    ensures value { result ≡ number_in word.now least line.now }
    ensures bound { IfSome result (λ number. least ≤ℤ number) }
    ensures small { IfSome result (λ number. nat_abs number < 2 ^ 127) }
{
    numbers_are_read_as_printed();
    let number = integer_of(behind(word, line)?, i128::MAX as u128)?;
    if number < least { None } else { Some(number) }
}

/// The number of the line of this number, which is to have this word and a number that is at least the bound, and what is left.
fn number_after<'a>(
    number: u64,
    word: &[u8],
    least: i128,
    bytes: &'a [u8],
) -> Result<(i128, &'a [u8]), CertificateFault>
    ensures value { MatchResult result
        (λ found. number_after number word.now least bytes.now ≡ Ok (found.0, found.1.now))
        (λ fault. number_after number word.now least bytes.now ≡ Err fault) }
    ensures bound { IfOk result (λ found. least ≤ℤ found.0) }
    ensures small { IfOk result (λ found. nat_abs found.0 < 2 ^ 127) }
{
    let Some((line, rest)) = first_line(bytes) else {
        return Err(CertificateFault::Line(number));
    };
    match number_in(word, least, line) {
        Some(found) => Ok((found, rest)),
        None => Err(CertificateFault::Line(number)),
    }
}

/// Makes the word what stands before the price of a row.
fn set_word(word: &mut String, row: u32) -> Result<(), NoMemory>
    ensures { OnOk result (string_bytes word.new ≡ price_word row) }
{
    word.clear();
    write!(word, "price {row} ")?;
    Ok(())
}

/// Appends the prices of all rows, and gives what is left.
fn read_prices<'a>(
    alloc: Global,
    prices: &mut Listed<i128>,
    rows: u32,
    bytes: &'a [u8],
) -> Result<&'a [u8], CertificateFault>
    requires { prices.old ≡ [] }
    ensures value { MatchResult result
        (λ rest. prices_of rows bytes.now ≡ Ok (prices.new, rest.now))
        (λ fault. IsFault fault (prices_of rows bytes.now)) }
    ensures small { OnOk result (All (λ price. nat_abs price < 2 ^ 127) prices.new) }
    ensures rows { OnOk result (length prices.new ≡ rows) }
{
    let mut word = String::new(alloc);
    let mut rest = bytes;
    for row in 0..rows {
        set_word(&mut word, row)?;
        match number_after(u64::from(row) + 5, word.as_bytes(), -i128::MAX, rest) {
            Ok((price, left)) => {
                prices.push(price)?;
                rest = left;
            }
            Err(fault) => return Err(fault),
        }
    }
    Ok(rest)
}

/// The certificate with this scale and best, of the lines from the prices on.
fn read_priced(
    alloc: Global,
    rows: u32,
    scale: i128,
    best: i128,
    bytes: &[u8],
) -> Result<Certificate, CertificateFault>
    requires scale { pos 1 ≤ℤ scale }
    requires best { pos 0 ≤ℤ best }
    requires small { (nat_abs scale < 2 ^ 127) × (nat_abs best < 2 ^ 127) }
    ensures value { MatchResult result
        (λ c. priced rows scale best (prices_of rows bytes.now) ≡ Ok c)
        (λ fault. IsFault fault (priced rows scale best (prices_of rows bytes.now))) }
    ensures rows { IfOk result (λ c. length c.prices ≡ rows) }
{
    let mut prices = Listed::new(alloc);
    let rest = read_prices(alloc, &mut prices, rows, bytes)?;
    let end = u64::from(rows) + 5;
    let rest = after_text(end, b"end", rest)?;
    if rest.is_empty() {
        Ok(Certificate::new(scale, best, prices))
    } else {
        Err(CertificateFault::Line(end + 1))
    }
}

/// Reads a certificate's text: exactly the texts that [`print_certificate`] gives of certificates with the series and the number of rows.
///
/// # Errors
///
/// `Line` with the first line that isn't one of such a certificate, or is missing; `NoMemory` where memory runs out.
///
/// [`print_certificate`]: crate::print_certificate
pub fn read_certificate(
    alloc: Global,
    series: Series,
    rows: u32,
    bytes: &[u8],
) -> Result<Certificate, CertificateFault>
    ensures value { MatchResult result
        (λ c. certificate_of series rows bytes.now ≡ Ok c)
        (λ fault. IsFault fault (certificate_of series rows bytes.now)) }
    ensures rows { IfOk result (λ c. length c.prices ≡ rows) }
{
    let rest = after_text(1, header(series).as_bytes(), bytes)?;
    let rest = after_rows(alloc, rows, rest)?;
    let (scale, rest) = number_after(3, b"scale ", 1, rest)?;
    let (best, rest) = number_after(4, b"best ", 0, rest)?;
    read_priced(alloc, rows, scale, best, rest)
}
