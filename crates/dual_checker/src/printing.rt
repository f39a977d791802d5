//! The text of a certificate.

ghost use Rattle.std.specs.Prelude.{◌≡◌, ◌++◌, IfOk, OnOk, codes, decimal, string_bytes};
ghost use Rattle.std.specs.Fmt.{signed_decimal};
ghost use Rattle.text_lines.specs.Lines.{line};
ghost use Rattle.dual_checker.specs.Texts.{header_text, price_word, prices_text, certificate_text};

use crate::reading::header;
use linear_program::Certificate;
use listed::NoMemory;
use schedule_model::Series;
use std::alloc::Global;

/// Appends the line that names the series.
fn push_header(out: &mut String, series: Series) -> Result<(), NoMemory>
    ensures { OnOk result (string_bytes out.new ≡ string_bytes out.old ++ line (header_text series)) }
{
    let header = header(series);
    write!(out, "{header}\n")?;
    Ok(())
}

/// Appends the line of the number of rows.
fn push_rows(out: &mut String, rows: usize) -> Result<(), NoMemory>
    ensures { OnOk result (string_bytes out.new ≡ string_bytes out.old ++ line (codes "rows " ++ decimal rows)) }
{
    write!(out, "rows {rows}\n")?;
    Ok(())
}

/// Appends the line of the scale.
fn push_scale(out: &mut String, scale: i128) -> Result<(), NoMemory>
    ensures { OnOk result (string_bytes out.new ≡ string_bytes out.old ++ line (codes "scale " ++ signed_decimal scale)) }
{
    write!(out, "scale {scale}\n")?;
    Ok(())
}

/// Appends the line of the best.
fn push_best(out: &mut String, best: i128) -> Result<(), NoMemory>
    ensures { OnOk result (string_bytes out.new ≡ string_bytes out.old ++ line (codes "best " ++ signed_decimal best)) }
{
    write!(out, "best {best}\n")?;
    Ok(())
}

/// Appends the line of a price.
fn push_price(out: &mut String, row: usize, price: i128) -> Result<(), NoMemory>
    ensures { OnOk result (string_bytes out.new ≡ string_bytes out.old ++ line (price_word row ++ signed_decimal price)) }
{
    write!(out, "price {row} {price}\n")?;
    Ok(())
}

/// Appends the lines of all prices.
fn push_prices(out: &mut String, prices: &[i128]) -> Result<(), NoMemory>
    ensures { OnOk result (string_bytes out.new ≡ string_bytes out.old ++ prices_text 0 prices.now) }
{
    for row in 0..prices.len() {
        push_price(out, row, prices[row])?;
    }
    Ok(())
}

/// Appends the text of a certificate.
fn push_certificate(
    out: &mut String,
    series: Series,
    certificate: &Certificate,
) -> Result<(), NoMemory>
    ensures { OnOk result (string_bytes out.new ≡ string_bytes out.old ++ certificate_text series certificate.now) }
{
    push_header(out, series)?;
    push_rows(out, certificate.prices().len())?;
    push_scale(out, certificate.scale())?;
    push_best(out, certificate.best())?;
    push_prices(out, certificate.prices())?;
    out.push_str("end\n")?;
    Ok(())
}

/// The text of a certificate: the series, the number of rows, the scale, the best and the price of each row, a line each.
pub fn print_certificate(
    alloc: Global,
    series: Series,
    certificate: &Certificate,
) -> Result<String, NoMemory>
    ensures { IfOk result (λ text. string_bytes text ≡ certificate_text series certificate.now) }
{
    let mut out = String::new(alloc);
    push_certificate(&mut out, series, certificate)?;
    Ok(out)
}
