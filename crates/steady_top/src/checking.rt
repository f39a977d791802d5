//! The command `check`.

ghost use Rattle.std.specs.Prelude.{◌≡◌, ◌++◌, false, Ok, codes, decimal, length, string_bytes, MatchResult, IfOk, OnOk};
ghost use Rattle.std.specs.Fmt.{signed_decimal};
ghost use Rattle.text_lines.specs.Lines.{line};
ghost use Rattle.series_flows.specs.Programmes.{programme_of, lacks_targets};
ghost use Rattle.command_words.specs.Words.{check};
ghost use Rattle.steady_top.specs.Faults.{refusal_of};
ghost use Rattle.steady_top.specs.Outcomes.{judged_reading, upper_text, check_of_bytes, check_of_file};
ghost use Rattle.steady_top.specs.Answers.{IsMade, IsCauseFor};
ghost use Rattle.steady_top.specs.Planned.{IsSecondFault, MayRefuse, IsProved, IsCheck, IsChecked};

use crate::fault::{CheckFault, ReadingFault, TopFault};
use crate::reading::{read_named, read_timed};
use dual_checker::{CertificateFault, Verdict, read_certificate};
use linear_program::{Certificate, Lp};
use listed::NoMemory;
use outside_io::Files;
use platform_file::Timed;
use schedule_model::Series;
use series_flows::programme_of;
use std::alloc::Global;

/// The most bytes of a certificate.
const MOST_CERTIFICATE_BYTES: u64 = 1048576;

/// Appends the best of a certificate.
fn push_best(out: &mut String, best: i128) -> Result<(), NoMemory>
    ensures { OnOk result (string_bytes out.new ≡ string_bytes out.old ++ (codes "upper " ++ signed_decimal best)) }
{
    write!(out, "upper {best}")?;
    Ok(())
}

/// Appends its scale.
fn push_scale(out: &mut String, scale: i128) -> Result<(), NoMemory>
    ensures { OnOk result (string_bytes out.new ≡ string_bytes out.old ++ (codes " tasks per " ++ signed_decimal scale)) }
{
    write!(out, " tasks per {scale}")?;
    Ok(())
}

/// Appends the ticks of a time unit, and ends the line.
fn push_unit(out: &mut String, unit: u64) -> Result<(), NoMemory>
    ensures { OnOk result (string_bytes out.new ≡ string_bytes out.old ++ line (codes " ticks, unit " ++ decimal unit)) }
{
    write!(out, " ticks, unit {unit}\n")?;
    Ok(())
}

/// The line of a certificate that proves.
fn upper_line(alloc: Global, timed: &Timed, certificate: &Certificate) -> Result<String, NoMemory>
    ensures { IfOk result (λ text. string_bytes text ≡ upper_text timed.now certificate.now) }
{
    let mut out = String::new(alloc);
    push_best(&mut out, certificate.best())?;
    push_scale(&mut out, certificate.scale())?;
    push_unit(&mut out, timed.unit())?;
    Ok(out)
}

/// What the check of a certificate comes to.
fn judge<'a>(
    alloc: Global,
    timed: &Timed,
    series: Series,
    lp: &Lp,
    certificate: &Certificate,
) -> Result<String, TopFault<'a>>
    requires programme { lp.now ≡ programme_of timed.now series }
    requires targets { lacks_targets timed.now series ≡ false }
    requires rows { length certificate.now.prices ≡ length lp.now.rows }
    ensures text { MatchResult result
        (λ text. IsProved timed.now series certificate.now (string_bytes text))
        (λ fault. MayRefuse (judged_reading timed.now series (Ok certificate.now)) (refusal_of fault)) }
{
    timed.known();
    let _ = series;
    match dual_checker::check(lp, certificate) {
        Verdict::Proves => Ok(upper_line(alloc, timed, certificate)?),
        Verdict::Negative(row) => Err(TopFault::Unproved(CheckFault::NegativePrice(row))),
        Verdict::Column(column) => Err(TopFault::Unproved(CheckFault::UncoveredColumn(column))),
        Verdict::Value => Err(TopFault::Unproved(CheckFault::PassedValue)),
        Verdict::Overflow(column) => Err(TopFault::Unproved(CheckFault::Overflow(column))),
    }
}

/// The rate that the certificate in some bytes proves for a platform.
fn check_of<'a>(
    alloc: Global,
    timed: &Timed,
    series: Series,
    bytes: &[u8],
) -> Result<String, TopFault<'a>>
    ensures { MatchResult result
        (λ text. IsCheck timed.now series bytes.now (string_bytes text))
        (λ fault. MayRefuse (check_of_bytes timed.now series bytes.now) (refusal_of fault)) }
{
    let lp = programme_of(alloc, timed, series)?;
    lp.known();
    match read_certificate(alloc, series, lp.rows().len() as u32, bytes) {
        Ok(certificate) => judge(alloc, timed, series, &lp, &certificate),
        Err(CertificateFault::Line(number)) => Err(TopFault::Unread(ReadingFault::CertificateLine(
            number,
        ))),
        Err(CertificateFault::NoMemory) => Err(TopFault::NoMemory),
    }
}

/// The rate that the certificate in the named file proves for a platform.
fn check_over<'a, F: Files>(
    alloc: Global,
    files: &mut F,
    name: &'a str,
    timed: &Timed,
    series: Series,
) -> Result<String, TopFault<'a>>
    ensures { MatchResult result
        (λ text. IsChecked timed.now series (F.state files.old) name.now (F.state files.new) (string_bytes text))
        (λ fault. IsSecondFault (check_of_file timed.now series) (F.state files.old) name.now (F.state files.new) (refusal_of fault)) }
{
    let long = TopFault::Unread(ReadingFault::LongCertificate);
    let bytes = read_named(alloc, files, name, MOST_CERTIFICATE_BYTES, long)?;
    check_of(alloc, timed, series, &bytes)
}

/// The rate that the certificate in the second file proves for the platform in the first.
pub(crate) fn check<'a, F: Files>(
    alloc: Global,
    files: &mut F,
    name: &'a str,
    second: &'a str,
    series: Series,
) -> Result<String, TopFault<'a>>
    ensures { MatchResult result
        (λ text. IsMade (check name.now second.now series) (F.state files.old) (F.state files.new) (string_bytes text))
        (λ fault. IsCauseFor (check name.now second.now series) (F.state files.old) (F.state files.new) (refusal_of fault)) }
{
    let timed = read_timed(alloc, files, name)?;
    check_over(alloc, files, second, &timed, series)
}
