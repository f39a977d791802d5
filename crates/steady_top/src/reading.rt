//! What is read of a named file.

ghost use Rattle.std.specs.Prelude.{◌-◌, ◌^◌, ◌<◌, MatchResult};
ghost use Rattle.outside_io.specs.Reading.{IsWholeRead};
ghost use Rattle.steady_top.specs.Faults.{refusal_of};
ghost use Rattle.steady_top.specs.Planned.{IsUnread, IsPlatformRead, IsPlatformFault};

use crate::fault::TopFault;
use outside_io::{Files, ReadEnd, read_whole};
use platform_file::{Kind, MOST_BYTES, PlatformFault, Timed, read_platform, timed};
use std::alloc::Global;

/// The bytes of the named file, at most so many, or the fault `long` where it has more.
pub(crate) fn read_named<'a, F: Files>(
    alloc: Global,
    files: &mut F,
    name: &'a str,
    most: u64,
    long: TopFault<'a>,
) -> Result<Vec<u8>, TopFault<'a>>
    requires { most < 2 ^ 64 - 1 }
    ensures { MatchResult result
        (λ bytes. IsWholeRead (F.state files.old) name.now most bytes.items (F.state files.new))
        (λ fault. IsUnread (F.state files.old) name.now most (refusal_of long.entry) (F.state files.new) (refusal_of fault)) }
{
    match read_whole(alloc, files, name, most) {
        Ok(bytes) => Ok(bytes),
        Err(ReadEnd::Failed) => Err(TopFault::CannotRead(name)),
        Err(ReadEnd::Longer) => Err(long),
        Err(ReadEnd::NoMemory) => Err(TopFault::NoMemory),
    }
}

/// The platform of the named file, in ticks. The steps that can refuse come in this order: the file, its text, its ticks.
pub(crate) fn read_timed<'a, F: Files>(
    alloc: Global,
    files: &mut F,
    name: &'a str,
) -> Result<Timed, TopFault<'a>>
    ensures { MatchResult result
        (λ t. IsPlatformRead (F.state files.old) name.now (F.state files.new) t)
        (λ fault. IsPlatformFault (F.state files.old) name.now (F.state files.new) (refusal_of fault)) }
{
    let long = TopFault::Platform(PlatformFault::Limit(Kind::Text, MOST_BYTES + 1));
    let bytes = read_named(alloc, files, name, MOST_BYTES, long)?;
    let platform = read_platform(alloc, &bytes)?;
    Ok(timed(alloc, platform)?)
}
