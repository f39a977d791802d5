//! What the tests share: platforms of texts, and the name of a row that fails.

ghost use Rattle.std.specs.Prelude.{◌≡◌, true, OnOk};

use platform_file::{Platform, Timed, read_platform, timed};
use std::alloc::Global;
use std::test::Fail;

/// Fails by the name of a row, or of a fact, that isn't so.
pub(crate) fn holds(name: &str, is_so: bool) -> Result<(), Fail>
    ensures { OnOk result (is_so ≡ true) }
{
    if is_so {
        return Ok(());
    }
    Err(name.into())
}

/// The platform of a text.
pub(crate) fn read(alloc: Global, text: &str) -> Result<Platform, Fail> {
    Ok(read_platform(alloc, text.as_bytes())?)
}

/// The platform of a text, in ticks.
pub(crate) fn in_ticks(alloc: Global, text: &str) -> Result<Timed, Fail> {
    Ok(timed(alloc, read(alloc, text)?)?)
}
