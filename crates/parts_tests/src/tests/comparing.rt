//! Failures that name a row.

use std::alloc::Global;
use std::fmt::{Debug, Display};
use std::test::Fail;

/// Fails where something doesn't hold, and names it.
pub fn holds(it: bool, name: &str) -> Result<(), Fail> {
    if it {
        return Ok(());
    }
    Err(name.into())
}

/// Fails at a row.
pub fn fails_at<R: Debug>(row: &R) -> Result<(), Fail> {
    Err(Fail::new(format_args!("at {row:?}")))
}

/// Fails where something isn't written as the text.
pub fn is_written<T: Display>(alloc: Global, it: &T, text: &str) -> Result<(), Fail> {
    let written = format!(in alloc; "{it}")?;
    holds(written.as_str() == text, text)
}
