//! Runs of the program over files and a sink in memory.

use outside_io::{MemoryFiles, MemorySink};
use std::alloc::Global;
use std::str;
use std::test::Fail;
use steady_top::{Status, steady};

/// A text, another that takes its place, and how many times that one stands there.
pub type Change = (&'static str, &'static str, usize);

/// What fails: the listed calls of files, and the listed writes of a sink that takes at most so many bytes at once.
pub type Devices = (&'static [u64], usize, &'static [u64]);

/// Nothing fails, and the sink takes all.
pub const SOUND: Devices = (&[], 4096, &[]);

/// A run of the program.
#[derive(Clone, Copy)]
pub struct Run {
    pub words: &'static [&'static str],
    /// The texts of the files `P` and `C`.
    pub files: [&'static str; 2],
    /// What is changed in both texts.
    pub changes: &'static [Change],
    pub devices: Devices,
    /// How it is to end.
    pub status: Status,
    /// What it is to write.
    pub text: &'static str,
}

fn words_of(alloc: Global, row: &[&str]) -> Result<Vec<String>, Fail> {
    let mut words = Vec::new(alloc);
    for word in row {
        words.push(String::from_str(alloc, word)?)?;
    }
    Ok(words)
}

/// Appends a file of this name.
fn push_entry(
    alloc: Global,
    held: &mut Vec<(String, Vec<u8>)>,
    name: &str,
    bytes: &[u8],
) -> Result<(), Fail> {
    held.push((String::from_str(alloc, name)?, bytes.to_vec(alloc)?))?;
    Ok(())
}

/// The files `P` and `C`.
fn entries(alloc: Global, first: &[u8], second: &[u8]) -> Result<Vec<(String, Vec<u8>)>, Fail> {
    let mut held = Vec::new(alloc);
    push_entry(alloc, &mut held, "P", first)?;
    push_entry(alloc, &mut held, "C", second)?;
    Ok(held)
}

/// Files `P` and `C` of such bytes, of which the listed calls fail.
fn files(alloc: Global, first: &[u8], second: &[u8], failing: &[u64]) -> Result<MemoryFiles, Fail> {
    Ok(MemoryFiles::new(entries(alloc, first, second)?, failing.to_vec(alloc)?))
}

/// A sink that takes at most so many bytes at once, and fails the listed calls.
pub fn sink(alloc: Global, most: usize, failing: &[u64]) -> Result<MemorySink, Fail> {
    let mut out = MemorySink::new(alloc, most.max(1), failing.to_vec(alloc)?);
    out.reserve(4194304)?;
    Ok(out)
}

/// What names a run, with how it ended and what it wrote.
fn unlike(run: &Run, ended: Status, out: &[u8]) -> Fail {
    let written = str::from_utf8(out).unwrap_or("no text");
    Fail::new(format_args!(
        "{:?} over {:?} with {:?} and {:?}: ended as {ended:?} and wrote {written}",
        run.words, run.files, run.changes, run.devices,
    ))
}

/// Fails where a run ends otherwise or writes something else.
fn ends(
    alloc: Global,
    words: &[String],
    files: &mut MemoryFiles,
    out: &mut MemorySink,
    run: &Run,
) -> Result<(), Fail> {
    let ended = steady(alloc, words, files, out);
    if ended == run.status && out.written() == run.text.as_bytes() {
        return Ok(());
    }
    Err(unlike(run, ended, out.written()))
}

fn ends_over(
    alloc: Global,
    files: &mut MemoryFiles,
    out: &mut MemorySink,
    run: &Run,
) -> Result<(), Fail> {
    ends(
        alloc,
        words_of(alloc, run.words)?.as_slice(),
        files,
        out,
        run,
    )
}

fn ends_over_files(alloc: Global, files: &mut MemoryFiles, run: &Run) -> Result<(), Fail> {
    ends_over(
        alloc,
        files,
        &mut sink(alloc, run.devices.1, run.devices.2)?,
        run,
    )
}

/// Fails where a run over files of such bytes ends otherwise or writes something else.
pub fn ends_over_bytes(alloc: Global, first: &[u8], second: &[u8], run: &Run) -> Result<(), Fail> {
    ends_over_files(alloc, &mut files(alloc, first, second, run.devices.0)?, run)
}

fn replaced(alloc: Global, text: &str, change: &Change) -> Result<String, Fail> {
    let (old, new, times) = *change;
    Ok(text.replace(alloc, old, new.repeat(alloc, times)?.as_str())?)
}

fn changed(alloc: Global, text: &str, changes: &[Change]) -> Result<String, Fail> {
    let mut text = String::from_str(alloc, text)?;
    for change in changes {
        text = replaced(alloc, text.as_str(), change)?;
    }
    Ok(text)
}

fn ends_over_first(alloc: Global, first: &str, run: &Run) -> Result<(), Fail> {
    ends_over_bytes(
        alloc,
        first.as_bytes(),
        changed(alloc, run.files[1], run.changes)?.as_bytes(),
        run,
    )
}

fn ends_so(alloc: Global, run: &Run) -> Result<(), Fail> {
    ends_over_first(
        alloc,
        changed(alloc, run.files[0], run.changes)?.as_str(),
        run,
    )
}

/// Fails at the first run that ends otherwise or writes something else.
pub fn end_so(alloc: Global, runs: &[Run]) -> Result<(), Fail> {
    for run in runs {
        ends_so(alloc, run)?;
    }
    Ok(())
}
