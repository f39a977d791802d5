//! Files and sinks, in memory and outside, with calls that fail.

use crate::tests::comparing::{fails_at, holds};
use crate::tests::scripted::{
    ScriptedRead, ScriptedSystem, ScriptedWriter, are_numbered, fill_numbered,
};
use outside_io::{
    Failed, MemoryFiles, MemorySink, ReadEnd, StdFiles, StdSink, read_whole, write_whole,
};
use std::alloc::Global;
use std::test::Fail;
use std::{fs, io};

fn long(alloc: Global) -> Result<(String, Vec<u8>), Fail> {
    Ok((
        String::from_str(alloc, "long")?,
        vec![in alloc; 7u8; 70000]?,
    ))
}

fn short(alloc: Global) -> Result<(String, Vec<u8>), Fail> {
    Ok((String::from_str(alloc, "short")?, b"abc".to_vec(alloc)?))
}

fn entries(alloc: Global) -> Result<Vec<(String, Vec<u8>)>, Fail> {
    let mut files = Vec::new(alloc);
    files.push(long(alloc)?)?;
    files.push(short(alloc)?)?;
    Ok(files)
}

/// Files in memory: `long` with 70,000 bytes, more than one read takes, and `short` with 3. The listed calls fail.
fn two_files(alloc: Global, failing: &[u64]) -> Result<MemoryFiles, Fail> {
    Ok(MemoryFiles::new(entries(alloc)?, failing.to_vec(alloc)?))
}

/// A name, the most bytes that are wanted, how many are read and the first of them, and that they are, or why not.
type ReadRow = (
    &'static str,
    u32,
    usize,
    &'static [u8],
    Result<bool, ReadEnd>,
);

const FAILING: [ReadRow; 2] = [
    ("long", 70000, 0, b"", Err(ReadEnd::Failed)),
    ("short", 3, 3, b"abc", Ok(true)),
];

/// Calls that fail, and what is read of the two files one after another. A file of 70,000 bytes takes an open, a read of
/// 65,536 bytes, a read of the rest and a read at the end.
static READS: [(&[u64], &[ReadRow]); 5] = [
    (
        &[],
        &[
            ("long", 70000, 70000, b"", Ok(true)),
            ("short", 3, 3, b"abc", Ok(true)),
            ("long", 69999, 0, b"", Err(ReadEnd::Longer)),
            ("short", 2, 0, b"", Err(ReadEnd::Longer)),
            ("none", 9, 0, b"", Err(ReadEnd::Failed)),
            ("short", 9, 3, b"abc", Ok(true)),
        ],
    ),
    (&[0], &FAILING),
    (&[1], &FAILING),
    (&[2], &FAILING),
    (&[3], &FAILING),
];

/// Whether a file is read whole, as a row has it.
fn is_read(alloc: Global, files: &mut MemoryFiles, row: &ReadRow) -> Result<bool, ReadEnd> {
    let bytes = read_whole(alloc, files, row.0, u64::from(row.1))?;
    Ok(bytes.len() == row.2 && bytes.starts_with(row.3))
}

fn reads_each(
    alloc: Global,
    files: &mut MemoryFiles,
    failing: &[u64],
    rows: &[ReadRow],
) -> Result<(), Fail> {
    for row in rows {
        if is_read(alloc, files, row) != row.4 {
            return fails_at(&(failing, row));
        }
    }
    Ok(())
}

fn reads_over(alloc: Global, failing: &[u64], rows: &[ReadRow]) -> Result<(), Fail> {
    reads_each(alloc, &mut two_files(alloc, failing)?, failing, rows)
}

#[test]
fn reads_to_the_end_or_fails(rt: HostRuntime) -> Result<(), Fail> {
    for (failing, rows) in &READS {
        reads_over(rt.alloc(), failing, rows)?;
    }
    Ok(())
}

/// The most bytes of a write, the writes that fail, the room, how a write of `TEXT` ends, and what is written then.
type WriteRow = (
    usize,
    &'static [u64],
    usize,
    Result<(), Failed>,
    &'static str,
);

const TEXT: &str = "steady state";

static WRITES: [WriteRow; 4] = [
    (100, &[9], 12, Ok(()), TEXT),
    (5, &[9], 12, Ok(()), TEXT),
    (5, &[1], 12, Err(Failed), "stead"),
    (5, &[9], 0, Err(Failed), ""),
];

/// A sink that takes at most so many bytes at once, with so much room. The listed writes fail.
fn sink(alloc: Global, most: usize, failing: &[u64], room: usize) -> Result<MemorySink, Fail> {
    let mut out = MemorySink::new(alloc, most.max(1), failing.to_vec(alloc)?);
    if room > 0 {
        out.reserve(room)?;
    }
    Ok(out)
}

fn writes(out: &mut MemorySink, row: &WriteRow) -> Result<(), Fail> {
    if write_whole(out, TEXT.as_bytes()) != row.3 || out.written() != row.4.as_bytes() {
        return fails_at(row);
    }
    Ok(())
}

fn writes_row(alloc: Global, row: &WriteRow) -> Result<(), Fail> {
    writes(&mut sink(alloc, row.0, row.1, row.2)?, row)
}

#[test]
fn writes_whole_or_a_front(rt: HostRuntime) -> Result<(), Fail> {
    for row in &WRITES {
        writes_row(rt.alloc(), row)?;
    }
    Ok(())
}

/// Whether a file of the system is read whole, at most so many bytes of it, and has this text.
fn has_text(rt: &HostRuntime, name: &str, most: u32, text: &str) -> Result<bool, ReadEnd> {
    let bytes = read_whole(rt.alloc(), &mut StdFiles::new(rt), name, u64::from(most))?;
    Ok(bytes.as_slice() == text.as_bytes())
}

/// The name of a file of the system, and what it contains.
const OUTSIDE: &str = "outside_io.txt";

const WORDS: &str = "one two\n";

fn writes_outside(rt: &HostRuntime) -> Result<(), Fail> {
    let ended = write_whole(&mut StdSink::new(io::writer(rt)), b"written outside\n");
    holds(ended == Ok(()), "standard output")
}

fn reads_and_removes(rt: &HostRuntime) -> Result<(), Fail> {
    fs::write(rt, OUTSIDE, WORDS)?;
    holds(has_text(rt, OUTSIDE, 100, WORDS) == Ok(true), OUTSIDE)?;
    holds(
        has_text(rt, OUTSIDE, 3, WORDS) == Err(ReadEnd::Longer),
        "longer",
    )?;
    fs::remove_file(rt, OUTSIDE)?;
    holds(
        has_text(rt, OUTSIDE, 100, WORDS) == Err(ReadEnd::Failed),
        "removed",
    )
}

#[test]
fn reads_and_writes_outside(rt: HostRuntime) -> Result<(), Fail> {
    reads_and_removes(&rt)?;
    writes_outside(&rt)
}

/// The most bytes that are wanted, the reads, and how many numbered bytes come of them, or why not all.
type SystemRow = (
    u32,
    &'static [ScriptedRead; 3],
    Result<(usize, bool), ReadEnd>,
);

/// A read that isn't to come.
const NONE: ScriptedRead = (0, None);

/// Each read brings a buffer for the lesser of 65,536 bytes and what is missing of one more than the most. A read of fewer bytes
/// isn't the end, nor is one that fails.
static SYSTEM_READS: [SystemRow; 10] = [
    (100, &[(101, Some(0)), NONE, NONE], Ok((0, true))),
    (
        100,
        &[(101, Some(5)), (96, Some(3)), (93, Some(0))],
        Ok((8, true)),
    ),
    (
        8,
        &[(9, Some(5)), (4, Some(3)), (1, Some(0))],
        Ok((8, true)),
    ),
    (7, &[(8, Some(5)), (3, Some(3)), NONE], Err(ReadEnd::Longer)),
    (
        100,
        &[(101, None), (101, Some(0)), NONE],
        Err(ReadEnd::Failed),
    ),
    (
        100,
        &[(101, Some(5)), (96, None), (96, Some(0))],
        Err(ReadEnd::Failed),
    ),
    (
        70000,
        &[(65536, Some(65536)), (4465, None), NONE],
        Err(ReadEnd::Failed),
    ),
    (
        70000,
        &[(65536, Some(65536)), (4465, Some(4464)), (1, None)],
        Err(ReadEnd::Failed),
    ),
    (
        131072,
        &[(65536, Some(65536)), (65536, Some(65536)), (1, Some(0))],
        Ok((131072, true)),
    ),
    (
        131072,
        &[(65536, Some(65536)), (65536, Some(65536)), (1, Some(1))],
        Err(ReadEnd::Longer),
    ),
];

/// How many bytes are read of a scripted system's file, and whether they are the numbered ones.
fn read_of(alloc: Global, system: &ScriptedSystem, most: u32) -> Result<(usize, bool), ReadEnd> {
    let bytes = read_whole(
        alloc,
        &mut StdFiles::new(system),
        "scripted",
        u64::from(most),
    )?;
    Ok((bytes.len(), are_numbered(&bytes)))
}

#[test]
fn reads_by_a_script(rt: HostRuntime) -> Result<(), Fail> {
    for row in &SYSTEM_READS {
        if read_of(rt.alloc(), &ScriptedSystem { reads: *row.1 }, row.0) != row.2 {
            return fails_at(row);
        }
    }
    Ok(())
}

/// The writes, how a write of `TEXT` ends over them, and what is taken then.
type ScriptedWriteRow = (&'static [Option<usize>], Result<(), Failed>, &'static str);

static SCRIPTED_WRITES: [ScriptedWriteRow; 5] = [
    (&[Some(3), Some(3), Some(3), Some(3)], Ok(()), TEXT),
    (&[Some(1), Some(100)], Ok(()), TEXT),
    (&[Some(5), None, Some(7)], Err(Failed), "stead"),
    (&[Some(5), Some(0), Some(7)], Err(Failed), "stead"),
    (&[None, Some(12)], Err(Failed), ""),
];

fn writes_by(out: &mut ScriptedWriter, row: &ScriptedWriteRow) -> Result<(), Fail> {
    let ended = write_whole(&mut StdSink::new(&mut *out), TEXT.as_bytes());
    if ended != row.1 || out.taken.as_slice() != row.2.as_bytes() {
        return fails_at(row);
    }
    Ok(())
}

fn writes_scripted(alloc: Global, row: &ScriptedWriteRow) -> Result<(), Fail> {
    writes_by(
        &mut ScriptedWriter {
            taken: Vec::new(alloc),
            writes: row.0,
        },
        row,
    )
}

#[test]
fn writes_by_a_script(rt: HostRuntime) -> Result<(), Fail> {
    for row in &SCRIPTED_WRITES {
        writes_scripted(rt.alloc(), row)?;
    }
    Ok(())
}

/// Names of files of the system, and what each contains. A blank at an end of a name belongs to it.
static NAMED: [(&str, &str); 4] = [
    (" a b ", "blanks at both ends"),
    ("a b ", "a blank behind"),
    (" a b", "a blank before"),
    ("a b", "no blank at an end"),
];

fn writes_named(rt: &HostRuntime) -> Result<(), Fail> {
    for (name, text) in &NAMED {
        fs::write(rt, *name, *text)?;
    }
    Ok(())
}

fn reads_named(rt: &HostRuntime) -> Result<(), Fail> {
    for (name, text) in &NAMED {
        holds(has_text(rt, name, 100, text) == Ok(true), name)?;
    }
    Ok(())
}

fn removes_named(rt: &HostRuntime) -> Result<(), Fail> {
    for (name, _) in &NAMED {
        fs::remove_file(rt, *name)?;
    }
    Ok(())
}

#[test]
fn trims_no_name(rt: HostRuntime) -> Result<(), Fail> {
    writes_named(&rt)?;
    reads_named(&rt)?;
    removes_named(&rt)
}

/// The name of a file of the system with numbered bytes.
const NUMBERED: &str = "numbered";

/// Lengths about one read and two.
static LENGTHS: [usize; 4] = [65535, 65536, 65537, 140000];

fn write_numbered(rt: &HostRuntime, bytes: &mut [u8]) -> Result<(), Fail> {
    fill_numbered(bytes, 0);
    fs::write(rt, NUMBERED, &*bytes)?;
    Ok(())
}

fn read_numbered(rt: &HostRuntime) -> Result<(usize, bool), ReadEnd> {
    let bytes = read_whole(rt.alloc(), &mut StdFiles::new(rt), NUMBERED, 140000)?;
    Ok((bytes.len(), are_numbered(&bytes)))
}

fn reads_as_many(rt: &HostRuntime, length: usize) -> Result<(), Fail> {
    write_numbered(rt, &mut vec![in rt.alloc(); 0u8; length]?)?;
    if read_numbered(rt) != Ok((length, true)) {
        return fails_at(&length);
    }
    Ok(())
}

#[test]
fn reads_each_piece_in_order(rt: HostRuntime) -> Result<(), Fail> {
    for length in &LENGTHS {
        reads_as_many(&rt, *length)?;
    }
    fs::remove_file(&rt, NUMBERED)?;
    Ok(())
}

#[test]
fn reads_no_folder(rt: HostRuntime) -> Result<(), Fail> {
    holds(
        has_text(&rt, ".", 100, "") == Err(ReadEnd::Failed),
        "a folder",
    )
}
