//! A system and a writer that do as a script says, for what real files do seldom: short calls, and failing ones behind others.

use std::alloc::Allocator;
use std::fs::{Metadata, OpenFile, OpenOptions};
use std::io::{self, ErrorKind, Read, Seek, SeekFrom, Write};
use std::rt::Files;

fn failed() -> io::Error {
    io::Error::from(ErrorKind::Other)
}

/// The byte behind another in the numbered bytes, which are 0 to 250 over and over. 251 doesn't divide 32,768, so the halves of a
/// piece of 65,536 bytes differ.
fn byte_behind(byte: u8) -> u8 {
    if byte < 250 { byte + 1 } else { 0 }
}

/// Fills a buffer with numbered bytes, and answers the byte behind them.
pub fn fill_numbered(into: &mut [u8], first: u8) -> u8 {
    let mut next = first;
    for place in into {
        *place = next;
        next = byte_behind(next);
    }
    next
}

/// Whether these are the numbered bytes from 0 on.
pub fn are_numbered(bytes: &[u8]) -> bool {
    let mut next = 0;
    for byte in bytes {
        if *byte != next {
            return false;
        }
        next = byte_behind(next);
    }
    true
}

/// The length of the buffer that a read brings, and how many bytes it gets; none where it fails.
pub type ScriptedRead = (usize, Option<usize>);

/// A system whose one file, `scripted`, gives numbered bytes by a script. The script is an array, since a proof over `StdFiles`
/// doesn't cover a system that holds a reference.
#[derive(Drop)]
pub struct ScriptedSystem {
    pub reads: [ScriptedRead; 3],
}

/// The file of a scripted system. A read that isn't the script's next one fails.
#[derive(Drop)]
pub struct ScriptedFile {
    reads: [ScriptedRead; 3],
    at: usize,
    next: u8,
}

impl Read for ScriptedFile {
    fn read(&mut self, into: &mut [u8]) -> io::Result<usize> {
        let Some(&(length, given)) = self.reads.get(self.at) else {
            return Err(failed());
        };
        self.at = self.at.saturating_add(1);
        match given {
            Some(count) if length == into.len() && count <= length => {
                self.next = fill_numbered(&mut into[..count], self.next);
                Ok(count)
            }
            _ => Err(failed()),
        }
    }
}

impl Write for ScriptedFile {
    fn write(&mut self, _bytes: &[u8]) -> io::Result<usize> {
        Err(failed())
    }

    fn flush(&mut self) -> io::Result<()> {
        Err(failed())
    }
}

impl Seek for ScriptedFile {
    fn seek(&mut self, _to: SeekFrom) -> io::Result<u64> {
        Err(failed())
    }
}

impl OpenFile for ScriptedFile {
    fn metadata(&self) -> io::Result<Metadata> {
        Err(failed())
    }

    fn set_len(&self, _size: u64) -> io::Result<()> {
        Err(failed())
    }

    fn sync_all(&self) -> io::Result<()> {
        Err(failed())
    }

    fn sync_data(&self) -> io::Result<()> {
        Err(failed())
    }
}

impl Files for ScriptedSystem {
    type File = ScriptedFile;

    type Dir = ScriptedFile;

    fn open_file(&self, _how: &OpenOptions, path: &str) -> io::Result<ScriptedFile> {
        if path != "scripted" {
            return Err(failed());
        }
        Ok(ScriptedFile {
            reads: self.reads,
            at: 0,
            next: 0,
        })
    }

    fn open_dir(&self, _path: &str) -> io::Result<ScriptedFile> {
        Err(failed())
    }

    fn metadata(&self, _path: &str) -> io::Result<Metadata> {
        Err(failed())
    }

    fn symlink_metadata(&self, _path: &str) -> io::Result<Metadata> {
        Err(failed())
    }

    fn copy(&self, _from: &str, _to: &str) -> io::Result<u64> {
        Err(failed())
    }

    fn rename(&self, _from: &str, _to: &str) -> io::Result<()> {
        Err(failed())
    }

    fn remove_file(&self, _path: &str) -> io::Result<()> {
        Err(failed())
    }

    fn create_dir(&self, _path: &str) -> io::Result<()> {
        Err(failed())
    }

    fn remove_dir(&self, _path: &str) -> io::Result<()> {
        Err(failed())
    }

    fn remove_dir_all<B: Allocator>(&self, _alloc: B, _path: &str) -> io::Result<()> {
        Err(failed())
    }
}

/// A writer that keeps what it takes, at each write as many bytes as its script says; none where the write fails.
#[derive(Drop)]
pub struct ScriptedWriter {
    pub taken: Vec<u8>,
    pub writes: &'static [Option<usize>],
}

impl Write for ScriptedWriter {
    fn write(&mut self, bytes: &[u8]) -> io::Result<usize> {
        let Some((write, rest)) = self.writes.split_first() else {
            return Err(failed());
        };
        self.writes = rest;
        let Some(most) = write else {
            return Err(failed());
        };
        let count = bytes.len().min(*most);
        self.taken.extend_from_slice(&bytes[..count])?;
        Ok(count)
    }

    fn flush(&mut self) -> io::Result<()> {
        Ok(())
    }
}
