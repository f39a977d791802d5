//! The trusted edge: files of the system, and a sink over any writer.

ghost use Rattle.std.specs.Prelude.{◌≡◌, None};
ghost use Rattle.outside_io.specs.Files.{untold};

use crate::files::Files;
use crate::sink::{Failed, Sink};
use std::fs;
use std::io::{Read, Write};
use std::marker::Model;
use std::rt::Files as SystemFiles;

/// Files of the system, opened by path. Nothing is told of what they contain: each error is counted as a fault, one for an
/// absent name too.
#[derive(Drop)]
pub struct StdFiles<'a, R: SystemFiles> {
    system: &'a R,
    current: Option<R::File>,
    taken: u64,
    faults: u64,
    opens: u64,
}

impl<'a, R: SystemFiles> StdFiles<'a, R> {
    /// Files of the system, none of which is open, before any call and fault.
    pub fn new(system: &'a R) -> StdFiles<'a, R>
        ensures counts { (result.faults ≡ 0) × (result.opens ≡ 0) × (result.taken ≡ 0) }
        ensures closed { result.current ≡ None }
    {
        StdFiles {
            system,
            current: None,
            taken: 0,
            faults: 0,
            opens: 0,
        }
    }
}

impl<R: SystemFiles> Files for StdFiles<'_, R> {
    ghost use Rattle.std.specs.Prelude.{is_some};

    ghost state = { λ files. record { held = (λ _. untold); current = None; taken = files.taken; ready = is_some files.current; faults = files.faults; opens = files.opens } };

    fn open(&mut self, name: &str) -> Result<(), Failed> {
        self.opens = self.opens.saturating_add(1);
        self.current = None;
        self.taken = 0;
        match fs::open(self.system, name) {
            Ok(file) => {
                self.current = Some(file);
                Ok(())
            }
            Err(_) => {
                self.faults = self.faults.saturating_add(1);
                Err(Failed)
            }
        }
    }

    fn read(&mut self, into: &mut [u8]) -> Result<usize, Failed> {
        let Some(file) = &mut self.current else {
            unreachable!()
        };
        match file.read(into) {
            Ok(count) => {
                self.taken = self.taken.saturating_add(count as u64);
                Ok(count)
            }
            Err(_) => {
                self.faults = self.faults.saturating_add(1);
                Err(Failed)
            }
        }
    }
}

/// A sink over a writer, of which nothing is told. Each error is counted as a fault, and so is a write that takes nothing of
/// some bytes.
#[derive(Drop)]
pub struct StdSink<W: Write + Drop> {
    out: W,
    faults: u64,
}

impl<W: Write + Drop> StdSink<W> {
    /// A sink over a writer, such as standard output, before any fault.
    pub fn new(out: W) -> StdSink<W>
        ensures { result.faults ≡ 0 }
    {
        StdSink { out, faults: 0 }
    }
}

impl<W: Write + Drop> Sink for StdSink<W> {
    ghost state = { λ sink. record { written = None; faults = sink.faults } };

    fn write(&mut self, bytes: &[u8]) -> Result<usize, Failed> {
        match self.out.write(bytes) {
            Ok(count) if count > 0 || bytes.is_empty() => Ok(count),
            _ => {
                self.faults = self.faults.saturating_add(1);
                Err(Failed)
            }
        }
    }
}
