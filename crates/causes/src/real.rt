ghost use Rattle.causes.specs.Faults.{next_count};
ghost use Rattle.std.specs.Prelude.{◌≡◌, ◌≤◌, IsSome, None};

use crate::error::Failed;
use crate::sink::Sink;
use crate::source::Scripts;
use std::fs;
use std::io::{Read, Write};
use std::rt::Files;

/// The files of the system: a script's name is its path. Contracts know no bytes of it, and don't
/// distinguish names.
///
/// Each error counts as a fault, also that of an interrupted call.
#[derive(Drop)]
pub struct FileScripts<R: Files> {
    files: R,
    started: Option<R::File>,
    faults: u64,
}

impl<R: Files> FileScripts<R> {
    /// The files that the runtime `files` opens, as `&rt`.
    pub fn new(files: R) -> FileScripts<R>
        ensures { ⟦<FileScripts<R> as Scripts>⟧.faults result ≡ 0 }
    {
        FileScripts {
            files,
            started: None,
            faults: 0,
        }
    }

    /// Counts a fault.
    fn fail(&mut self) -> Failed
        ensures counted { self.new ≡ record self.old { faults = next_count self.old.faults } }
        ensures later { self.old.faults ≤ self.new.faults }
    {
        self.faults = self.faults.saturating_add(1);
        Failed
    }
}

impl<R: Files> Scripts for FileScripts<R> {
    ghost bytes_of = { λ _ _. None };

    ghost is_started = { λ s. IsSome s.started };

    ghost is_reading = { λ _ _. Unit {0} };

    ghost remaining = { λ _. None };

    ghost faults = { λ s. s.faults };

    ghost failed_at = { λ _ _. Unit {0} };

    fn start(&mut self, name: &str) -> Result<(), Failed> {
        match fs::open(&self.files, name) {
            Ok(file) => {
                self.started = Some(file);
                Ok(())
            }
            Err(_) => Err(self.fail()),
        }
    }

    fn read(&mut self, buf: &mut [u8]) -> Result<usize, Failed> {
        let file = self.started.as_mut().unwrap();
        match file.read(buf) {
            Ok(count) => Ok(count),
            Err(_) => Err(self.fail()),
        }
    }

    fn faults(&self) -> u64 {
        self.faults
    }
}

/// A writer of the system, as standard output. It flushes with each write, and contracts know no
/// bytes of it.
///
/// Each error counts as a fault, and so does a write that takes no byte.
#[derive(Drop)]
pub struct OutSink<W: Write> {
    writer: W,
    faults: u64,
}

impl<W: Write> OutSink<W> {
    /// A sink that writes to `writer`, as `rt.stdout()`.
    pub fn new(writer: W) -> OutSink<W>
        ensures { ⟦<OutSink<W> as Sink>⟧.faults result ≡ 0 }
    {
        OutSink { writer, faults: 0 }
    }
}

impl<W: Write> Sink for OutSink<W> {
    ghost contents = { λ _. None };

    ghost faults = { λ s. s.faults };

    fn write(&mut self, piece: &[u8]) -> Result<usize, Failed> {
        match self.writer.write(piece) {
            Ok(count) if count > 0 && self.writer.flush().is_ok() => Ok(count),
            _ => {
                self.faults = self.faults.saturating_add(1);
                Err(Failed)
            }
        }
    }

    fn faults(&self) -> u64 {
        self.faults
    }
}
