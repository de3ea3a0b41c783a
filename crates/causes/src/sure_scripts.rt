ghost use Rattle.causes.specs.InMemory.{bytes_of_name, files_of};
ghost use Rattle.std.specs.Prelude.{◌≡◌, [], IsSome, None, Some, unwrap_or};

use crate::error::Failed;
use crate::open_files::OpenFiles;
use crate::source::Scripts;
use cell_core::Word;
use std::marker::Model;

/// Files in memory that never fail. An unknown name is an empty text.
///
/// Of two files with one name the first counts.
#[derive(Drop)]
pub struct SureScripts {
    files: OpenFiles,
}

impl Model for SureScripts {
    ghost use Rattle.causes.specs.InMemory.{Source};

    ghost Value = { Source };

    ghost view = { λ s. s.files };
}

impl SureScripts {
    /// A source with these files. Takes no memory.
    pub fn new(files: Vec<(Word, Vec<u8>)>) -> SureScripts
        ensures files { result.files ≡ files_of files.items }
        ensures remaining { result.remaining ≡ None }
    {
        SureScripts {
            files: OpenFiles::new(files),
        }
    }
}

impl Scripts for SureScripts {
    ghost bytes_of = { λ s name. Some (unwrap_or (bytes_of_name s.files name) []) };

    ghost is_started = { λ s. IsSome s.remaining };

    // No name needs to be distinguished, since none ever fails.
    ghost is_reading = { λ _ _. Unit {0} };

    ghost remaining = { λ s. s.remaining };

    ghost faults = { λ _. 0 };

    ghost failed_at = { λ _ _. ⊥ };

    fn start(&mut self, name: &str) -> Result<(), Failed> {
        if !self.files.open(name) {
            self.files.open_empty();
        }
        Ok(())
    }

    fn read(&mut self, buf: &mut [u8]) -> Result<usize, Failed> {
        Ok(self.files.read(buf))
    }

    fn faults(&self) -> u64 {
        0
    }
}
