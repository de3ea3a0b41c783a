ghost use Rattle.causes.specs.Faults.{Rose, next_count};
ghost use Rattle.causes.specs.InMemory.{bytes_of_name, files_of, place_in};
ghost use Rattle.std.specs.Io.KnownBytes.{Keeps, ReadConsumes};
ghost use Rattle.std.specs.Io.{ReadsAtMost};
ghost use Rattle.std.specs.Prelude.{◌≡◌, ℕ, ◌<◌, ◌≤◌, ◌↔◌, ◌⊎◌, List, length, Contains, IsErr, IsNone, IsSome, None, OnErr, OnOk};

use crate::error::Failed;
use crate::failing_calls::FailingCalls;
use crate::open_files::OpenFiles;
use crate::source::Scripts;
use cell_core::Word;
use std::marker::Model;

/// Files in memory that fail at chosen calls.
///
/// Each call of `start` or `read` has the next number, from 1 on. A listed call fails, and so does
/// the start of an unknown name. Of two files with one name the first counts.
#[derive(Drop)]
pub struct MemScripts {
    files: OpenFiles,
    calls: FailingCalls,
    /// The place of the file of the last fault; none where no file has the name, or no fault came
    /// yet.
    failed: Option<usize>,
}

impl Model for MemScripts {
    ghost use Rattle.causes.specs.InMemory.{FailingSource};

    ghost Value = { FailingSource };

    ghost view = { λ s. record {
      files = s.files.files;
      failing = s.calls.listed.items;
      started = s.files.started;
      remaining = s.files.remaining;
      calls = s.calls.calls;
      faults = s.calls.faults;
      failed = s.failed;
    } };
}

impl MemScripts {
    /// A source with these files, which fails at the calls with these numbers. Takes no memory.
    pub fn new(files: Vec<(Word, Vec<u8>)>, failing: Vec<u64>) -> MemScripts
        ensures files { result.files ≡ files_of files.items }
        ensures failing { result.failing ≡ failing.items }
        ensures started { result.started ≡ None }
        ensures remaining { result.remaining ≡ None }
        ensures calls { result.calls ≡ 0 }
        ensures faults { result.faults ≡ 0 }
        ensures failed { result.failed ≡ None }
    {
        MemScripts {
            files: OpenFiles::new(files),
            calls: FailingCalls::new(failing),
            failed: None,
        }
    }

    /// How many calls of `start` and `read` there were, which is the number of the last one, as the
    /// failing calls are numbered; 2^64 - 1 stands for that many or more.
    pub fn calls(&self) -> u64
        ensures { result ≡ self.now.calls }
    {
        self.calls.calls
    }
}

impl Scripts for MemScripts {
    ghost bytes_of = { λ s name. bytes_of_name s.files name };

    ghost is_started = { λ s. IsSome s.remaining };

    // Names without a file aren't distinguished.
    ghost is_reading = { λ s name. s.started ≡ place_in s.files name };

    ghost remaining = { λ s. s.remaining };

    ghost faults = { λ s. s.faults };

    // Names without a file aren't distinguished.
    ghost failed_at = { λ s name. s.failed ≡ place_in s.files name };

    fn start(&mut self, name: &str) -> Result<(), Failed>
        ensures started { OnOk result (IsSome self.new.remaining) }
        ensures reading { OnOk result (self.new.started ≡ place_in self.new.files name.now) }
        ensures begins { OnOk result (self.new.remaining ≡ bytes_of_name self.old.files name.now) }
        ensures kept { OnErr result (Keeps self.old.remaining self.new.remaining) }
        ensures reads_on { OnErr result (self.new.started ≡ self.old.started) }
        ensures same { (other : List ℕ) →
            bytes_of_name self.new.files other ≡ bytes_of_name self.old.files other }

        ensures later { self.old.faults ≤ self.new.faults }
        ensures failed { OnErr result (Rose self.old.faults self.new.faults) }
        ensures failed_here { OnErr result (self.new.failed ≡ place_in self.new.files name.now) }
        ensures uncounted { OnOk result (self.new.faults ≡ self.old.faults) }
        ensures unfailed { OnOk result (self.new.failed ≡ self.old.failed) }

        ensures numbered { self.new.calls ≡ next_count self.old.calls }
        ensures exactly { IsErr result ↔ (Contains self.old.failing self.new.calls
            ⊎ IsNone (bytes_of_name self.old.files name.now)) }
        ensures files { self.new.files ≡ self.old.files }
        ensures failing { self.new.failing ≡ self.old.failing }
    {
        if self.calls.begins_failing() || !self.files.open(name) {
            self.calls.fail();
            self.failed = self.files.place_of(name);
            return Err(Failed);
        }
        Ok(())
    }

    fn read(&mut self, buf: &mut [u8]) -> Result<usize, Failed>
        requires started { IsSome self.old.remaining }
        requires room { 0 < length buf.old }
        ensures still_started { IsSome self.new.remaining }
        ensures reads_on { self.new.started ≡ self.old.started }
        ensures bound { ReadsAtMost result buf.new }
        ensures bytes { ReadConsumes self.old.remaining self.new.remaining result buf.new }
        ensures same { (other : List ℕ) →
            bytes_of_name self.new.files other ≡ bytes_of_name self.old.files other }

        ensures later { self.old.faults ≤ self.new.faults }
        ensures failed { OnErr result (Rose self.old.faults self.new.faults) }
        ensures failed_here { OnErr result (self.new.failed ≡ self.old.started) }
        ensures uncounted { OnOk result (self.new.faults ≡ self.old.faults) }
        ensures unfailed { OnOk result (self.new.failed ≡ self.old.failed) }

        ensures numbered { self.new.calls ≡ next_count self.old.calls }
        ensures exactly { IsErr result ↔ Contains self.old.failing self.new.calls }
        ensures files { self.new.files ≡ self.old.files }
        ensures failing { self.new.failing ≡ self.old.failing }
    {
        if self.calls.begins_failing() {
            self.calls.fail();
            self.failed = self.files.started();
            return Err(Failed);
        }
        Ok(self.files.read(buf))
    }

    fn faults(&self) -> u64 {
        self.calls.faults
    }
}
