//! Runs of the program by a kernel that a test hands in.
ghost use Rattle.std.specs.Prelude.{◌≡◌, ◌<◌};

use bat_core::Operate;
use causes::{MemSink, SureScripts};
use cell_core::{Memory, Steps, Word, word_of};
use sql_shell::top;
use std::alloc::Global;
use std::marker::Brand;
use std::sync::Wait;
use std::sync::atomic::{AtomicU64, Ordering};
use std::sync::ledger::{Blank, Ledger};
use std::thread;
use std::thread::Threads;

/// The name of a file, and its text.
pub type NamedText<'a> = (&'a str, &'a str);

/// What a run did.
#[derive(Drop)]
pub struct ProgramRun {
    /// Its status.
    pub status: u8,
    /// The file or the line that the status is about.
    pub at: u64,
    /// Its work.
    pub work: u128,
    /// Its output.
    pub text: Vec<u8>,
}

/// The bytes that an output may have.
const ROOM: usize = 2_000_000;

/// The most looks at a count that is awaited.
const MOST_LOOKS: u64 = 10_000_000;

/// Waits until a count is as high as this, and returns whether it came to be: a kernel that holds a call
/// until another one has started.
pub fn await_count(count: &AtomicU64, least: u64) -> bool {
    for _ in 0..MOST_LOOKS {
        if count.load(Ordering::SeqCst) >= least {
            return true;
        }
        thread::yield_now();
    }
    false
}

/// The words of a command line.
fn words_of(alloc: Global, line: &str) -> Result<Vec<Word>, Memory> {
    let mut words = Vec::new(alloc);
    for word in line.split_whitespace() {
        words.push(word_of(alloc, word)?)?;
    }
    Ok(words)
}

/// The files, in memory.
fn scripts_of(alloc: Global, files: &[NamedText<'_>]) -> Result<SureScripts, Memory> {
    let mut held = Vec::new(alloc);
    for (name, text) in files {
        let text = Vec::from_slice(alloc, text.as_bytes())?;
        held.push((word_of(alloc, name)?, text))?;
    }
    Ok(SureScripts::new(held))
}

/// A run of the words over files, with its counter's ledger.
fn run_words_by<L: Ledger, R: Threads + Wait + Sync, E: Operate + Sync>(
    rt: &R,
    alloc: Global,
    words: Vec<Word>,
    mut scripts: SureScripts,
    kernel: &E,
    blank: Blank,
) -> Result<ProgramRun, Memory>
    requires name { blank.name ≡ L.name }
    requires parts { blank.parts ≡ L.parts }
    requires some { 0 < blank.parts }
{
    let mut out = MemSink::new(alloc, 1000, ROOM, Vec::new(alloc))?;
    let mut steps = Steps::<L>::new(blank);
    let served = top(
        rt,
        alloc,
        words.as_slice(),
        &mut scripts,
        &mut out,
        kernel,
        &mut steps,
    );
    let text = Vec::from_slice(alloc, out.held())?;
    Ok(ProgramRun {
        status: served.status,
        at: served.at,
        work: served.work,
        text,
    })
}

/// A run of the words over files.
pub fn run_by<R: Threads + Wait + Sync, E: Operate + Sync>(
    rt: &R,
    alloc: Global,
    line: &str,
    files: &[NamedText<'_>],
    kernel: &E,
) -> Result<ProgramRun, Memory> {
    let words = words_of(alloc, line)?;
    let scripts = scripts_of(alloc, files)?;
    run_words_by::<Brand, _, _>(rt, alloc, words, scripts, kernel, Blank::new(1))
}
