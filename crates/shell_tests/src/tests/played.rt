//! Runs of a line of words over files.
use super::{RunOutcome, run_words};
use cell_core::{Memory, word_of};
use std::alloc::Global;
use std::marker::Brand;
use std::sync::Wait;
use std::sync::ledger::Blank;
use std::thread::Threads;

/// A run of the words of a line over files, each with its name, in which nothing fails.
pub(crate) fn run_line<R: Threads + Wait + Sync>(
    rt: &R,
    alloc: Global,
    line: &str,
    files: &[(&str, &[u8])],
) -> Result<RunOutcome, Memory> {
    let words: Vec<&str> = line.split_whitespace().collect(alloc)?;
    let mut held = Vec::new(alloc);
    for (name, text) in files {
        held.push((word_of(alloc, name)?, Vec::from_slice(alloc, *text)?))?;
    }
    run_words::<Brand, _>(rt, alloc, words.as_slice(), held, (0, 0), Blank::new(1))
}
