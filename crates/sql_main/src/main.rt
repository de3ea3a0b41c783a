//! The program `recycle_sql`: it hands the words of the command line, the files of the system and
//! standard output to `sql_shell::top`, and ends with the status.
//!
//! Where the status isn't 0, it writes `status <s> at <at>` to standard error.
#![tactic(auto)]

ghost use Rattle.std.specs.Prelude.{◌≡◌, ◌<◌};

use bat_kernel::Kernel;
use causes::{FileScripts, OutSink};
use cell_core::{Steps, Word, word_of};
use sql_shell::{STATUS_MEMORY, STATUS_SERVED, STATUS_WORDS, Served, top};
use std::alloc::Global;
use std::io::Write;
use std::marker::Brand;
use std::process::ExitCode;
use std::rt::Files;
use std::sync::Wait;
use std::sync::ledger::{Blank, Ledger};
use std::thread::Threads;
use std::{env, io, mem};

/// A status, and the file that it is about.
type Outcome = (u8, u64);

fn main(rt: HostRuntime) -> ExitCode {
    let (status, at) = match words_of(&rt) {
        Ok(words) => run::<Brand, _, _, _>(
            &rt,
            rt.alloc(),
            words.as_slice(),
            &rt,
            rt.stdout(),
            Blank::new(1),
        ),
        Err(outcome) => outcome,
    };
    if status != STATUS_SERVED {
        let _ = eprintln!(rt; "status {status} at {at}");
    }
    ExitCode::from(status)
}

/// Runs the program over the files of the system, with a writer for its output.
fn run<L: Ledger, R: Threads + Wait + Sync, F: Files + Drop, W: Write + Drop>(
    rt: &R,
    alloc: Global,
    words: &[Word],
    files: F,
    writer: W,
    blank: Blank,
) -> Outcome
    requires name { blank.name ≡ L.name }
    requires parts { blank.parts ≡ L.parts }
    requires some { 0 < blank.parts }
{
    let mut steps = Steps::<L>::new(blank);
    let mut scripts = FileScripts::new(files);
    let mut out = OutSink::new(writer);
    let kernel = Kernel::new();
    let served = top(
        rt,
        alloc,
        words,
        &mut scripts,
        &mut out,
        &kernel,
        &mut steps,
    );
    let Served {
        status,
        at,
        log,
        ..
    } = served;
    // The process ends next: the system frees the log at once, not row by row.
    mem::forget(log);
    (status, at)
}

/// The words after the program's name. Words that the system can't provide as text are outside the
/// grammar.
fn words_of(rt: &HostRuntime) -> Result<Vec<Word>, Outcome> {
    let args = match env::args(rt) {
        Ok(args) => args,
        Err(e) if e.kind() == io::ErrorKind::OutOfMemory => return Err((STATUS_MEMORY, 0)),
        Err(_) => return Err((STATUS_WORDS, 0)),
    };
    let mut words = Vec::new(rt.alloc());
    for arg in args.skip(1) {
        let Ok(word) = word_of(rt.alloc(), arg.as_str()) else {
            return Err((STATUS_MEMORY, 0));
        };
        if words.push(word).is_err() {
            return Err((STATUS_MEMORY, 0));
        }
    }
    Ok(words)
}
