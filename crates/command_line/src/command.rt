//! The commands, and their options as values.
ghost use Rattle.std.specs.Prelude.{◌≡◌, IfOk, IfSome};
ghost use Rattle.std.specs.Option.{option_and_then};
ghost use Rattle.command_line.specs.Command.{IsFit, are_files, command_named, ends_here, generate_in, replay_in, run_in};
ghost use Rattle.command_line.specs.Matches.{AreUtf8, texts_in, uses_in};
ghost use Rattle.command_line.specs.Words.{uses_named};

use crate::matches::{found, values};
use crate::numbers::number_between;
use crate::options::{options_of, workers_of};
use cell_core::{Memory, Sequence, Word, word_of};
use clap::ArgMatches;
use pool_policy::Admit;
use score_hook::Evict;
use std::alloc::Global;

/// The most files of a command.
const MOST_FILES: usize = 16;

/// The options of a run.
#[derive(Drop)]
pub struct RunOptions {
    /// The most stated bytes of the pool, at most 2^40.
    pub budget: u64,
    /// Which entry is evicted first.
    pub evict: Evict,
    /// Which results are admitted.
    pub admit: Admit,
    /// The credit that a shape starts with, 1 to 1,000,000.
    pub credits: u64,
    /// The weights of the 35 operators, 1 to 1,000 each, if `evict` uses them; else none.
    pub weights: Sequence<u64>,
    /// Whether the log of events is printed.
    pub events: bool,
}

/// What the program is to do.
#[derive(Drop)]
pub enum Command {
    /// Runs the scripts in these files.
    Run {
        /// The number of workers of a query, 1 to 16.
        workers: u32,
        /// The options.
        options: RunOptions,
        /// The files, 1 to 16.
        files: Sequence<Word>,
    },
    /// Runs them by a schedule.
    Replay {
        /// The options.
        options: RunOptions,
        /// The file of the schedule.
        schedule: Word,
        /// The files, 1 to 16.
        files: Sequence<Word>,
    },
    /// Replays the two sample scripts of a number, one after the other, with the default options.
    Generate {
        /// The number, 1 to 1,000,000.
        seed: u64,
    },
}

/// The command that words name; `None` where they are outside the grammar.
pub fn command_of(alloc: Global, words: &[Word]) -> Result<Option<Command>, Memory>
    ensures named { IfOk result (λ command. command ≡ command_named words.now) }
    ensures limits { IfOk result (λ command. IfSome command IsFit) }
{
    let [command, more @ ..] = words else {
        return Ok(None);
    };
    if command.text() == "run" {
        return run_of(alloc, more);
    }
    if command.text() == "replay" {
        return replay_of(alloc, more);
    }
    if command.text() == "generate" {
        return Ok(generate_of(more));
    }
    Ok(None)
}

/// `run`, by the words after it.
fn run_of(alloc: Global, words: &[Word]) -> Result<Option<Command>, Memory>
    ensures { IfOk result (λ command. command ≡ option_and_then run_in (uses_named words.now)) }
{
    let texts = texts_of(alloc, words)?;
    match found(alloc, texts.as_slice())? {
        Some(matches) => {
            let command = run_from(alloc, &matches)?;
            Ok(command)
        }
        None => Ok(None),
    }
}

/// `replay`, by the words after it.
fn replay_of(alloc: Global, words: &[Word]) -> Result<Option<Command>, Memory>
    ensures { IfOk result (λ command. command ≡ option_and_then replay_in (uses_named words.now)) }
{
    let texts = texts_of(alloc, words)?;
    match found(alloc, texts.as_slice())? {
        Some(matches) => {
            let command = replay_from(alloc, &matches)?;
            Ok(command)
        }
        None => Ok(None),
    }
}

/// `generate`, by the words after it.
fn generate_of(words: &[Word]) -> Option<Command>
    ensures { result ≡ generate_in words.now }
{
    let [word, more @ ..] = words else {
        return None;
    };
    if !ends_here(more) {
        return None;
    }
    match number_between(word.text(), 1, 1_000_000) {
        Some(seed) => Some(Command::Generate { seed }),
        None => None,
    }
}

/// Whether there is no further word, but for an `--` that no file follows.
fn ends_here(words: &[Word]) -> bool
    ensures { result ≡ ends_here words.now }
{
    match words {
        [] => true,
        [word, more @ ..] => match more {
            [] => word.text() == "--",
            [_, ..] => false,
        },
    }
}

/// `run` with these workers, options and files.
fn run_from(alloc: Global, matches: &ArgMatches) -> Result<Option<Command>, Memory>
    ensures { IfOk result (λ command. command ≡ run_in (uses_in matches.now)) }
{
    let Some(workers) = workers_of(alloc, matches)? else {
        return Ok(None);
    };
    let texts = values(alloc, matches, "files")?;
    if !are_files(texts.as_slice()) {
        return Ok(None);
    }
    let Some(options) = options_of(alloc, matches)? else {
        return Ok(None);
    };
    let files = words_of(alloc, texts.as_slice())?;
    Ok(Some(Command::Run {
        workers,
        options,
        files,
    }))
}

/// `replay` with these options, schedule and files. It has no workers; no word may name them.
fn replay_from(alloc: Global, matches: &ArgMatches) -> Result<Option<Command>, Memory>
    ensures { IfOk result (λ command. command ≡ replay_in (uses_in matches.now)) }
{
    let workers = values(alloc, matches, "workers")?;
    if !workers.is_empty() {
        return Ok(None);
    }
    let all = values(alloc, matches, "files")?;
    let [first, texts @ ..] = all.as_slice() else {
        return Ok(None);
    };
    if !are_files(texts) {
        return Ok(None);
    }
    let Some(options) = options_of(alloc, matches)? else {
        return Ok(None);
    };
    let schedule = word_of(alloc, first)?;
    let files = words_of(alloc, texts)?;
    Ok(Some(Command::Replay {
        options,
        schedule,
        files,
    }))
}

/// Whether a command may have this many files.
fn are_files(texts: &[&str]) -> bool
    ensures { result ≡ are_files (texts_in texts.now) }
{
    1 <= texts.len() && texts.len() <= MOST_FILES
}

/// The texts of words.
fn texts_of<'a>(alloc: Global, words: &'a [Word]) -> Result<Vec<&'a str>, Memory>
    ensures texts { IfOk result (λ texts. texts_in texts.items ≡ words.entry.now) }
    ensures utf8 { IfOk result (λ texts. AreUtf8 texts.items) }
{
    let mut texts = Vec::new(alloc);
    let mut rest = words;
    'words: while let [word, more @ ..] = rest {
        texts.push(word.text())?;
        rest = more;
    }
    Ok(texts)
}

/// Words of these texts.
fn words_of(alloc: Global, texts: &[&str]) -> Result<Sequence<Word>, Memory>
    ensures { IfOk result (λ words. words ≡ texts_in texts.now) }
{
    let mut words = Sequence::new(alloc);
    let mut rest = texts;
    'texts: while let [text, more @ ..] = rest {
        words.push(word_of(alloc, text)?)?;
        rest = more;
    }
    Ok(words)
}
