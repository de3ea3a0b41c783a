//! Reading the scripts of a run.
ghost use Rattle.std.specs.Prelude.{◌≡◌, ◌≢◌, ◌≤◌, ◌-◌, ◌⊎◌, ℕ, List, true, length, take, slice_get, IfOk, IfErr, IfSome, OnOk, Some};
ghost use Rattle.causes.specs.Faults.{Rose};
ghost use Rattle.sql_tree.specs.Pieces.{pieces_of};
ghost use Rattle.sql_shell.specs.Failures.{status_of, at_of, is_by_bytes};
ghost use Rattle.sql_shell.specs.Scripts.{IsRunnable, IsCut, AreCut, AreTexts, AreToldFirst, CanBeRun, IsUnfit, IsFirstUnfit};

use causes::{ReadError, Scripts, read_all};
use cell_core::{Memory, Sequence, Word};
use sql_parse::{SplitError, split};
use std::alloc::{AllocFailed, Global};

/// The status of a run that is served.
pub const STATUS_SERVED: u8 = 0;
/// The status of words outside the grammar.
pub const STATUS_WORDS: u8 = 1;
/// The status of a file that can't be read.
pub const STATUS_UNREAD: u8 = 2;
/// The status of an answer that can't be written.
pub const STATUS_UNWRITTEN: u8 = 3;
/// The status of a file with too many bytes or statements.
pub const STATUS_TOO_LONG: u8 = 4;
/// The status of a run that ran out of memory.
pub const STATUS_MEMORY: u8 = 5;
/// The status of a file that isn't UTF-8.
pub const STATUS_NOT_TEXT: u8 = 6;
/// The status of a schedule with a bad line.
pub const STATUS_BAD_LINE: u8 = 7;

/// A script that was read, cut into its statements.
#[derive(Drop)]
pub struct CutScript {
    /// Its file's name.
    pub name: Word,
    /// The texts of its statements.
    pub pieces: Sequence<Word>,
}

/// Why a run ends before its first statement. Files are counted from 1, and the schedule is file 0.
#[derive(Clone, Copy, PartialEq, Eq, Drop)]
pub enum Failure {
    /// The words are outside the grammar.
    Words,
    /// This file can't be read.
    Fault(u64),
    /// This file has too many bytes or too many statements.
    TooLong(u64),
    /// This file isn't UTF-8.
    NotText(u64),
    /// This line of the schedule, counted from 1, is bad.
    BadLine(u64),
    /// Memory ran out.
    Memory,
}

impl Failure {
    /// Its status.
    pub fn status(self) -> u8
        ensures { result ≡ status_of self }
    {
        match self {
            Failure::Words => STATUS_WORDS,
            Failure::Fault(_) => STATUS_UNREAD,
            Failure::TooLong(_) => STATUS_TOO_LONG,
            Failure::NotText(_) => STATUS_NOT_TEXT,
            Failure::BadLine(_) => STATUS_BAD_LINE,
            Failure::Memory => STATUS_MEMORY,
        }
    }

    /// The file that it is about, or the line of the schedule, or 0.
    pub fn at(self) -> u64
        ensures { result ≡ at_of self }
    {
        match self {
            Failure::Fault(number)
            | Failure::TooLong(number)
            | Failure::NotText(number)
            | Failure::BadLine(number) => number,
            _ => 0,
        }
    }
}

impl From<Memory> for Failure {
    ghost use Rattle.sql_shell.specs.declared.scripts.Failure.TheVariants.{Memory as NoMemory};

    ghost from_gives = { λ _ e. e ≡ NoMemory };

    fn from(_e: Memory) -> Failure {
        Failure::Memory
    }
}

impl<T: Drop> From<AllocFailed<T>> for Failure {
    ghost use Rattle.sql_shell.specs.declared.scripts.Failure.TheVariants.{Memory as NoMemory};

    ghost from_gives = { λ _ e. e ≡ NoMemory };

    fn from(_e: AllocFailed<T>) -> Failure {
        Failure::Memory
    }
}

/// Reads the scripts of these files in order, and cuts each into its statements. Fails at the first
/// that can't be run.
pub fn read_scripts<S: Scripts>(
    alloc: Global,
    source: &mut S,
    names: &[Word],
) -> Result<Vec<CutScript>, Failure>
    ensures cut { IfOk result (λ scripts. AreCut (S.bytes_of source.old) names.now scripts.items) }
    ensures unfit { IfErr result (λ e. is_by_bytes (status_of e) ≡ true →
        (texts : List (List ℕ)) × AreTexts (S.bytes_of source.old) names.now texts × IsFirstUnfit 1 texts (status_of e) (at_of e)) }
    ensures fault { IfErr result (λ e. status_of e ≡ 2 → Rose (S.faults source.old) (S.faults source.new)) }
    ensures failed { IfErr result (λ e. status_of e ≡ 2 → (name : List ℕ) × (slice_get names.now (at_of e - 1) ≡ Some name) × S.failed_at source.new name) }
    ensures unfailed { IfErr result (λ e. status_of e ≢ 2 → S.faults source.new ≡ S.faults source.old) }
    ensures uncounted { OnOk result (S.faults source.new ≡ S.faults source.old) }
    ensures reached { IfErr result (λ e. status_of e ≡ 2 → (1 ≤ at_of e) × CanBeRun (S.bytes_of source.old) (take (at_of e - 1) names.now)) }
    ensures words { IfErr result (λ e. status_of e ≢ 1) }
    ensures script { IfErr result (λ e. status_of e ≢ 7) }
    ensures within { IfErr result (λ e. at_of e ≤ length names.now) }
    ensures same { (other : List ℕ) → S.bytes_of source.new other ≡ S.bytes_of source.old other }
{
    let mut read = Vec::new(alloc);
    'files: for i in 0..names.len() {
        match read_script(alloc, source, &names[i], i as u64 + 1) {
            Ok(script) => read.push(script)?,
            Err(failure) => return Err(failure),
        }
    }
    Ok(read)
}

/// Reads one script.
#[tactic(auto, using(crate::proofs::ScriptLemmas::is_cut))]
fn read_script<S: Scripts>(
    alloc: Global,
    source: &mut S,
    name: &Word,
    number: u64,
) -> Result<CutScript, Failure>
    ensures cut { IfOk result (λ script. IsCut (S.bytes_of source.old) name.now script) }
    ensures unfit { IfErr result (λ e. is_by_bytes (status_of e) ≡ true → IfSome (S.bytes_of source.old name.now) (λ text. IsUnfit text (status_of e))) }
    ensures fault { IfErr result (λ e. status_of e ≡ 2 → Rose (S.faults source.old) (S.faults source.new)) }
    ensures failed { IfErr result (λ e. status_of e ≡ 2 → S.failed_at source.new name.now) }
    ensures unfailed { IfErr result (λ e. status_of e ≢ 2 → S.faults source.new ≡ S.faults source.old) }
    ensures uncounted { OnOk result (S.faults source.new ≡ S.faults source.old) }
    ensures words { IfErr result (λ e. status_of e ≢ 1) }
    ensures script { IfErr result (λ e. status_of e ≢ 7) }
    ensures place { IfErr result (λ e. (status_of e ≡ 5) × (at_of e ≡ 0) ⊎ (at_of e ≡ number)) }
    ensures same { (other : List ℕ) → S.bytes_of source.new other ≡ S.bytes_of source.old other }
{
    match read_all(alloc, source, name.text()) {
        Ok(script) => cut(alloc, name, script.text(), number),
        Err(ReadError::ReadFault) => Err(Failure::Fault(number)),
        Err(ReadError::TooLong) => Err(Failure::TooLong(number)),
        Err(ReadError::NotText) => Err(Failure::NotText(number)),
        Err(ReadError::Memory) => Err(Failure::Memory),
    }
}

/// Cuts a script into its statements.
fn cut(alloc: Global, name: &Word, text: &str, number: u64) -> Result<CutScript, Failure>
    requires { length text.now ≤ 1048576 }
    ensures cut { IfOk result (λ script. (script.name ≡ name.now) × IsRunnable text.now × (script.pieces ≡ pieces_of text.now)) }
    ensures unfit { IfErr result (λ e. is_by_bytes (status_of e) ≡ true → IsUnfit text.now (status_of e)) }
    ensures told { IfErr result (λ e. status_of e ≢ 2) }
    ensures words { IfErr result (λ e. status_of e ≢ 1) }
    ensures script { IfErr result (λ e. status_of e ≢ 7) }
    ensures place { IfErr result (λ e. (status_of e ≡ 5) × (at_of e ≡ 0) ⊎ (at_of e ≡ number)) }
{
    match split(alloc, text) {
        Ok(pieces) => {
            let name = name.share()?;
            Ok(CutScript {
                name,
                pieces: Sequence::from_vec(pieces),
            })
        }
        Err(SplitError::TooMany) => Err(Failure::TooLong(number)),
        Err(SplitError::Memory) => Err(Failure::Memory),
    }
}
