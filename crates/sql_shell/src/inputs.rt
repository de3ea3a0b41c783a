//! The scripts and the schedule, which a command reads before its first statement.
ghost use Rattle.std.specs.Prelude.{◌≡◌, ◌≢◌, ◌≤◌, [], ℕ, List, true, length, IfOk, IfErr, IsUtf8, OnOk};
ghost use Rattle.std.specs.List.{AllByRecursion};
ghost use Rattle.causes.specs.Faults.{Rose};
ghost use Rattle.sql_shell.specs.Answered as answered;
ghost use Rattle.sql_shell.specs.Failures.{at_of, is_by_content, status_of};
ghost use Rattle.sql_shell.specs.Inputs.{AreTurnsOf, HasBadSchedule, IsBadSchedule, IsCourse, IsFirstWrong, IsReached, IsReplay, IsSchedule, IsText, IsWrongSchedule, HasFailedAt};
ghost use Rattle.command_line.specs.Command.{files_of as files_in, options_of as options_in};
ghost use Rattle.sql_shell.specs.Scripts.{AreCut};

use crate::scripts::{CutScript, Failure, read_scripts};
use causes::{ReadError, Scripts, read_all};
use cell_core::{Sequence, Word};
use command_line::{Command, RunOptions, default_options};
use std::alloc::Global;
use turn_lines::{ScheduleError, turns_of};

/// How sessions are run.
#[derive(Drop)]
pub enum Course {
    /// Each on a thread of its own, with this number of workers for each of its queries.
    InThreads(u32),
    /// On one thread, by the turns of a schedule.
    ByTurns(Sequence<u32>),
}

/// What a command has read.
#[derive(Drop)]
pub struct Inputs {
    /// The scripts of its files.
    pub scripts: Vec<CutScript>,
    /// How their sessions are run.
    pub course: Course,
}

/// The files of a command's scripts.
fn files_of(command: &Command) -> &[Word]
    ensures { result.now ≡ files_in command.entry.now }
{
    match command {
        Command::Run { files, .. } => files.as_slice(),
        Command::Replay { files, .. } => files.as_slice(),
        Command::Generate { .. } => &[],
    }
}

/// The options of a command.
pub fn options_of(alloc: Global, command: Command) -> RunOptions
    ensures { result ≡ options_in command }
{
    match command {
        Command::Run { options, .. } => options,
        Command::Replay { options, .. } => options,
        Command::Generate { .. } => default_options(alloc),
    }
}

/// The number of a `generate`.
pub fn seed_of(command: &Command) -> Option<u64>
    ensures { result ≡ answered.seed_of command.now }
{
    match command {
        Command::Run { .. } => None,
        Command::Replay { .. } => None,
        Command::Generate { seed } => Some(*seed),
    }
}

/// Reads the scripts of a command's files, in order, and then its schedule. Fails at the first that
/// is wrong.
pub fn read_inputs<S: Scripts>(
    alloc: Global,
    source: &mut S,
    command: &Command,
) -> Result<Inputs, Failure>
    requires { length (files_in command.now) ≤ 16 }
    ensures cut { IfOk result (λ inputs. AreCut (S.bytes_of source.old) (files_in command.now) inputs.scripts.items) }
    ensures course { IfOk result (λ inputs. IsCourse (S.bytes_of source.old) command.now inputs.course) }
    ensures each { IfOk result (λ inputs. AreTurnsOf (length (files_in command.now)) inputs.course) }
    ensures wrong { IfErr result (λ e. is_by_content (status_of e) ≡ true → IsFirstWrong (S.bytes_of source.old) command.now (status_of e) (at_of e)) }
    ensures fault { IfErr result (λ e. status_of e ≡ 2 → HasFailedAt command.now (S.faults source.old) (S.faults source.new) (S.failed_at source.new) (at_of e)) }
    ensures unfailed { IfErr result (λ e. status_of e ≢ 2 → S.faults source.new ≡ S.faults source.old) }
    ensures uncounted { OnOk result (S.faults source.new ≡ S.faults source.old) }
    ensures reached { IfErr result (λ e. status_of e ≡ 2 → IsReached (S.bytes_of source.old) command.now (at_of e)) }
    ensures words { IfErr result (λ e. status_of e ≢ 1) }
    ensures file { IfErr result (λ e. status_of e ≢ 7 → at_of e ≤ length (files_in command.now)) }
{
    let scripts = match read_scripts(alloc, source, files_of(command)) {
        Ok(scripts) => scripts,
        Err(failure) => return Err(failure),
    };
    match read_course(alloc, source, command) {
        Ok(course) => Ok(Inputs { scripts, course }),
        Err(failure) => Err(failure),
    }
}

/// How a command's sessions are run: by its schedule, which is read, or in threads.
fn read_course<S: Scripts>(
    alloc: Global,
    source: &mut S,
    command: &Command,
) -> Result<Course, Failure>
    requires { length (files_in command.now) ≤ 16 }
    ensures course { IfOk result (λ course. IsCourse (S.bytes_of source.old) command.now course) }
    ensures each { IfOk result (λ course. AreTurnsOf (length (files_in command.now)) course) }
    ensures wrong { IfErr result (λ e. is_by_content (status_of e) ≡ true → IsWrongSchedule (S.bytes_of source.old) command.now (status_of e) (at_of e)) }
    ensures fault { IfErr result (λ e. status_of e ≡ 2 → HasFailedAt command.now (S.faults source.old) (S.faults source.new) (S.failed_at source.new) 0 × IsReplay command.now) }
    ensures unfailed { IfErr result (λ e. status_of e ≢ 2 → S.faults source.new ≡ S.faults source.old) }
    ensures uncounted { OnOk result (S.faults source.new ≡ S.faults source.old) }
    ensures words { IfErr result (λ e. status_of e ≢ 1) }
    ensures schedule { IfErr result (λ e. status_of e ≢ 7 → at_of e ≡ 0) }
{
    match command {
        Command::Run { workers, .. } => Ok(Course::InThreads(*workers)),
        Command::Replay {
            schedule,
            files,
            ..
        } => match read_schedule(alloc, source, schedule, files.len() as u32) {
            Ok(turns) => Ok(Course::ByTurns(Sequence::from_vec(turns))),
            Err(failure) => Err(failure),
        },
        Command::Generate { .. } => Ok(Course::ByTurns(Sequence::new(alloc))),
    }
}

/// Reads the turns of a schedule.
fn read_schedule<S: Scripts>(
    alloc: Global,
    source: &mut S,
    name: &Word,
    sessions: u32,
) -> Result<Vec<u32>, Failure>
    requires { sessions ≤ 16 }
    ensures turns { IfOk result (λ turns. (text : List ℕ) × IsText (S.bytes_of source.old) name.now text × IsSchedule sessions text turns.items) }
    ensures each { IfOk result (λ turns. AllByRecursion (λ turn. (1 ≤ turn) × (turn ≤ sessions)) turns.items) }
    ensures wrong { IfErr result (λ e. is_by_content (status_of e) ≡ true → HasBadSchedule (S.bytes_of source.old) name.now sessions (status_of e) (at_of e)) }
    ensures fault { IfErr result (λ e. status_of e ≡ 2 → Rose (S.faults source.old) (S.faults source.new)) }
    ensures failed { IfErr result (λ e. status_of e ≡ 2 → S.failed_at source.new name.now) }
    ensures unfailed { IfErr result (λ e. status_of e ≢ 2 → S.faults source.new ≡ S.faults source.old) }
    ensures uncounted { OnOk result (S.faults source.new ≡ S.faults source.old) }
    ensures words { IfErr result (λ e. status_of e ≢ 1) }
    ensures schedule { IfErr result (λ e. status_of e ≢ 7 → at_of e ≡ 0) }
{
    match read_all(alloc, source, name.text()) {
        Ok(script) => turns_in(alloc, script.text(), sessions),
        Err(ReadError::ReadFault) => Err(Failure::Fault(0)),
        Err(ReadError::TooLong) => Err(Failure::TooLong(0)),
        Err(ReadError::NotText) => Err(Failure::NotText(0)),
        Err(ReadError::Memory) => Err(Failure::Memory),
    }
}

/// The turns of a schedule that was read.
fn turns_in(alloc: Global, text: &str, sessions: u32) -> Result<Vec<u32>, Failure>
    requires sessions { sessions ≤ 16 }
    requires short { length text.now ≤ 1048576 }
    ensures turns { IfOk result (λ turns. IsSchedule sessions text.now turns.items) }
    ensures each { IfOk result (λ turns. AllByRecursion (λ turn. (1 ≤ turn) × (turn ≤ sessions)) turns.items) }
    ensures wrong { IfErr result (λ e. is_by_content (status_of e) ≡ true → IsBadSchedule sessions text.now (status_of e) (at_of e)) }
    ensures read { IfErr result (λ e. status_of e ≢ 2) }
    ensures words { IfErr result (λ e. status_of e ≢ 1) }
    ensures schedule { IfErr result (λ e. status_of e ≢ 7 → at_of e ≡ 0) }
{
    match turns_of(alloc, text, sessions) {
        Ok(turns) => Ok(turns),
        Err(ScheduleError::BadLine(line)) => Err(Failure::BadLine(line)),
        Err(ScheduleError::Memory) => Err(Failure::Memory),
    }
}
