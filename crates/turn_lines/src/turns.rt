ghost use Rattle.std.specs.Prelude.{◌≡◌, ◌+◌, ◌<◌, ◌≤◌, ◌∷◌, length, IfOk, IfErr};
ghost use Rattle.std.specs.List.{AllByRecursion, list_all};
ghost use Rattle.text_bytes.specs.Classes.{is_digit};
ghost use Rattle.turn_lines.specs.Schedule as schedule;
ghost use Rattle.turn_lines.specs.Schedule.{Turns, lines_of, schedule_of};

use cell_core::Memory;
use std::alloc::{AllocFailed, Global};
use text_bytes::{is_digit, number_64};

/// Why a text is no schedule.
#[derive(Clone, Copy, PartialEq, Eq, Drop)]
pub enum ScheduleError {
    /// The line with this number, counted from 1, is the first that numbers no session.
    BadLine(u64),
    /// Memory ran out.
    Memory,
}

impl From<Memory> for ScheduleError {
    ghost use Rattle.turn_lines.specs.declared.turns.ScheduleError.TheVariants.{Memory as NoMemory};

    ghost from_gives = { λ _ e. e ≡ NoMemory };

    fn from(_e: Memory) -> ScheduleError {
        ScheduleError::Memory
    }
}

impl<T: Drop> From<AllocFailed<T>> for ScheduleError {
    ghost use Rattle.turn_lines.specs.declared.turns.ScheduleError.TheVariants.{Memory as NoMemory};

    ghost from_gives = { λ _ e. e ≡ NoMemory };

    fn from(_e: AllocFailed<T>) -> ScheduleError {
        ScheduleError::Memory
    }
}

/// The turns of a text, if each of its lines numbers one of the sessions, which are counted from 1.
pub fn turns_of(alloc: Global, text: &str, sessions: u32) -> Result<Vec<u32>, ScheduleError>
    ensures turns { IfOk result (λ turns. schedule_of sessions text.now ≡ Turns turns.items) }
    ensures within { IfOk result (λ turns. AllByRecursion (λ turn. (1 ≤ turn) × (turn ≤ sessions)) turns.items) }
    ensures bad { IfErr result (schedule.TellsBadLine sessions text.now) }
{
    let mut turns = Vec::new(alloc);
    let mut rest = text;
    'lines: while !rest.is_empty() {
        let (line, more) = cut_line(rest);
        let Some(turn) = turn_in(sessions, line) else {
            return Err(ScheduleError::BadLine(turns.len() as u64 + 1));
        };
        turns.push(turn)?;
        rest = more;
    }
    Ok(turns)
}

/// The first line of a text, and the rest after its LF.
fn cut_line(text: &str) -> (&str, &str)
    requires { 0 < length text.now }
    ensures lines { lines_of text.entry.now ≡ result.0.now ∷ lines_of result.1.now }
    ensures shorter { length result.1.now < length text.entry.now }
{
    match text.split_once('\n') {
        Some((line, more)) => (line, more),
        None => (text, ""),
    }
}

/// The session that a line numbers, if it numbers one from 1 to `sessions`.
fn turn_in(sessions: u32, line: &str) -> Option<u32>
    ensures { result ≡ schedule.turn_in sessions line.now }
{
    if !is_plain(line.as_bytes()) {
        return None;
    }
    match number_64(line.as_bytes()) {
        Some(number) if 1 <= number && number <= u64::from(sessions) => Some(number as u32),
        _ => None,
    }
}

/// Whether these are decimal digits, the first of which isn't 0.
fn is_plain(bytes: &[u8]) -> bool
    ensures { result ≡ schedule.is_plain bytes.now }
{
    match bytes {
        [] => false,
        [first, ..] => *first != b'0' && are_digits(bytes),
    }
}

/// Whether all of these are decimal digits.
fn are_digits(bytes: &[u8]) -> bool
    ensures { result ≡ list_all is_digit bytes.now }
{
    bytes.iter().all(|byte| is_digit(*byte))
}
