//! Adding one event to the log.
ghost use Rattle.std.specs.Prelude.{◌≡◌, ◌+◌, ◌<◌, ◌≤◌, ◌^◌, [], ◌∷◌, ◌++◌, OnOk, OnErr, vec_len};
ghost use Rattle.std.specs.Vec.{vec_capacity};
ghost use Rattle.pool_policy.specs.Pool.{pool_bytes};
ghost use Rattle.run_log.specs.Totals.{AreSmall, with_pool};
ghost use Rattle.book_core.specs.Answers.{looked_in};
ghost use Rattle.book_core.specs.BookView.{event_of};

use cell_core::Memory;
use pool_policy::Who;
use recycle_pool::{Found, Pool};
use run_log::{Act, Event, FoundLog, Totals};

/// The most events that a log has before an End.
pub(crate) const MOST: usize = 1 << 29;

/// One more than the number of sessions.
pub(crate) const SESSIONS: usize = 17;

/// Makes room for one event, for a look and an admission of so many instructions, and for the End
/// of each session after these.
pub(crate) fn make_room(log: &mut Vec<Event>, instrs: u32) -> Result<(), Memory>
    ensures items { log.new.items ≡ log.old.items }
    ensures room { OnOk result (vec_len log.new + 18 ≤ vec_capacity log.new) }
    ensures few { OnOk result (vec_len log.new < 2 ^ 29) }
    ensures kept { vec_capacity log.old ≤ vec_capacity log.new }
{
    if log.len() >= MOST {
        return Err(Memory);
    }
    log.reserve(2 * instrs as usize + SESSIONS + 1)?;
    Ok(())
}

/// Adds an event. It can't fail where there is room.
pub(crate) fn push_event(log: &mut Vec<Event>, event: Event) -> Result<(), Memory>
    requires { vec_len log.old < vec_capacity log.old }
    ensures items { log.new.items ≡ log.old.items ++ event ∷ [] }
    ensures room { vec_capacity log.old ≤ vec_capacity log.new }
{
    log.push(event)?;
    Ok(())
}

/// An event.
pub(crate) fn event(who: Who, act: Act) -> Event
    ensures { result ≡ event_of who act }
{
    Event {
        session: who.session,
        statement: who.statement,
        act,
    }
}

/// Counts an event, after which the pool is `pool`.
pub(crate) fn count_event(totals: &mut Totals, pool: &Pool)
    requires { AreSmall totals.old }
    ensures { totals.new ≡ with_pool pool.now totals.old }
{
    let (entries, bytes) = pool.totals();
    totals.note_event(entries, bytes);
}

/// The result of a look, as it is logged.
pub(crate) fn looked(found: &Found) -> FoundLog
    ensures { result ≡ looked_in found.now }
{
    match found {
        Found::Exact(id, _) => FoundLog::Exact(*id),
        Found::Within(id, _) => FoundLog::Within(*id),
        Found::Across(pieces) => FoundLog::Across(*pieces),
        Found::Miss => FoundLog::Miss,
    }
}
