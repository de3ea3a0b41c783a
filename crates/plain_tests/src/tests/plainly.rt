//! What the plain programs, which know no plan and no pool, answer to sessions whose statements come
//! in a given order.
use answer_text::{write_reply, write_session_line};
use cell_core::{Db, Memory, Sequence, Table, copy_columns};
use reply_layout::Shown;
use sql_changes::change;
use sql_check::refusal_of;
use sql_definitions::{Refusal, Reply, Schema, Source};
use sql_meaning::plain_answer;
use sql_parse::{ParseError, parse};
use sql_print::print_stmt;
use sql_tree::{Query, Stmt};
use std::alloc::Global;

/// The statements of a session, of which its script has so many rounds.
pub(crate) type Round = &'static [&'static str];

/// The number of a session, and of one of its statements, both from 1.
pub(crate) type Place = (u32, u32);

/// What came of a statement: its place, its reply, and its text where it is an accepted change.
#[derive(Drop)]
pub(crate) struct Answer {
    place: Place,
    reply: Vec<u8>,
    accepted: Vec<u8>,
}

/// A table without its rows.
fn source_of(alloc: Global, table: &Table) -> Result<Source, Memory> {
    let columns = copy_columns(alloc, table.columns.as_slice())?;
    Ok(Source {
        table: table.name.share()?,
        columns,
    })
}

/// The tables without their rows.
fn schema_of(alloc: Global, db: &Db) -> Result<Schema, Memory> {
    let mut tables = Sequence::new(alloc);
    for table in db.tables.as_slice() {
        tables.push(source_of(alloc, table)?)?;
    }
    Ok(Schema { tables })
}

/// Why the tables refuse a statement, if they do.
fn refused(alloc: Global, stmt: &Stmt, db: &Db) -> Result<Option<Refusal>, Memory> {
    let schema = schema_of(alloc, db)?;
    refusal_of(alloc, stmt, &schema)
}

/// The reply to a query that the tables accept.
fn answered(alloc: Global, query: &Query, db: &Db) -> Result<Shown, Memory> {
    match plain_answer(alloc, query, db)? {
        Some(rows) => Ok(Shown::Rows(rows)),
        None => Ok(Shown::Refused(Refusal::Overflow)),
    }
}

/// The reply to a change that the tables accept.
fn changed(alloc: Global, stmt: &Stmt, db: &mut Db) -> Result<Shown, Memory> {
    match change(alloc, stmt, db)? {
        Reply::Done => Ok(Shown::Done),
        Reply::Rows(count) => Ok(Shown::Count(count)),
        Reply::Refused(refusal) => Ok(Shown::Refused(refusal)),
    }
}

/// The reply to a statement.
fn replied(alloc: Global, stmt: &Stmt, db: &mut Db) -> Result<Shown, Memory> {
    if let Some(refusal) = refused(alloc, stmt, db)? {
        return Ok(Shown::Refused(refusal));
    }
    match stmt {
        Stmt::Query(query) => answered(alloc, query, db),
        _ => changed(alloc, stmt, db),
    }
}

/// The text of a statement where its reply says that it changed something, or nothing.
fn change_text(alloc: Global, stmt: &Stmt, shown: &Shown) -> Result<Vec<u8>, Memory> {
    match shown {
        Shown::Done | Shown::Count(_) => print_stmt(alloc, stmt),
        Shown::Rows(_) | Shown::Mal(_) | Shown::Refused(_) => Ok(Vec::new(alloc)),
    }
}

/// What comes of a statement that was read.
fn served(alloc: Global, place: Place, stmt: &Stmt, db: &mut Db) -> Result<Answer, Memory> {
    let shown = replied(alloc, stmt, db)?;
    let text = change_text(alloc, stmt, &shown)?;
    let mut reply = Vec::new(alloc);
    write_reply(alloc, place.1, &shown, &mut reply)?;
    Ok(Answer {
        place,
        reply,
        accepted: text,
    })
}

/// What comes of a text that is refused.
fn unread(alloc: Global, place: Place, refusal: Refusal) -> Result<Answer, Memory> {
    let mut reply = Vec::new(alloc);
    write_reply(alloc, place.1, &Shown::Refused(refusal), &mut reply)?;
    Ok(Answer {
        place,
        reply,
        accepted: Vec::new(alloc),
    })
}

/// What comes of a text.
fn read(alloc: Global, place: Place, text: &str, db: &mut Db) -> Result<Answer, Memory> {
    match parse(alloc, text) {
        Ok(stmt) => served(alloc, place, &stmt, db),
        Err(ParseError::Refused(refusal)) => unread(alloc, place, refusal),
        Err(ParseError::Memory) => Err(Memory),
    }
}

/// The statement of this number, from 1, in a script of rounds.
fn statement_of(round: Round, number: u32) -> Option<&'static str> {
    let count = round.len();
    if count == 0 {
        return None;
    }
    match round.get((number as usize).wrapping_sub(1) % count) {
        Some(statement) => Some(*statement),
        None => None,
    }
}

/// The statement at a place, if there is one.
fn statement_at(sessions: &[Round], place: Place) -> Option<&'static str> {
    match sessions.get((place.0 as usize).wrapping_sub(1)) {
        Some(round) => statement_of(*round, place.1),
        None => None,
    }
}

/// What comes of the statements at these places, in this order. A place without a statement has no
/// reply.
pub(crate) fn answers_in_order(
    alloc: Global,
    sessions: &[Round],
    order: &[Place],
) -> Result<Vec<Answer>, Memory> {
    let mut db = Db {
        tables: Sequence::new(alloc),
    };
    let mut answers = Vec::new(alloc);
    for place in order {
        if let Some(text) = statement_at(sessions, *place) {
            answers.push(read(alloc, *place, text, &mut db)?)?;
        }
    }
    Ok(answers)
}

/// Adds the replies of a session.
fn write_replies(answers: &[Answer], session: u32, out: &mut Vec<u8>) -> Result<(), Memory> {
    for one in answers {
        if one.place.0 == session {
            out.extend_from_slice(one.reply.as_slice())?;
        }
    }
    Ok(())
}

/// Adds the section of a session.
fn write_session(
    alloc: Global,
    answers: &[Answer],
    session: u32,
    name: &str,
    out: &mut Vec<u8>,
) -> Result<(), Memory> {
    write_session_line(alloc, session, name, out)?;
    write_replies(answers, session, out)
}

/// Adds the line of an accepted change, which has this number.
fn write_change(
    alloc: Global,
    number: usize,
    answer: &Answer,
    out: &mut Vec<u8>,
) -> Result<(), Memory> {
    let (session, statement) = answer.place;
    let front = format!(in alloc; "{number} {session} {statement} ")?;
    out.extend_from_slice(front.as_bytes())?;
    out.extend_from_slice(answer.accepted.as_slice())?;
    out.extend_from_slice(b";\n")?;
    Ok(())
}

/// Adds the history.
fn write_changes(alloc: Global, answers: &[Answer], out: &mut Vec<u8>) -> Result<(), Memory> {
    let count = answers
        .iter()
        .filter(|one| !one.accepted.is_empty())
        .count();
    let head = format!(in alloc; "history {count}\n")?;
    out.extend_from_slice(head.as_bytes())?;
    let mut number = 0usize;
    for one in answers {
        if !one.accepted.is_empty() {
            number = number.saturating_add(1);
            write_change(alloc, number, one, out)?;
        }
    }
    Ok(())
}

/// The output up to the pool's section, of so many sessions with these names.
pub(crate) fn output_of(
    alloc: Global,
    names: &[&str],
    sessions: usize,
    answers: &[Answer],
) -> Result<Vec<u8>, Memory> {
    let mut out = Vec::new(alloc);
    let mut session = 0u32;
    for name in names.iter().take(sessions) {
        session = session.saturating_add(1);
        write_session(alloc, answers, session, name, &mut out)?;
    }
    write_changes(alloc, answers, &mut out)?;
    Ok(out)
}
