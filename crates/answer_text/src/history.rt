ghost use Rattle.std.specs.Prelude.{◌≡◌, ◌++◌, is_some, length, flat_map, OnOk, OnErr, codes, decimal};
ghost use Rattle.std.specs.List.{enumerate_from};
ghost use Rattle.sql_print.specs.Canon.{canonical};
ghost use Rattle.sql_tree.specs.Tree.{stmt_tree};
ghost use Rattle.reply_layout.specs.Layout.{change_line};
ghost use Rattle.answer_text.specs.Layout.{changes_of, history_text};
ghost use Rattle.run_log.specs.Events.{act_tree, committed, log_tree};

use crate::number::write_number;
use cell_core::Memory;
use run_log::{Event, StmtText};
use std::alloc::Global;

/// Appends the history of a log: the number of accepted changes, and a line for each. Where memory
/// runs out, `out` is unchanged.
pub fn write_history(alloc: Global, log: &[Event], out: &mut Vec<u8>) -> Result<(), Memory>
    ensures ok { OnOk result (out.new.items ≡ out.old.items ++ history_text (log_tree log.now)) }
    ensures err { OnErr result (out.new.items ≡ out.old.items) }
{
    let mut text = Vec::from_slice(alloc, b"history ")?;
    write_number(count_changes(log) as u64, &mut text)?;
    text.extend_from_slice(b"\n")?;
    write_changes(log, &mut text)?;
    out.extend_from_slice(&text)?;
    Ok(())
}

/// The number of accepted changes in a log.
fn count_changes(log: &[Event]) -> usize
    ensures { result ≡ length (changes_of (log_tree log.now)) }
{
    log.iter().filter(|event| is_change(event)).count()
}

/// Whether the event is an accepted change.
fn is_change(event: &Event) -> bool
    ensures { result ≡ is_some (committed (act_tree event.now.act)) }
{
    match event.act.committed() {
        Some(_) => true,
        None => false,
    }
}

/// Appends a line for each accepted change, numbered from 1.
fn write_changes(log: &[Event], out: &mut Vec<u8>) -> Result<(), Memory>
    ensures { OnOk result (out.new.items ≡ out.old.items ++ flat_map (λ (i, change). change_line i change) (enumerate_from 1 (changes_of (log_tree log.now)))) }
{
    let mut count = 0;
    for event in log {
        let Some(stmt) = event.act.committed() else {
            continue;
        };
        count += 1;
        write_change(count, event, stmt, out)?;
    }
    Ok(())
}

/// Appends the line of an accepted change.
fn write_change(count: u64, event: &Event, stmt: &StmtText, out: &mut Vec<u8>) -> Result<(), Memory>
    ensures { OnOk result (out.new.items ≡ out.old.items ++ change_line count (record { session = event.now.session; statement = event.now.statement; text = canonical (stmt_tree stmt.now) })) }
{
    write_number(count, out)?;
    out.extend_from_slice(b" ")?;
    write_number(u64::from(event.session), out)?;
    out.extend_from_slice(b" ")?;
    write_number(u64::from(event.statement), out)?;
    out.extend_from_slice(b" ")?;
    out.extend_from_slice(stmt.text())?;
    out.extend_from_slice(b";\n")?;
    Ok(())
}
