ghost use Rattle.std.specs.Prelude.{◌≡◌, ◌++◌, OnOk, OnErr, flat_map};
ghost use Rattle.std.specs.List.{enumerate_from};
ghost use Rattle.run_log.specs.Events.{act_tree, event_tree, log_tree};
ghost use Rattle.answer_text.specs.Layout.{act_text, admitted_text, event_line, log_text, looked_text, one_number};

use crate::number::write_number;
use cell_core::Memory;
use pool_policy::Admitted;
use run_log::{Act, Event, FoundLog};
use std::alloc::Global;

/// Appends a log: the number of its events, and a line for each. Where memory runs out, `out` is
/// unchanged.
pub fn write_log(alloc: Global, log: &[Event], out: &mut Vec<u8>) -> Result<(), Memory>
    ensures ok { OnOk result (out.new.items ≡ out.old.items ++ log_text (log_tree log.now)) }
    ensures err { OnErr result (out.new.items ≡ out.old.items) }
{
    let mut text = Vec::from_slice(alloc, b"log ")?;
    write_number(log.len() as u64, &mut text)?;
    text.extend_from_slice(b"\n")?;
    write_events(log, &mut text)?;
    out.extend_from_slice(&text)?;
    Ok(())
}

/// Appends a line for each event, numbered from 1.
fn write_events(log: &[Event], out: &mut Vec<u8>) -> Result<(), Memory>
    ensures { OnOk result (out.new.items ≡ out.old.items ++ flat_map (λ (i, event). event_line i event) (enumerate_from 1 (log_tree log.now))) }
{
    let mut count = 0;
    for event in log {
        count += 1;
        write_event(count, event, out)?;
    }
    Ok(())
}

/// Appends the line of an event.
fn write_event(place: u64, event: &Event, out: &mut Vec<u8>) -> Result<(), Memory>
    ensures { OnOk result (out.new.items ≡ out.old.items ++ event_line place (event_tree event.now)) }
{
    write_number(place, out)?;
    out.extend_from_slice(b" ")?;
    write_number(u64::from(event.session), out)?;
    out.extend_from_slice(b" ")?;
    write_number(u64::from(event.statement), out)?;
    out.extend_from_slice(b" ")?;
    write_act(&event.act, out)?;
    out.extend_from_slice(b"\n")?;
    Ok(())
}

/// Appends a name and a number.
fn write_one(name: &str, number: u64, out: &mut Vec<u8>) -> Result<(), Memory>
    ensures { OnOk result (out.new.items ≡ out.old.items ++ one_number name.now number) }
{
    out.extend_from_slice(name.as_bytes())?;
    out.extend_from_slice(b" ")?;
    write_number(number, out)
}

/// Appends what an event does.
fn write_act(act: &Act, out: &mut Vec<u8>) -> Result<(), Memory>
    ensures { OnOk result (out.new.items ≡ out.old.items ++ act_text (act_tree act.now)) }
{
    match act {
        Act::Begin { code, .. } => write_one("begin", u64::from(*code), out),
        Act::Look { instr, found, .. } => {
            write_one("look", u64::from(*instr), out)?;
            out.extend_from_slice(b" ")?;
            write_looked(*found, out)
        }
        Act::Admit { instr, result, .. } => {
            write_one("admit", u64::from(*instr), out)?;
            out.extend_from_slice(b" ")?;
            write_admitted(*result, out)
        }
        Act::Write { code, count, .. } => {
            write_one("write", u64::from(*code), out)?;
            out.extend_from_slice(b" ")?;
            write_number(*count, out)
        }
        Act::End { code } => write_one("end", u64::from(*code), out),
    }
}

/// Appends what a look found.
fn write_looked(found: FoundLog, out: &mut Vec<u8>) -> Result<(), Memory>
    ensures { OnOk result (out.new.items ≡ out.old.items ++ looked_text found) }
{
    match found {
        FoundLog::Exact(id) => write_one("exact", id, out),
        FoundLog::Within(id) => write_one("within", id, out),
        FoundLog::Across(pieces) => write_one("across", pieces, out),
        FoundLog::Miss => {
            out.extend_from_slice(b"miss")?;
            Ok(())
        }
    }
}

/// Appends the answer to an admission.
fn write_admitted(answer: Admitted, out: &mut Vec<u8>) -> Result<(), Memory>
    ensures { OnOk result (out.new.items ≡ out.old.items ++ admitted_text answer) }
{
    match answer {
        Admitted::Taken { id, bytes, gone } => {
            write_one("taken", id, out)?;
            out.extend_from_slice(b" ")?;
            write_number(bytes, out)?;
            out.extend_from_slice(b" ")?;
            write_number(gone, out)
        }
        Admitted::There(id) => write_one("there", id, out),
        Admitted::Stale(version) => write_one("stale", version, out),
        Admitted::Orphan(id) => write_one("orphan", id, out),
        Admitted::NoCredit(shape) => write_one("nocredit", u64::from(shape), out),
        Admitted::NoRoom(bytes) => write_one("noroom", bytes, out),
    }
}
