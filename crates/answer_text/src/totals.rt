ghost use Rattle.std.specs.Prelude.{◌≡◌, ◌++◌, codes, decimal, OnOk, OnErr};
ghost use Rattle.reply_layout.specs.Layout.{named_line};
ghost use Rattle.answer_text.specs.Layout.{totals_text};

use crate::number::{write_great_number, write_number};
use cell_core::Memory;
use run_log::Totals;
use std::alloc::Global;

/// Appends the pool section: a line for each of the totals. Where memory runs out, `out` is
/// unchanged.
pub fn write_totals(alloc: Global, totals: &Totals, out: &mut Vec<u8>) -> Result<(), Memory>
    ensures ok { OnOk result (out.new.items ≡ out.old.items ++ totals_text totals.now) }
    ensures err { OnErr result (out.new.items ≡ out.old.items) }
{
    let mut text = Vec::from_slice(alloc, b"pool\n")?;
    write_line("entries", totals.entries, &mut text)?;
    write_line("bytes", totals.bytes, &mut text)?;
    write_line("peak", totals.peak, &mut text)?;
    write_line("looks", totals.looks, &mut text)?;
    write_line("exact", totals.exact, &mut text)?;
    write_line("within", totals.within, &mut text)?;
    write_line("across", totals.across, &mut text)?;
    write_line("miss", totals.miss, &mut text)?;
    write_line("taken", totals.taken, &mut text)?;
    write_line("there", totals.there, &mut text)?;
    write_line("stale", totals.stale, &mut text)?;
    write_line("orphan", totals.orphan, &mut text)?;
    write_line("nocredit", totals.nocredit, &mut text)?;
    write_line("noroom", totals.noroom, &mut text)?;
    write_line("evicted", totals.evicted, &mut text)?;
    write_line("dropped", totals.dropped, &mut text)?;
    write_line("carried", totals.carried, &mut text)?;
    write_work(totals.work, &mut text)?;
    write_line("events", totals.events, &mut text)?;
    out.extend_from_slice(&text)?;
    Ok(())
}

/// Appends the line of a total.
fn write_line(name: &str, number: u64, out: &mut Vec<u8>) -> Result<(), Memory>
    ensures { OnOk result (out.new.items ≡ out.old.items ++ named_line name.now number) }
{
    out.extend_from_slice(name.as_bytes())?;
    out.extend_from_slice(b" ")?;
    write_number(number, out)?;
    out.extend_from_slice(b"\n")?;
    Ok(())
}

/// Appends the line of the work.
fn write_work(work: u128, out: &mut Vec<u8>) -> Result<(), Memory>
    ensures { OnOk result (out.new.items ≡ out.old.items ++ named_line (codes "work") work) }
{
    out.extend_from_slice(b"work ")?;
    write_great_number(work, out)?;
    out.extend_from_slice(b"\n")?;
    Ok(())
}
