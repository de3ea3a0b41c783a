ghost use Rattle.std.specs.Prelude.{◌≡◌, ◌++◌, IfOk, OnOk, OnErr};
ghost use Rattle.reply_layout.specs.Layout.{line_count as line_count_of, reply_text, session_line};

use crate::number::write_number;
use crate::records::with_records;
use cell_core::Memory;
use reply_layout::Shown;
use std::alloc::Global;

/// Appends the reply to statement `k` of a session. Where memory runs out, `out` is unchanged.
pub fn write_reply(alloc: Global, k: u32, reply: &Shown, out: &mut Vec<u8>) -> Result<(), Memory>
    ensures ok { OnOk result (out.new.items ≡ out.old.items ++ reply_text k reply.now) }
    ensures err { OnErr result (out.new.items ≡ out.old.items) }
{
    let text = reply_bytes(alloc, k, reply)?;
    out.extend_from_slice(&text)?;
    Ok(())
}

/// The number of lines of a text, each of which ends with LF.
fn line_count(text: &[u8]) -> usize
    ensures { result ≡ line_count_of text.now }
{
    text.iter().filter(|byte| **byte == b'\n').count()
}

/// The reply to statement `k` of a session.
fn reply_bytes(alloc: Global, k: u32, reply: &Shown) -> Result<Vec<u8>, Memory>
    ensures { IfOk result (λ text. text.items ≡ reply_text k reply.now) }
{
    let mut text = Vec::new(alloc);
    write_number(u64::from(k), &mut text)?;
    match reply {
        Shown::Done => text.extend_from_slice(b" ok\n")?,
        Shown::Count(count) => {
            text.extend_from_slice(b" ok ")?;
            write_number(*count, &mut text)?;
            text.extend_from_slice(b"\n")?;
        }
        Shown::Rows(rows) => {
            text.extend_from_slice(b" rows ")?;
            write_number(rows.len() as u64, &mut text)?;
            text.extend_from_slice(b"\n")?;
            return with_records(alloc, text, rows.as_slice());
        }
        Shown::Mal(plan) => {
            text.extend_from_slice(b" plan ")?;
            write_number(line_count(plan.as_slice()) as u64, &mut text)?;
            text.extend_from_slice(b"\n")?;
            text.extend_from_slice(plan.as_slice())?;
        }
        Shown::Refused(refusal) => {
            text.extend_from_slice(b" refused ")?;
            write_number(u64::from(refusal.number()), &mut text)?;
            text.extend_from_slice(b" ")?;
            refusal.write_words(&mut text)?;
            text.extend_from_slice(b"\n")?;
        }
    }
    Ok(text)
}

/// Appends the line of a session. Where memory runs out, `out` is unchanged.
pub fn write_session_line(
    alloc: Global,
    session: u32,
    name: &str,
    out: &mut Vec<u8>,
) -> Result<(), Memory>
    ensures ok { OnOk result (out.new.items ≡ out.old.items ++ session_line session name.now) }
    ensures err { OnErr result (out.new.items ≡ out.old.items) }
{
    let mut line = Vec::from_slice(alloc, b"session ")?;
    write_number(u64::from(session), &mut line)?;
    line.extend_from_slice(b" ")?;
    line.extend_from_slice(name.as_bytes())?;
    line.extend_from_slice(b"\n")?;
    out.extend_from_slice(&line)?;
    Ok(())
}
