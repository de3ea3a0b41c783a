ghost use Rattle.causes.specs.Faults.{AppendsPrefix, Rose};
ghost use Rattle.std.specs.Io.KnownBytes.{Appends};
ghost use Rattle.std.specs.Prelude.{◌≤◌, OnOk, OnErr};

use crate::error::WriteFault;
use crate::sink::Sink;

/// Adds exactly the text to the sink, and takes no memory.
///
/// `WriteFault` where the sink failed; then a prefix of the text was added.
pub fn write_all<K: Sink>(out: &mut K, text: &[u8]) -> Result<(), WriteFault>
    ensures added { OnOk result (Appends (K.contents out.old) (K.contents out.new) text.now) }
    ensures prefix { OnErr result
        (AppendsPrefix (K.contents out.old) (K.contents out.new) text.now) }
    ensures write_fault { OnErr result (Rose (K.faults out.old) (K.faults out.new)) }
    ensures later { K.faults out.old ≤ K.faults out.new }
{
    let mut done = 0;
    'pieces: while done < text.len() {
        done += out.write(&text[done..])?;
    }
    Ok(())
}
