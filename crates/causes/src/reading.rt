ghost use Rattle.causes.specs.Faults.{Rose};
ghost use Rattle.causes.specs.Limits.{most_bytes};
ghost use Rattle.std.specs.Prelude.{◌≡◌, ◌≢◌, ℕ, ◌<◌, ◌≤◌, List, length, IfErr, IfOk, IfSome, IsErrOf, IsUtf8, Err};

use crate::error::ReadError;
use crate::source::Scripts;
use std::alloc::Global;
use std::marker::Model;

/// The most bytes that a script may have.
pub const MOST_BYTES: usize = 1_048_576;

/// How many bytes are asked for at once.
const PIECE_BYTES: usize = 65_536;

/// The text of a script. Contracts see it as its bytes, which are UTF-8.
#[derive(Drop)]
pub struct Script {
    text: String,
}

impl Model for Script {
    ghost use Rattle.std.specs.Prelude.{List, ℕ, string_bytes};

    ghost Value = { List ℕ };

    ghost view = { λ script. string_bytes script.text };
}

impl Script {
    /// The text, lent without memory.
    pub fn text(&self) -> &str
        ensures text { result.now ≡ self.now }
        ensures utf8 { IsUtf8 self.now }
    {
        self.text.as_str()
    }
}

/// The whole text of the script with that name.
///
/// `ReadFault` where the source failed at this name, `TooLong` where more than `MOST_BYTES` bytes
/// come (the rest isn't read), `NotText` where the whole isn't UTF-8, `Memory` where memory ran
/// out. All memory is taken before the first byte is read, so `Memory` leaves the source as it was.
pub fn read_all<S: Scripts>(alloc: Global, scripts: &mut S, name: &str) -> Result<Script, ReadError>
    ensures told { IfOk result (λ text.
        IfSome (S.bytes_of scripts.old name.now) (λ bytes. text ≡ bytes)) }
    ensures short { IfOk result (λ text. length text ≤ most_bytes) }

    ensures read_fault { IsErrOf result ReadError.ReadFault →
        Rose (S.faults scripts.old) (S.faults scripts.new) }
    ensures failed_here { IsErrOf result ReadError.ReadFault → S.failed_at scripts.new name.now }
    ensures uncounted { result ≢ Err ReadError.ReadFault →
        S.faults scripts.new ≡ S.faults scripts.old }
    ensures too_long { IsErrOf result ReadError.TooLong →
        IfSome (S.bytes_of scripts.old name.now) (λ bytes. most_bytes < length bytes) }
    ensures not_text { IsErrOf result ReadError.NotText →
        IfSome (S.bytes_of scripts.old name.now) (λ bytes.
        (length bytes ≤ most_bytes) × (¬ IsUtf8 bytes)) }

    ensures memory { IsErrOf result ReadError.Memory → scripts.new ≡ scripts.old }
    ensures later { S.faults scripts.old ≤ S.faults scripts.new }
    ensures same { (other : List ℕ) → S.bytes_of scripts.new other ≡ S.bytes_of scripts.old other }
{
    let bytes = gather(alloc, scripts, name)?;
    match String::from_utf8(bytes) {
        Ok(text) => Ok(Script { text }),
        Err(_) => Err(ReadError::NotText),
    }
}

/// All bytes of the script with that name, or why not.
fn gather<S: Scripts>(alloc: Global, scripts: &mut S, name: &str) -> Result<Vec<u8>, ReadError>
    ensures told { IfOk result (λ all.
        IfSome (S.bytes_of scripts.old name.now) (λ bytes. all.items ≡ bytes)) }
    ensures short { IfOk result (λ all. length all.items ≤ most_bytes) }

    ensures read_fault { IsErrOf result ReadError.ReadFault →
        Rose (S.faults scripts.old) (S.faults scripts.new) }
    ensures failed_here { IsErrOf result ReadError.ReadFault → S.failed_at scripts.new name.now }
    ensures uncounted { result ≢ Err ReadError.ReadFault →
        S.faults scripts.new ≡ S.faults scripts.old }
    ensures too_long { IsErrOf result ReadError.TooLong →
        IfSome (S.bytes_of scripts.old name.now) (λ bytes. most_bytes < length bytes) }
    ensures untested { result ≢ Err ReadError.NotText }

    ensures memory { IsErrOf result ReadError.Memory → scripts.new ≡ scripts.old }
    ensures later { S.faults scripts.old ≤ S.faults scripts.new }
    ensures same { (other : List ℕ) → S.bytes_of scripts.new other ≡ S.bytes_of scripts.old other }
{
    let mut all = Vec::with_capacity(alloc, MOST_BYTES)?;
    let mut piece = blank_piece(alloc)?;
    scripts.start(name)?;
    'pieces: loop {
        let count = scripts.read(&mut piece)?;
        if count == 0 {
            return Ok(all);
        }
        if count > MOST_BYTES - all.len() {
            return Err(ReadError::TooLong);
        }
        all.extend_from_slice(&piece[..count]).unwrap();
    }
}

/// Room for the bytes of one read.
fn blank_piece(alloc: Global) -> Result<Vec<u8>, ReadError>
    ensures room { IfOk result (λ piece. 0 < length piece.items) }
    ensures memory { IfErr result (λ e. e ≡ ReadError.Memory) }
{
    let piece = vec![in alloc; 0u8; PIECE_BYTES]?;
    Ok(piece)
}
