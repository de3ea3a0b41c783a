ghost use Rattle.causes.specs.Faults.{Rose};
ghost use Rattle.std.specs.Io.KnownBytes.{WriteAppends};
ghost use Rattle.std.specs.Prelude.{◌≡◌, ℕ, ◌<◌, ◌≤◌, List, length, IfOk, OnErr, Option};

use crate::error::Failed;

/// Where written bytes go.
///
/// `Failed` says that the count of faults rose in that call. The count never falls, and at 2^64 -
/// 1, where it stays, it is held to have risen.
pub trait Sink {
    // The bytes that the sink holds, where they are known.
    ghost contents: { Self → Option (List ℕ) };

    // How many faults were counted.
    ghost faults: { Self → ℕ };

    /// Takes at least one byte from the front of the piece. `Failed` adds nothing.
    fn write(&mut self, piece: &[u8]) -> Result<usize, Failed>
        requires { 0 < length piece.now }
        ensures some { IfOk result (λ count. 1 ≤ count) }
        ensures bound { IfOk result (λ count. count ≤ length piece.now) }
        ensures bytes { WriteAppends (contents self.old) (contents self.new) result piece.now }
        ensures later { faults self.old ≤ faults self.new }
        ensures failed { OnErr result (Rose (faults self.old) (faults self.new)) };

    /// How many faults were counted; 2^64 - 1 stands for that many or more.
    fn faults(&self) -> u64
        ensures { result ≡ faults self.now };
}
