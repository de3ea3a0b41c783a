ghost use Rattle.causes.specs.Faults.{Rose};
ghost use Rattle.std.specs.Io.KnownBytes.{Keeps, ReadConsumes};
ghost use Rattle.std.specs.Io.{ReadsAtMost};
ghost use Rattle.std.specs.Prelude.{◌≡◌, ℕ, ◌<◌, ◌≤◌, ◌↔◌, List, length, OnOk, OnErr, Option};

use crate::error::Failed;

/// Where the bytes of named scripts come from, one script at a time.
///
/// `Failed` says that the count of faults rose in that call, and it rises in no other. It never
/// falls, and at 2^64 - 1, where it stays, it is held to have risen. A fault comes at the name that
/// is to be started, or at the one that is read, and the source keeps the name of the last one.
pub trait Scripts {
    // The bytes of each name, where they are known.
    ghost bytes_of: { Self → List ℕ → Option (List ℕ) };

    // Whether a name is started.
    ghost is_started: { Self → Type 0 };

    // Whether a name is the started one, as far as the source distinguishes names.
    ghost is_reading: { Self → List ℕ → Type 0 };

    // What is left of the started name, where it is known.
    ghost remaining: { Self → Option (List ℕ) };

    // How many faults were counted.
    ghost faults: { Self → ℕ };

    // Whether the last fault came at a name, as far as the source distinguishes names.
    ghost failed_at: { Self → List ℕ → Type 0 };

    /// Begins with the script of that name. `Failed` leaves the reading where it was.
    fn start(&mut self, name: &str) -> Result<(), Failed>
        ensures started { OnOk result (is_started self.new) }
        ensures reading { OnOk result (is_reading self.new name.now) }
        ensures begins { OnOk result (remaining self.new ≡ bytes_of self.old name.now) }
        ensures kept { OnErr result (Keeps (remaining self.old) (remaining self.new)) }
        ensures reads_on { OnErr result ((other : List ℕ) →
            is_reading self.old other ↔ is_reading self.new other) }
        ensures same { (other : List ℕ) → bytes_of self.new other ≡ bytes_of self.old other }

        ensures later { faults self.old ≤ faults self.new }
        ensures failed { OnErr result (Rose (faults self.old) (faults self.new)) }
        ensures failed_here { OnErr result (failed_at self.new name.now) }
        ensures uncounted { OnOk result (faults self.new ≡ faults self.old) }
        ensures unfailed { OnOk result ((other : List ℕ) →
            failed_at self.old other ↔ failed_at self.new other) };

    /// Puts the next bytes of the started name at the front of `buf`, at least one of them unless
    /// none is left. `Failed` takes none.
    fn read(&mut self, buf: &mut [u8]) -> Result<usize, Failed>
        requires started { is_started self.old }
        requires room { 0 < length buf.old }
        ensures still_started { is_started self.new }
        ensures reads_on { (other : List ℕ) →
            is_reading self.old other ↔ is_reading self.new other }
        ensures bound { ReadsAtMost result buf.new }
        ensures bytes { ReadConsumes (remaining self.old) (remaining self.new) result buf.new }
        ensures same { (other : List ℕ) → bytes_of self.new other ≡ bytes_of self.old other }

        ensures later { faults self.old ≤ faults self.new }
        ensures failed { OnErr result (Rose (faults self.old) (faults self.new)) }
        ensures failed_here { OnErr result ((other : List ℕ) →
            is_reading self.old other ↔ failed_at self.new other) }
        ensures uncounted { OnOk result (faults self.new ≡ faults self.old) }
        ensures unfailed { OnOk result ((other : List ℕ) →
            failed_at self.old other ↔ failed_at self.new other) };

    /// How many faults were counted; 2^64 - 1 stands for that many or more.
    fn faults(&self) -> u64
        ensures { result ≡ faults self.now };
}
