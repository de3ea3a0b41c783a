//! Values that stand for a list of entries.
ghost use Rattle.std.specs.Prelude.{◌≡◌, ℕ, ◌<◌, ◌^◌, List, length};

/// A value as a hall sees it: as a list of entries, which only grows. Each names the number of a
/// pass.
pub trait Logged {
    /// What the list holds.
    type Entry;

    // The list that a value stands for.
    ghost entries: { Self → List Self.Entry };

    // The number of the pass that an entry names.
    ghost author: { Self.Entry → ℕ };

    /// How many entries there are.
    fn count(&self) -> u64
        ensures exact { result ≡ length (entries self.now) }
        ensures bounded { result < 2 ^ 60 };
}
