ghost use Rattle.std.specs.Prelude.{◌≡◌};
ghost use Rattle.pool_index.specs.Printed.{print_of as print_told};

use lineage_key::Key;
use std::hash::{FoldHasher, Hash, Hasher};

/// The print of a key, which equal keys have in common.
pub fn print_of(key: &Key) -> u64
    ensures { result ≡ print_told key.now }
{
    let mut hasher = FoldHasher::default();
    key.hash(&mut hasher);
    hasher.finish()
}
