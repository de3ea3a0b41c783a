//! Versions of columns.
ghost use Rattle.std.specs.Prelude.{◌≡◌, length, bytes_eq};
ghost use Rattle.std.specs.List.{list_any};
ghost use Rattle.table_columns.specs.Rows.{stamped};

use cell_core::{Column, Word};

/// Sets the version of the columns with one of these names.
pub(crate) fn stamp_versions(columns: &[Column], versions: &mut [u64], names: &[Word], version: u64)
    requires { length versions.old ≡ length columns.now }
    ensures { versions.new ≡ stamped names.now version columns.now versions.old }
{
    for i in 0..columns.len() {
        if has_name(names, &columns[i].name) {
            versions[i] = version;
        }
    }
}

/// Whether a name is one of these.
fn has_name(names: &[Word], name: &Word) -> bool
    ensures { result ≡ list_any (bytes_eq name.now) names.now }
{
    let mut rest = names;
    'names: while let [first, more @ ..] = rest {
        if *name == *first {
            return true;
        }
        rest = more;
    }
    false
}
