//! A table without its rows, by its name.
ghost use Rattle.std.specs.Prelude.{◌≡◌, bytes_eq, find};
ghost use Rattle.std.specs.Option.{option_copied};
ghost use Rattle.table_store.specs.declared.heading.Heading.{Heading as HeadingSeen};

use cell_core::Word;
use table_store::Heading;

/// The first table with this name, without its rows.
pub(crate) fn find_heading<'a>(headings: &'a [Heading], name: &Word) -> Option<&'a Heading>
    ensures { option_copied result ≡ find (λ (heading : HeadingSeen). bytes_eq heading.name name.now) headings.now }
{
    let mut rest = headings;
    'headings: while let [heading, more @ ..] = rest {
        if heading.name == *name {
            return Some(heading);
        }
        rest = more;
    }
    None
}
