ghost use Rattle.std.specs.Prelude.{◌≡◌};
ghost use Rattle.text_bytes.specs.Days.{day_named};

use cell_text::read_day;

/// The day that a text names.
pub fn named_day(text: &str) -> Option<i32>
    ensures { result ≡ day_named text.now }
{
    read_day(text)
}
