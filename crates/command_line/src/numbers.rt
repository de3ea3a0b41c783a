//! The numbers among the values of options.
ghost use Rattle.std.specs.Prelude.{◌≡◌, ◌≤◌, IfSome};
ghost use Rattle.std.specs.List.{list_all};
ghost use Rattle.text_bytes.specs.Classes.{is_digit};
ghost use Rattle.command_line.specs.Numbers as numbers;
ghost use Rattle.command_line.specs.Numbers.{number_in};

use text_bytes::{is_digit, number_64};

/// The most digits of a number.
const MOST_DIGITS: usize = 20;

/// The number that a text is, if it is in this range, both ends included.
pub(crate) fn number_between(text: &str, low: u64, high: u64) -> Option<u64>
    ensures number { result ≡ number_in low high text.now }
    ensures within { IfSome result (λ number. (low ≤ number) × (number ≤ high)) }
{
    if !is_number(text.as_bytes()) {
        return None;
    }
    match number_64(text.as_bytes()) {
        Some(number) if low <= number && number <= high => Some(number),
        _ => None,
    }
}

/// Whether these are 1 to 20 decimal digits.
fn is_number(bytes: &[u8]) -> bool
    ensures { result ≡ numbers.is_number bytes.now }
{
    are_digits(bytes) && 1 <= bytes.len() && bytes.len() <= MOST_DIGITS
}

/// Whether all of these are digits.
fn are_digits(bytes: &[u8]) -> bool
    ensures { result ≡ list_all is_digit bytes.now }
{
    bytes.iter().all(|byte| is_digit(*byte))
}
