//! The numbers and days that tokens write.
ghost use Rattle.std.specs.Prelude.{◌≡◌, ◌^◌, min, pos};
ghost use Rattle.std.specs.Char.{digit_value};
ghost use Rattle.sql_grammar.specs.Grammar.{number_of, negative_of};
ghost use Rattle.sql_grammar.specs.Statements.{length_of};
ghost use Rattle.text_bytes.specs.Days.{day_named};
ghost use Rattle.read_laws.specs.Bounded.{number_cell};
ghost use Rattle.read_laws.specs.DerivedStmts.{count_64, length_32};

use cell_core::Cell;
use cell_text::read_day;
use sql_tree::Digits;

/// The first number past 64 bits.
const PAST_64: u128 = 0x1_0000_0000_0000_0000;

/// The first number past the signed 64 bits.
const PAST_INT: u128 = 0x8000_0000_0000_0000;

/// The width of VARCHAR(0), past the most that is allowed: 0 would be no limit.
const PAST_WIDTHS: u32 = 65536;

/// The cell of the number that digits write; a Huge where it leaves the signed 64-bit range.
#[tactic(auto, using(crate::proofs::CellLemmas::plain_small, crate::proofs::CellLemmas::plain_great))]
pub(crate) fn plain_cell(digits: &Digits) -> Cell
    ensures { result ≡ number_cell (pos (number_of digits.now)) }
{
    let number = capped(digits.bytes());
    if number < PAST_INT {
        Cell::Int(number as i64)
    } else {
        Cell::Huge(0)
    }
}

/// The same of digits after a `-`.
#[tactic(auto, using(crate::proofs::CellLemmas::negative_small, crate::proofs::CellLemmas::negative_great))]
pub(crate) fn negative_cell(digits: &Digits) -> Cell
    ensures { result ≡ number_cell (negative_of digits.now) }
{
    let number = capped(digits.bytes());
    if number <= PAST_INT {
        Cell::Int((0 - number as i128) as i64)
    } else {
        Cell::Huge(0)
    }
}

/// The number that digits write, or the most of 64 bits.
#[tactic(auto, using(std::proofs::lemmas::Bool::Decides::nat_tests))]
pub fn count(digits: &Digits) -> u64
    ensures { result ≡ count_64 (number_of digits.now) }
{
    let number = capped(digits.bytes());
    if number < PAST_64 {
        number as u64
    } else {
        u64::MAX
    }
}

/// The width that digits write; the most of 32 bits where they write more.
#[tactic(auto, using(crate::proofs::CellLemmas::some_width, crate::proofs::CellLemmas::no_width, crate::proofs::CellLemmas::great_width))]
pub fn width(digits: &Digits) -> u32
    ensures { result ≡ length_32 (length_of (number_of digits.now)) }
{
    let number = capped(digits.bytes());
    if number == 0 {
        PAST_WIDTHS
    } else if number < 0x1_0000_0000 {
        number as u32
    } else {
        u32::MAX
    }
}

/// The number that digits write, or the first past 64 bits where it is that or more.
#[tactic(auto, using(crate::proofs::CellLemmas::value_grows))]
fn capped(digits: &[u8]) -> u128
    ensures { result ≡ min (2 ^ 64) (number_of digits.now) }
{
    let mut number: u128 = 0;
    let mut rest = digits;
    'digits: while let [byte, more @ ..] = rest {
        number = number * 10 + u128::from(digit(*byte));
        if number >= PAST_64 {
            return PAST_64;
        }
        rest = more;
    }
    number
}

/// The value of a byte as a digit; 36 where it is neither a digit nor a letter.
fn digit(byte: u8) -> u32
    ensures { result ≡ digit_value byte }
{
    match char::from(byte).to_digit(36) {
        Some(digit) => digit,
        None => 36,
    }
}

/// The day that a text names.
pub(crate) fn day(text: &str) -> Option<i32>
    ensures { result ≡ day_named text.now }
{
    read_day(text)
}
