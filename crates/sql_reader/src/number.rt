ghost use Rattle.std.specs.Prelude.{◌≡◌, ◌+◌, ◌*◌, ◌^◌, ◌<◌, ◌≤◌, pos, if◌then◌else◌, MatchOption, IfSome, IfNone};
ghost use Rattle.sql_grammar.specs.Grammar.{number_of, negative_of};
ghost use Rattle.read_laws.specs.Bounded.{number_cell};
ghost use Rattle.read_laws.specs.ExprReader.{signed_cell};
ghost use Rattle.read_laws.specs.Unread.{unread_cell};

use cell_core::Cell;
use text_bytes::number_64;

/// The cell of the number that digits write; a Huge where it leaves the signed 64-bit range.
#[tactic(auto, using(read_laws::proofs::NumberLemmas::signed_plain, read_laws::proofs::NumberLemmas::great_plain))]
pub fn plain_number(digits: &[u8]) -> Cell
    ensures { result ≡ number_cell (pos (number_of digits.now)) }
{
    match number_64(digits) {
        Some(magnitude) => signed(false, magnitude),
        None => unread(),
    }
}

/// The same with a `-` before the digits.
#[tactic(auto, using(read_laws::proofs::NumberLemmas::signed_negative, read_laws::proofs::NumberLemmas::great_negative))]
pub fn negative_number(digits: &[u8]) -> Cell
    ensures { result ≡ number_cell (negative_of digits.now) }
{
    match number_64(digits) {
        Some(magnitude) => signed(true, magnitude),
        None => unread(),
    }
}

/// The cell that stands for a number outside the signed 64-bit range.
pub(crate) fn unread() -> Cell
    ensures { result ≡ unread_cell }
{
    Cell::Huge(0)
}

/// The cell of a number with its sign.
fn signed(negative: bool, magnitude: u64) -> Cell
    ensures { result ≡ signed_cell negative magnitude }
{
    let number = if negative {
        0i64.checked_sub_unsigned(magnitude)
    } else {
        0i64.checked_add_unsigned(magnitude)
    };
    match number {
        Some(number) => Cell::Int(number),
        None => unread(),
    }
}
