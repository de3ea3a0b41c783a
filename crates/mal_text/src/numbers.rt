ghost use Rattle.std.specs.Prelude.{◌≡◌, ◌+◌, ◌*◌, ◌^◌, ◌≤◌, MatchOption};
ghost use Rattle.std.specs.Option.{option_and_then};
ghost use Rattle.std.specs.Str.Parse.{digits_value};
ghost use Rattle.mal_text.specs.Plans as plans;

use text_bytes::number_128;

/// The number of 64 bits that digits write after a sign, where it fits.
pub(crate) fn int(negative: bool, digits: &str) -> Option<i64>
    ensures { result ≡ plans.signed (2 ^ 63) negative (digits_value 10 digits.now) }
{
    match number_128(digits) {
        Some(number) => signed_64(negative, number),
        None => None,
    }
}

fn signed_64(negative: bool, number: u128) -> Option<i64>
    ensures { result ≡ plans.signed (2 ^ 63) negative number }
{
    let limit = 1u128 << 63;
    if negative && number <= limit {
        0i64.checked_sub_unsigned(number as u64)
    } else if !negative && number < limit {
        Some(number as i64)
    } else {
        None
    }
}

/// The number of 128 bits that digits write after a sign, where it fits.
pub(crate) fn huge(negative: bool, digits: &str) -> Option<i128>
    ensures { result ≡ plans.signed (2 ^ 127) negative (digits_value 10 digits.now) }
{
    match number_128(digits) {
        Some(number) => signed_128(negative, number),
        None => None,
    }
}

fn signed_128(negative: bool, number: u128) -> Option<i128>
    ensures { result ≡ plans.signed (2 ^ 127) negative number }
{
    if negative {
        0i128.checked_sub_unsigned(number)
    } else {
        0i128.checked_add_unsigned(number)
    }
}

/// The number that digits write, where it is below 2^64.
pub(crate) fn small(digits: &str) -> Option<u64>
    ensures { result ≡ plans.below (2 ^ 64) (digits_value 10 digits.now) }
{
    match number_128(digits) {
        Some(number) => u64::try_from(number).ok(),
        None => None,
    }
}
