ghost use Rattle.std.specs.Prelude.{◌≡◌, ◌+◌, ◌*◌, ◌^◌, ◌≤◌, MatchOption};
ghost use Rattle.std.specs.Char.{digit_value};
ghost use Rattle.std.specs.Str.Parse.{digits_value};

/// The number that digits write, where it fits 64 bits.
#[tactic(auto, using(crate::proofs::NumberLemmas::value_grows))]
pub fn number_64(digits: &[u8]) -> Option<u64>
    ensures { MatchOption result (2 ^ 64 ≤ digits_value 10 digits.now) (λ n. n ≡ digits_value 10 digits.now) }
{
    let mut number = 0;
    let mut rest = digits;
    'digits: while let [byte, more @ ..] = rest {
        let Some(next) = with_digit_64(number, *byte) else {
            return None;
        };
        number = next;
        rest = more;
    }
    Some(number)
}

/// The number that digits write, where it fits 128 bits.
#[tactic(auto, using(crate::proofs::NumberLemmas::value_grows))]
pub fn number_128(digits: &str) -> Option<u128>
    ensures { MatchOption result (2 ^ 128 ≤ digits_value 10 digits.now) (λ n. n ≡ digits_value 10 digits.now) }
{
    let mut number = 0;
    let mut rest = digits.as_bytes();
    'digits: while let [byte, more @ ..] = rest {
        let Some(next) = with_digit_128(number, *byte) else {
            return None;
        };
        number = next;
        rest = more;
    }
    Some(number)
}

/// The number with a digit after it, where it fits 64 bits.
fn with_digit_64(number: u64, byte: u8) -> Option<u64>
    ensures { MatchOption result (2 ^ 64 ≤ number * 10 + digit_value byte)
        (λ n. n ≡ number * 10 + digit_value byte) }
{
    let Some(tens) = number.checked_mul(10) else {
        return None;
    };
    tens.checked_add(u64::from(digit(byte)))
}

/// The number with a digit after it, where it fits 128 bits.
fn with_digit_128(number: u128, byte: u8) -> Option<u128>
    ensures { MatchOption result (2 ^ 128 ≤ number * 10 + digit_value byte)
        (λ n. n ≡ number * 10 + digit_value byte) }
{
    let Some(tens) = number.checked_mul(10) else {
        return None;
    };
    tens.checked_add(u128::from(digit(byte)))
}

/// The value of a byte as a digit; 36 where it is neither a digit nor a letter. A decimal digit is
/// found first, as nearly every byte is one.
#[tactic(auto, using(std::proofs::lemmas::Bool::Decides::nat_tests))]
fn digit(byte: u8) -> u32
    ensures { result ≡ digit_value byte }
{
    if b'0' <= byte && byte <= b'9' {
        return u32::from(byte - b'0');
    }
    match (byte as char).to_digit(36) {
        Some(digit) => digit,
        None => 36,
    }
}
