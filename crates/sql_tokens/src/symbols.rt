ghost use Rattle.std.specs.Prelude.{◌≡◌, ◌==◌, ◌&&◌};
ghost use Rattle.read_laws.specs.TokenReader as reader;

use sql_tree::{PAIRS, SINGLES, Symbol};

/// The symbol of a byte and the one after it.
pub(crate) fn pair(first: u8, after: &[u8]) -> Option<Symbol>
    ensures { result ≡ reader.pair_at first after.now }
{
    match after {
        [] => None,
        [second, ..] => pair_of(first, *second),
    }
}

/// The symbol of two bytes.
#[tactic(auto, unfolding(read_laws::specs::TokenReader::pair_of))]
fn pair_of(first: u8, second: u8) -> Option<Symbol>
    ensures { result ≡ reader.pair_of first second }
{
    find_pair(&PAIRS, first, second)
}

fn find_pair(pairs: &[((u8, u8), Symbol)], first: u8, second: u8) -> Option<Symbol>
    ensures { result ≡ reader.first_symbol (λ entry. (first == entry.0.0) && (second == entry.0.1)) (λ entry. entry.1) pairs.now }
{
    let mut rest = pairs;
    'pairs: while let [entry, more @ ..] = rest {
        if first == entry.0.0 && second == entry.0.1 {
            return Some(entry.1);
        }
        rest = more;
    }
    None
}

/// The symbol of one byte.
#[tactic(auto, unfolding(read_laws::specs::TokenReader::single_of))]
pub(crate) fn single(byte: u8) -> Option<Symbol>
    ensures { result ≡ reader.single_of byte }
{
    find_single(&SINGLES, byte)
}

fn find_single(singles: &[(u8, Symbol)], byte: u8) -> Option<Symbol>
    ensures { result ≡ reader.first_symbol (λ entry. byte == entry.0) (λ entry. entry.1) singles.now }
{
    let mut rest = singles;
    'singles: while let [entry, more @ ..] = rest {
        if byte == entry.0 {
            return Some(entry.1);
        }
        rest = more;
    }
    None
}
