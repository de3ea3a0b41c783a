use cell_core::Word;

/// A token of MAL text.
pub enum MalToken {
    /// A word, with its case kept.
    Name(Word),
    /// Decimal digits.
    Digits(Word),
    /// A text, without its quotes and backslashes.
    Text(Word),
    /// A mark.
    Mark(Mark),
}

// By a call of its own, so that proofs needn't go through its forms where one is dropped.
impl Drop for MalToken {
    fn drop(self) {
        match self {
            MalToken::Name(_) | MalToken::Digits(_) | MalToken::Text(_) | MalToken::Mark(_) => {}
        }
    }
}

/// A mark.
#[derive(Clone, Copy, PartialEq, Eq)]
pub enum Mark {
    /// `(`
    Open,
    /// `)`
    Close,
    /// `,`
    Comma,
    /// `-`
    Minus,
    /// `.`
    Dot,
    /// `:`
    Colon,
    /// `;`
    Semicolon,
    /// `@`
    At,
    /// `:=`
    Assign,
}

/// The marks of one byte.
pub const MARKS: [(u8, Mark); 8] = [
    (b'(', Mark::Open),
    (b')', Mark::Close),
    (b',', Mark::Comma),
    (b'-', Mark::Minus),
    (b'.', Mark::Dot),
    (b':', Mark::Colon),
    (b';', Mark::Semicolon),
    (b'@', Mark::At),
];
