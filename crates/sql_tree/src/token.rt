use crate::digits::Digits;
use cell_core::Word;

/// A token of SQL text.
pub enum Token {
    /// A word that isn't reserved, folded to lower case.
    Name(Word),
    /// A name in quotes, without them; a doubled quote is one.
    Quoted(Word),
    /// A string, without its quotes; a doubled quote is one.
    Text(Word),
    /// Decimal digits.
    Digits(Digits),
    /// A reserved word that the profile reads.
    Key(Keyword),
    /// A reserved word that the profile leaves out, folded to lower case.
    Unsupported(Word),
    /// A symbol.
    Symbol(Symbol),
}

// By a call of its own, so that proofs needn't go through its forms where one is dropped.
impl Drop for Token {
    fn drop(self) {
        match self {
            Token::Name(_)
            | Token::Quoted(_)
            | Token::Text(_)
            | Token::Digits(_)
            | Token::Key(_)
            | Token::Unsupported(_)
            | Token::Symbol(_) => {}
        }
    }
}

/// A token and its place in the text.
pub struct Placed {
    /// The token.
    pub token: Token,
    /// How many bytes come before its first.
    pub start: usize,
    /// How many bytes come before the first after it.
    pub end: usize,
}

// By a call of its own, so that proofs needn't go through its forms where one is dropped.
impl Drop for Placed {
    fn drop(self) {
        let Placed {
            token: _,
            start: _,
            end: _,
        } = self;
    }
}

/// A reserved word that the profile reads.
#[derive(Clone, Copy, PartialEq, Eq)]
pub enum Keyword {
    /// `ADD`
    Add,
    /// `ALTER`
    Alter,
    /// `AND`
    And,
    /// `AS`
    As,
    /// `ASC`
    Asc,
    /// `BETWEEN`
    Between,
    /// `BIGINT`
    Bigint,
    /// `BY`
    By,
    /// `COLUMN`
    Column,
    /// `COUNT`
    Count,
    /// `CREATE`
    Create,
    /// `DATE`
    Date,
    /// `DEFAULT`
    Default,
    /// `DELETE`
    Delete,
    /// `DESC`
    Desc,
    /// `DISTINCT`
    Distinct,
    /// `DROP`
    Drop,
    /// `EXPLAIN`
    Explain,
    /// `FROM`
    From,
    /// `GROUP`
    Group,
    /// `HAVING`
    Having,
    /// `IN`
    In,
    /// `INNER`
    Inner,
    /// `INSERT`
    Insert,
    /// `INT`
    Int,
    /// `INTEGER`
    Integer,
    /// `INTO`
    Into,
    /// `IS`
    Is,
    /// `JOIN`
    Join,
    /// `LIMIT`
    Limit,
    /// `MAX`
    Max,
    /// `MIN`
    Min,
    /// `NOT`
    Not,
    /// `NULL`
    Null,
    /// `ON`
    On,
    /// `OR`
    Or,
    /// `ORDER`
    Order,
    /// `SELECT`
    Select,
    /// `SET`
    Set,
    /// `SUM`
    Sum,
    /// `TABLE`
    Table,
    /// `TEXT`
    Text,
    /// `UPDATE`
    Update,
    /// `VALUES`
    Values,
    /// `VARCHAR`
    Varchar,
    /// `WHERE`
    Where,
}

/// A symbol.
#[derive(Clone, Copy, PartialEq, Eq)]
pub enum Symbol {
    /// `(`
    Open,
    /// `)`
    Close,
    /// `,`
    Comma,
    /// `.`
    Dot,
    /// `*`
    Star,
    /// `+`
    Plus,
    /// `-`
    Minus,
    /// `=`
    Equal,
    /// `<`
    Less,
    /// `<=`
    LessEqual,
    /// `>`
    Greater,
    /// `>=`
    GreaterEqual,
    /// `<>`
    NotEqual,
    /// `!=`
    BangEqual,
    /// `/`
    Slash,
    /// `%`
    Percent,
    /// `||`
    Bars,
}

/// The symbols of one byte.
pub const SINGLES: [(u8, Symbol); 12] = [
    (b'(', Symbol::Open),
    (b')', Symbol::Close),
    (b',', Symbol::Comma),
    (b'.', Symbol::Dot),
    (b'*', Symbol::Star),
    (b'+', Symbol::Plus),
    (b'-', Symbol::Minus),
    (b'=', Symbol::Equal),
    (b'<', Symbol::Less),
    (b'>', Symbol::Greater),
    (b'/', Symbol::Slash),
    (b'%', Symbol::Percent),
];

/// The symbols of two bytes.
pub const PAIRS: [((u8, u8), Symbol); 5] = [
    ((b'<', b'='), Symbol::LessEqual),
    ((b'>', b'='), Symbol::GreaterEqual),
    ((b'<', b'>'), Symbol::NotEqual),
    ((b'!', b'='), Symbol::BangEqual),
    ((b'|', b'|'), Symbol::Bars),
];
