ghost use Rattle.std.specs.Prelude.{◌≡◌, map, bytes_eq};
ghost use Rattle.std.specs.List.{list_any};
ghost use Rattle.sql_tree.specs.Words.{first_keyword, keyword_of, is_unsupported_word};

use crate::token::Keyword;

/// The reserved words that the profile reads, in lower case.
pub const KEYWORDS: [(&str, Keyword); 46] = [
    ("add", Keyword::Add),
    ("alter", Keyword::Alter),
    ("and", Keyword::And),
    ("as", Keyword::As),
    ("asc", Keyword::Asc),
    ("between", Keyword::Between),
    ("bigint", Keyword::Bigint),
    ("by", Keyword::By),
    ("column", Keyword::Column),
    ("count", Keyword::Count),
    ("create", Keyword::Create),
    ("date", Keyword::Date),
    ("default", Keyword::Default),
    ("delete", Keyword::Delete),
    ("desc", Keyword::Desc),
    ("distinct", Keyword::Distinct),
    ("drop", Keyword::Drop),
    ("explain", Keyword::Explain),
    ("from", Keyword::From),
    ("group", Keyword::Group),
    ("having", Keyword::Having),
    ("in", Keyword::In),
    ("inner", Keyword::Inner),
    ("insert", Keyword::Insert),
    ("int", Keyword::Int),
    ("integer", Keyword::Integer),
    ("into", Keyword::Into),
    ("is", Keyword::Is),
    ("join", Keyword::Join),
    ("limit", Keyword::Limit),
    ("max", Keyword::Max),
    ("min", Keyword::Min),
    ("not", Keyword::Not),
    ("null", Keyword::Null),
    ("on", Keyword::On),
    ("or", Keyword::Or),
    ("order", Keyword::Order),
    ("select", Keyword::Select),
    ("set", Keyword::Set),
    ("sum", Keyword::Sum),
    ("table", Keyword::Table),
    ("text", Keyword::Text),
    ("update", Keyword::Update),
    ("values", Keyword::Values),
    ("varchar", Keyword::Varchar),
    ("where", Keyword::Where),
];

/// The reserved words that the profile leaves out, in lower case. Like those that it reads, they serve
/// as names only in quotes.
pub const UNSUPPORTED: [&str; 70] = [
    "all",
    "analyze",
    "any",
    "avg",
    "begin",
    "blob",
    "boolean",
    "call",
    "case",
    "cast",
    "char",
    "character",
    "check",
    "clob",
    "coalesce",
    "commit",
    "constraint",
    "copy",
    "cross",
    "decimal",
    "declare",
    "double",
    "except",
    "exists",
    "extract",
    "false",
    "fetch",
    "float",
    "foreign",
    "full",
    "function",
    "grant",
    "ilike",
    "index",
    "intersect",
    "interval",
    "left",
    "like",
    "merge",
    "natural",
    "numeric",
    "offset",
    "outer",
    "over",
    "prepare",
    "primary",
    "procedure",
    "real",
    "references",
    "revoke",
    "right",
    "rollback",
    "savepoint",
    "schema",
    "sequence",
    "smallint",
    "start",
    "temporary",
    "time",
    "timestamp",
    "tinyint",
    "transaction",
    "trigger",
    "true",
    "truncate",
    "union",
    "unique",
    "using",
    "view",
    "with",
];

/// The keyword that a word in lower case is.
#[tactic(auto, using(crate::proofs::WordLists::keywords_are))]
pub fn keyword(word: &str) -> Option<Keyword>
    ensures { result ≡ keyword_of word.now }
{
    find_keyword(&KEYWORDS, word)
}

fn find_keyword(keywords: &[(&str, Keyword)], word: &str) -> Option<Keyword>
    ensures { result ≡ first_keyword word.now (map (λ entry. (entry.0.now, entry.1)) keywords.now) }
{
    let mut rest = keywords;
    'keywords: while let [entry, more @ ..] = rest {
        if entry.0 == word {
            return Some(entry.1);
        }
        rest = more;
    }
    None
}

/// Whether a word in lower case is one that the profile leaves out.
pub fn is_unsupported(word: &str) -> bool
    ensures { result ≡ is_unsupported_word word.now }
{
    is_among(&UNSUPPORTED, word)
}

fn is_among(words: &[&str], word: &str) -> bool
    ensures { result ≡ list_any (λ w. bytes_eq w.now word.now) words.now }
{
    words.iter().any(|w| *w == word)
}
