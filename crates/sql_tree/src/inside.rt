/// What a byte of a script lies in.
#[derive(Clone, Copy, PartialEq, Eq)]
pub enum Inside {
    /// Neither a string nor a quoted name nor a comment.
    Outside,
    /// A string.
    InText,
    /// A quoted name.
    InName,
    /// A comment that ends with its line.
    InLine,
    /// The second byte of `/*`.
    OpensBlock,
    /// A comment up to `*/`.
    InBlock,
    /// The second byte of `*/`.
    ClosesBlock,
}
