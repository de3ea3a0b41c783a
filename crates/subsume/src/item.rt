use cell_core::Span;

/// A pooled selection in the index.
#[derive(Drop)]
pub struct CutItem {
    /// The id of what it selects from.
    pub parent: u64,
    /// Its span.
    pub span: Span,
    /// How many pairs it has.
    pub rows: u64,
    /// Its id.
    pub id: u64,
}
