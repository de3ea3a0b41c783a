use bat_core::Shared;
use cell_core::Span;

/// What a look finds.
#[derive(Drop)]
pub enum Found {
    /// The entry with this id has the key: its value.
    Exact(u64, Shared),
    /// The range of the entry with this id contains that of the key: its value.
    Within(u64, Shared),
    /// So many pieces cover the range of the key.
    Across(u64),
    /// Nothing.
    Miss,
}

/// A piece of a range, and the selection that has it.
pub struct CoverPiece {
    /// The id of the selection.
    pub id: u64,
    /// The piece.
    pub span: Span,
    /// The value of the selection.
    pub value: Shared,
}

// By a call of its own, so that proofs needn't go through its forms where one is dropped.
impl Drop for CoverPiece {
    fn drop(self) {
        let CoverPiece {
            id: _,
            span: _,
            value: _,
        } = self;
    }
}
