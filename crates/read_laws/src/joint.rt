/// What joins a source to those before it.
#[derive(Clone, Copy)]
pub enum Joint {
    /// `,`
    Comma,
    /// `INNER`, before JOIN
    Inner,
    /// `JOIN`
    Join,
}
