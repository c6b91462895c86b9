// A change of a text.
use c_tree::Put;

/// What stands in the place of bytes that go, or between two bytes.
#[derive(Clone, Copy, Debug)]
pub enum Writing {
    /// A blank for each byte.
    Blanks,
    /// A free statement.
    Free(Put),
    /// An opening brace.
    Open,
    /// A closing brace.
    Close,
}

/// The bytes from `start` to `end` become what is written; no byte goes where the two are one offset.
#[derive(Clone, Copy, Debug)]
pub struct Change {
    pub start: usize,
    pub end: usize,
    pub writing: Writing,
}
