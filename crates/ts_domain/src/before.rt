// What has to hold before a deed so that a fact holds behind it.
use crate::fact::Fact;

/// When a fact holds behind a deed: always, never, or where another held before it.
#[derive(Clone, Copy, Debug, PartialEq, Eq)]
pub enum Before {
    Always,
    Never,
    Where(Fact),
}

/// What a write gives a variable, as far as facts tell.
#[derive(Clone, Copy, Debug, PartialEq, Eq)]
pub enum Given {
    /// The content of a variable.
    Copied(usize),
    /// A content that was read from a field.
    Loaded,
    /// The null pointer.
    Nothing,
    /// A new object.
    Fresh,
    /// An indeterminate content.
    Unset,
}
