// What the steps of a run do to pointers, one by one.
use crate::names::Read;

/// A pointer that a test compares or a write takes: an expression by its number, or the field of a struct behind a longer
/// chain, with its place among the noted reads of the edge.
#[derive(Clone, Copy, Debug, PartialEq, Eq)]
pub enum Looked {
    Name(usize),
    Deep(usize, usize, usize),
}

/// What a write puts into its place.
#[derive(Clone, Copy, Debug, PartialEq, Eq)]
pub enum Source {
    /// The content of a variable or a field.
    Content(Looked),
    Null,
    /// The object that the site of that place makes.
    New(usize),
    Undef,
}

/// What the way on from a test says of the pointers that it looks at.
#[derive(Clone, Copy, Debug, PartialEq, Eq)]
pub enum Saying {
    IsNull(usize),
    IsntNull(usize),
    AreEqual(Looked, Looked),
    Differ(Looked, Looked),
}

/// One thing that an action does to pointers. Variables are places among the pointer variables.
#[derive(Clone, Copy, Debug, PartialEq, Eq)]
pub enum Deed {
    /// A pointer is read. What a noted read through a longer chain finds is remembered for a test or a write behind it.
    Reads(Read, bool),
    /// A variable is followed to a cell, as by `*x`, `x[i]` and `x->f` (C99 6.5.3.2, 6.5.2.1, 6.5.2.3).
    Follows(usize),
    Says(Saying),
    /// A variable is written.
    Sets(usize, Source),
    /// A field is written: the base, its struct, the field.
    SetsField(Read, usize, usize, Source),
}
