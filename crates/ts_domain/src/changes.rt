// Changes of the verdicts of a mark.
use crate::deed::Source;
use crate::marks::Verdict;
use crate::names::Read;

/// What changes the verdicts of a mark.
#[derive(Clone, Copy, Debug, PartialEq, Eq)]
pub enum Change {
    /// A verdict on an expression comes to be known.
    Tell(usize, Verdict),
    /// A variable is written: what it gets, and the verdict on that.
    Set(usize, Source, Verdict),
    /// A field is written: its base, the struct, the field, and the verdict on what it gets.
    Put(Read, usize, usize, Verdict),
    /// What is undecided is decided where the site flows nowhere else.
    Settle,
    /// Nothing points to the object.
    Clear,
}
