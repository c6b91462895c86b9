// What a choice puts into the gaps of a program.
use mf_list::Seq;

/// A place for a `free` statement: in a gap, of a variable `x` or, where `field` is there, of `x->f`.
#[derive(Clone, Copy, Debug, PartialEq, Eq)]
pub struct Put {
    pub gap: usize,
    pub var: usize,
    pub field: Option<usize>,
}

/// The `free` statements that fill a program's gaps: ascending by gap, in a gap fields before
/// variables, then by variable, then by field, and none twice.
#[derive(Debug, Drop)]
pub struct Choice {
    pub puts: Seq<Put>,
}
