// Marks: what is known of one object, and what becomes of that over an edge.
use mf_set::BitSet;
use std::alloc::Global;
use std::default::MadeWith;

/// What a mark says of an expression: it surely points to the object, it surely doesn't, or it is undecided.
#[derive(Clone, Copy, Debug, PartialEq, Eq)]
pub enum Verdict {
    Yes,
    No,
    Open,
}

/// An object of a site: the expressions that surely point to it, and those that surely don't. An expression in neither is
/// undecided.
#[derive(Debug, Drop, PartialEq, Eq, Hash)]
pub struct Mark {
    pub site: usize,
    pub holds: BitSet,
    pub lacks: BitSet,
}

// What a short list keeps in places that it doesn't use yet.
impl MadeWith<Global> for Mark {
    fn made_with(alloc: Global) -> Mark {
        Mark {
            site: 0,
            holds: BitSet::empty(alloc),
            lacks: BitSet::empty(alloc),
        }
    }
}

/// A mark behind an edge, and whether the edge touched the object.
#[derive(Debug, Drop, PartialEq, Eq, Hash)]
pub struct Step {
    pub mark: Mark,
    pub touched: bool,
}

impl MadeWith<Global> for Step {
    fn made_with(alloc: Global) -> Step {
        Step {
            mark: Mark::made_with(alloc),
            touched: false,
        }
    }
}

/// Whether two variables hold the same object where a mark's object is.
#[derive(Clone, Copy, Debug, PartialEq, Eq)]
pub enum Alias {
    Same,
    Diff,
    Maybe,
}
