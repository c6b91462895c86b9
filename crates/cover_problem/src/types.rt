// What a choice of puts has to meet.
use mf_list::Seq;
use mf_set::BitSet;
use ts_domain::{Derived, Names};

/// What was derived, the puts that are allowed, and of each triple at an exit its site, the exit and all its candidates.
#[derive(Debug, Drop)]
pub struct Problem {
    pub names: Names,
    pub derived: Derived,
    pub allowed: BitSet,
    pub exits: Seq<(usize, usize, BitSet)>,
}
