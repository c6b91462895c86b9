// What the derivation gives: triples, forbidden puts and pairs that conflict.
use crate::marks::Mark;
use mf_list::Seq;
use mf_set::BitSet;

/// A mark at a node, with the puts that may have freed its object.
#[derive(Debug, Drop, PartialEq, Eq, Hash)]
pub struct Triple {
    pub node: usize,
    pub mark: Mark,
    pub puts: BitSet,
}

/// All triples, the forbidden puts, and the pairs of puts that may not both be chosen, the lesser first.
#[derive(Debug, Drop)]
pub struct Derived {
    pub triples: Seq<Triple>,
    pub forbidden: BitSet,
    pub pairs: Seq<(usize, usize)>,
}
