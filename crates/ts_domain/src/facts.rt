// What is known of pointers: which objects flow where, and facts that hold on every path to a node.
use mf_list::Seq;
use mf_set::BitSet;

/// The sites that flow to each pointer variable, and those that flow to a field of a site: site, field, sites.
#[derive(Debug, Drop)]
pub struct May {
    pub vars: Seq<BitSet>,
    pub fields: Seq<(usize, usize, BitSet)>,
}

/// The numbers of the facts that hold at each node.
#[derive(Debug, Drop)]
pub struct Path {
    pub at: Seq<BitSet>,
}

#[derive(Debug, Drop)]
pub struct Facts {
    pub may: May,
    pub path: Path,
}
