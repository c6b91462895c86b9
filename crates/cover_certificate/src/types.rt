// Certificates: what they say of pointers, and of objects at each node.
use mf_list::Seq;
use ts_domain::{Mark, May, Path};

/// A mark at a node, and whether its object has been freed there.
#[derive(Debug, Drop)]
pub struct CertMark {
    pub node: usize,
    pub mark: Mark,
    pub freed: bool,
}

/// Where sites flow, the facts at each node, and the marks.
#[derive(Debug, Drop)]
pub struct Cert {
    pub may: May,
    pub path: Path,
    pub marks: Seq<CertMark>,
}
