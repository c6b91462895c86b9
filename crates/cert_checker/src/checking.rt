// What a check keeps at hand.
use c_graph::Graph;
use cover_certificate::Cert;
use mf_list::Seq;
use ts_domain::{Deed, Facts, Names};

/// The graph, its names and the certificate, with its facts; the deeds of each edge; and by node the places of the edges that
/// begin there, and of the marks there.
#[derive(Clone, Copy)]
pub struct Checking<'a> {
    pub graph: &'a Graph,
    pub names: &'a Names,
    pub cert: &'a Cert,
    pub facts: &'a Facts,
    pub deeds: &'a Seq<Seq<Deed>>,
    pub edges: &'a Seq<Seq<usize>>,
    pub marks: &'a Seq<Seq<usize>>,
}

/// What is asked of the edges from a node: whether a write adds to what flows, whether a fact is added, whether the mark of a
/// new object is matched nowhere, whether a freed object is touched, and whether a post is matched nowhere.
#[derive(Clone, Copy, Debug, PartialEq, Eq)]
pub enum Question {
    Flow,
    Fact,
    Birth,
    Touch,
    Post,
}
