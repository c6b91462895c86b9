// What a graph is made from.
use crate::tables::Tables;
use c_tree::Program;
use call_contexts::Contexts;

/// A program, its contexts, and what was computed of both.
#[derive(Clone, Copy)]
pub struct Source<'a> {
    pub program: &'a Program,
    pub contexts: &'a Contexts,
    pub tables: &'a Tables,
}
