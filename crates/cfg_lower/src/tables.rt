// What is computed of a program once, before its graph is made.
use c_graph::Way;
use mf_list::Seq;

/// A call of a user's function: its number, the variable that gets the result, and the path of what follows.
#[derive(Drop)]
pub struct CallSite {
    pub number: usize,
    pub target: Option<usize>,
    pub behind: Seq<usize>,
}

/// A function: the nameless slot of its result, the paths of its places, which ascend, and its calls in
/// the order of the text.
#[derive(Drop)]
pub struct Row {
    pub slot: Option<usize>,
    pub places: Seq<Seq<usize>>,
    pub calls: Seq<CallSite>,
}

/// The functions by number, the number of the first node of each context, how many nodes the contexts
/// have, the paths behind which exits stand, and how many nodes there are in all.
#[derive(Drop)]
pub struct Tables {
    pub rows: Seq<Row>,
    pub firsts: Seq<usize>,
    pub inside: usize,
    pub exits: Seq<Seq<usize>>,
    pub count: usize,
}

/// The number of the first node of each context, and how many nodes all contexts have.
#[derive(Drop)]
pub struct Numbers {
    pub firsts: Seq<usize>,
    pub inside: usize,
}

/// An edge but for where it comes from.
#[derive(Clone, Copy)]
pub struct Step {
    pub to: usize,
    pub way: Way,
}

/// A context: its number, its function with the nameless slot of that, and where control goes back to,
/// which `main` has not.
#[derive(Drop)]
pub struct Here {
    pub ctx: usize,
    pub fun: usize,
    pub slot: Option<usize>,
    pub back: Option<Seq<Step>>,
}
