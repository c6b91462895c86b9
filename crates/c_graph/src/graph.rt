// The types of a control flow graph: nodes, actions, ways and edges.
use c_tree::{Expr, Free, Simple, Size};
use mf_list::Seq;

/// What one step does behind the frees, whatever the offsets that only an exit has.
#[derive(Debug, Drop)]
pub enum Action {
    /// A declarator without initialiser (C99 6.7.8p10).
    Unset(usize),
    /// An assignment, an initialiser or a change by a plain value (6.5.16).
    Assign(Simple),
    /// The place of the answer, the size, and the offset of the word (7.20.3.3).
    Malloc(Option<Expr>, Size, usize),
    Getchar(Option<Expr>),
    Putchar(Expr),
    Printf(Seq<u8>, Seq<Expr>),
    /// An atomic test of a condition.
    Test(Expr),
    /// The callee and the arguments (6.5.2.2).
    Call(usize, Seq<Expr>),
    Return(Option<Expr>),
    /// The closing brace of a function.
    Close,
}

/// What stands at a node.
#[derive(Debug, Drop)]
pub enum NodeKind {
    /// The number of a gap, and its `free` statements.
    Gap(usize, Seq<Free>),
    Act(Action),
    /// The end of a run; the offset is that of the `return` of `main`, or of its closing brace.
    Exit(usize),
}

/// A gap or an action of the function of a context, or an exit, which is of the context of `main`.
#[derive(Debug, Drop)]
pub struct Node {
    pub ctx: usize,
    pub kind: NodeKind,
}

/// How control goes over an edge: by what a test says; behind a `malloc` by whether it made an object; into a callee; and
/// back from it, with the variable that gets the result. All others are `On`.
#[derive(Clone, Copy, Debug, PartialEq, Eq)]
pub enum Way {
    On,
    True,
    False,
    Made,
    NotMade,
    Enter,
    Leave(Option<usize>),
}

/// An edge between two nodes, by their numbers.
#[derive(Clone, Copy, Debug, PartialEq, Eq)]
pub struct Edge {
    pub from: usize,
    pub to: usize,
    pub way: Way,
}

/// The nodes of all contexts in turn, those of each in the order of the text, and then the exits; the edges ascend by
/// where they come from, by way and by where they lead.
#[derive(Debug, Drop)]
pub struct Graph {
    pub nodes: Seq<Node>,
    pub edges: Seq<Edge>,
}
