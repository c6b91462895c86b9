// The tokens of a text as far as it is read.
use crate::Token;
use crate::element::Fault;
use mf_list::Seq;

/// The tokens of a text up to its end or its first lexical fault.
#[derive(Debug, Drop)]
pub struct Reading {
    pub tokens: Seq<Token>,
    pub last_comment: Option<(usize, usize)>,
    pub fault: Option<(Fault, usize)>,
}
