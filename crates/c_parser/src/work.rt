// What is put off while an expression is printed.

use c_lexer::Kind;
use c_tree::tree::Expr;

/// A token that is still to be printed, or an expression in its room.
#[derive(Drop)]
pub enum Work<'a> {
    Token(Kind),
    Whole(&'a Expr, usize),
}
