// The parser: the tree of a text's tokens, or the place at which they stop to begin a text of the grammar.
ghost use Rattle.c_parser.specs.Answer.{IsAnswer};

use crate::file::read_tree;
use crate::reading::Unread;
use crate::recogniser::place_of;
use crate::refusal::ParseRefusal;
use c_lexer::Tokens;
use c_tree::tree::Tree;
use std::alloc::Global;

/// The tree of the tokens. It is read along their nest, so that a text of little nest takes little stack.
pub fn parse(alloc: Global, tokens: &Tokens) -> Result<Tree, ParseRefusal>
    ensures { IsAnswer tokens.now result }
{
    match read_tree(alloc, tokens) {
        Ok(tree) => Ok(tree),
        Err(Unread::NotHere) => Err(ParseRefusal::Syntax(place_of(alloc, tokens)?)),
        Err(Unread::Memory) => Err(ParseRefusal::Memory),
    }
}
