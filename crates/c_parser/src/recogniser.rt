// The recogniser of the grammar: where tokens stop to begin a text of the language. Each token is looked at once, and each
// symbol of the stack leaves it once.
ghost use Rattle.std.specs.Prelude.{◌≡◌, Some, None, IfOk, [], ◌∷◌, ◌++◌, if◌then◌else◌, reverse};
ghost use Rattle.c_parser.specs.Recogniser.{advance, place_of};

use crate::front::Front;
use crate::symbol::Symbol;
use crate::table::{may_end, takes};
use crate::term::{Term, term_of};
use c_lexer::{Token, Tokens};
use mf_list::{Memory, Seq};
use std::alloc::Global;

/// Puts a row on a stack, its first symbol on top.
fn put(stack: &mut Seq<Symbol>, row: Front) -> Result<(), Memory>
    ensures { IfOk result (λ _. stack.new ≡ stack.old ++ reverse row) }
{
    let mut left = row;
    while let Some(symbol) = left.pop() {
        stack.push(symbol)?;
    }
    Ok(())
}

/// The stack behind a token of this term, with its top last; or that the token can't come next.
fn advance(alloc: Global, stack: &mut Seq<Symbol>, term: Term) -> Result<bool, Memory>
    ensures { IfOk result (λ goes. advance (reverse stack.old) term ≡ (if goes then Some (reverse stack.new) else None)) }
{
    while let Some(symbol) = stack.pop() {
        if let Some(row) = takes(alloc, symbol, term)? {
            put(stack, row)?;
            return Ok(true);
        }
        if !may_end(symbol) {
            return Ok(false);
        }
    }
    Ok(false)
}

/// The offset of the first token that can't come next, or of the end.
pub fn place_of(alloc: Global, tokens: &Tokens) -> Result<usize, Memory>
    ensures { IfOk result (λ at. at ≡ place_of tokens.now) }
{
    let mut stack = Seq::from_slice(alloc, &[Symbol::File])?;
    let mut left: &[Token] = tokens.list.as_slice();
    while let [token, rest @ ..] = left {
        if !advance(alloc, &mut stack, term_of(token))? {
            return Ok(token.start);
        }
        left = rest;
    }
    Ok(tokens.size)
}
