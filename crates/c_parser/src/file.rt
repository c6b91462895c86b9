// The reader of a file: its external declarations (C99 6.9).
ghost use Rattle.std.specs.Prelude.{◌≡◌, [], length};
ghost use Rattle.c_parser.specs.Answer.{Gives};
ghost use Rattle.c_parser.specs.ReadFile.{read_after_head, read_head, read_void, begins_head, read_outer, is_struct, read_top, read_file, read_tree};

use crate::blocks::read_block;
use crate::globals::read_globals;
use crate::params::read_params;
use crate::reading::{Unread, read_name, read_stars, read_want, sees};
use crate::sizes::{naming, read_base, read_starred, skip};
use crate::structs::{read_tag, read_typedef};
use crate::term::{Term, next, term_of};
use c_lexer::{Token, Tokens};
use c_tree::tree::{Base, Head, Spec, Top, Tree};
use mf_list::Seq;
use std::alloc::Global;

/// A function behind its parameters: its block, or the `;` of a prototype.
fn read_after_head(
    alloc: Global,
    depth: usize,
    head: Head,
    tokens: &[Token],
) -> Result<(Top, &[Token]), Unread>
    ensures { Gives (λ r. (r.0, r.1.now)) result (read_after_head depth head tokens.now) }
{
    if sees(Term::Semicolon, tokens) {
        Ok((Top::Proto(head), skip(tokens)))
    } else {
        let ((block, _), rest) = read_block(alloc, depth, depth, tokens)?;
        Ok((Top::Fun(head, block), rest))
    }
}

/// A function of this result and name, from its `(` on.
#[tactic(auto, unfolding(crate::specs::ReadFile::read_head))]
fn read_head(
    alloc: Global,
    depth: usize,
    spec: Spec,
    tokens: &[Token],
) -> Result<(Top, &[Token]), Unread>
    ensures { Gives (λ r. (r.0, r.1.now)) result (read_head depth spec tokens.now) }
{
    let (_, rest) = read_want(Term::Open, tokens)?;
    let (params, rest) = read_params(alloc, rest)?;
    let head = Head {
        result: spec,
        params,
    };
    read_after_head(alloc, depth, head, rest)
}

/// A function without a result, behind this `void`.
#[tactic(auto, unfolding(crate::specs::ReadFile::read_void))]
fn read_void<'a>(
    alloc: Global,
    depth: usize,
    token: &Token,
    tokens: &'a [Token],
) -> Result<(Top, &'a [Token]), Unread>
    ensures { Gives (λ r. (r.0, r.1.now)) result (read_void depth token.now tokens.now) }
{
    let (name, rest) = read_name(tokens)?;
    let spec = Spec {
        base: Base::Void,
        stars: 0,
        name: Some(name),
        at: token.start,
    };
    read_head(alloc, depth, spec, rest)
}

/// Whether the name behind a base has a `(` behind it.
fn begins_head(tokens: &[Token]) -> bool
    ensures { result ≡ begins_head tokens.now }
{
    let (_, rest) = read_stars(tokens);
    sees(Term::Open, skip(rest))
}

/// A function with a result, or globals.
#[tactic(auto, unfolding(crate::specs::ReadFile::read_outer))]
fn read_outer(alloc: Global, depth: usize, tokens: &[Token]) -> Result<(Top, &[Token]), Unread>
    ensures { Gives (λ r. (r.0, r.1.now)) result (read_outer depth tokens.now) }
{
    let (base, rest) = read_base(tokens)?;
    if begins_head(rest) {
        let ((stars, name), rest) = read_starred(rest)?;
        read_head(alloc, depth, naming(alloc, &base, stars, name)?, rest)
    } else {
        let (globals, rest) = read_globals(alloc, &base, rest)?;
        Ok((Top::Globals(globals), rest))
    }
}

/// Whether a `struct` and its tag end before a token of this term, or have their body there.
fn is_struct(term: Term) -> bool
    ensures { result ≡ is_struct term }
{
    match term {
        Term::Semicolon => true,
        Term::OpenBrace => true,
        _ => false,
    }
}

/// An external declaration.
#[tactic(auto, unfolding(crate::specs::ReadFile::read_top))]
fn read_top(alloc: Global, depth: usize, tokens: &[Token]) -> Result<(Top, &[Token]), Unread>
    ensures { Gives (λ r. (r.0, r.1.now)) result (read_top depth tokens.now) }
{
    let [token, rest @ ..] = tokens else {
        return Err(Unread::NotHere);
    };
    match term_of(token) {
        Term::Typedef => read_typedef(alloc, rest),
        Term::Struct if is_struct(next(skip(rest))) => read_tag(alloc, rest),
        Term::Void => read_void(alloc, depth, token, rest),
        _ => read_outer(alloc, depth, tokens),
    }
}

/// The external declarations up to the end of the tokens.
fn read_file(alloc: Global, tokens: &[Token]) -> Result<Seq<Top>, Unread>
    ensures { Gives (λ tops. tops) result (read_file (length tokens.now) (length tokens.now) [] tokens.now) }
{
    let mut tops = Seq::new(alloc);
    let mut left = tokens;
    for _turn in 0..tokens.len() {
        if left.is_empty() {
            return Ok(tops);
        }
        let (top, rest) = read_top(alloc, tokens.len(), left)?;
        tops.push(top)?;
        left = rest;
    }
    if left.is_empty() {
        Ok(tops)
    } else {
        Err(Unread::NotHere)
    }
}

/// The tree that generates the tokens.
#[tactic(auto, unfolding(crate::specs::ReadFile::read_tree))]
pub fn read_tree(alloc: Global, tokens: &Tokens) -> Result<Tree, Unread>
    ensures { Gives (λ tree. tree) result (read_tree tokens.now) }
{
    let tops = read_file(alloc, tokens.list.as_slice())?;
    Ok(Tree {
        tops,
        end: tokens.size,
    })
}
