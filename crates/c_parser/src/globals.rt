// The reader of globals and of the constants that they begin with (C99 6.9.2).
ghost use Rattle.std.specs.Prelude.{[], length};
ghost use Rattle.c_parser.specs.Answer.{Gives};
ghost use Rattle.c_parser.specs.FileLoops.{global_turn};
ghost use Rattle.c_parser.specs.ReadFile.{read_const, read_value, read_global, read_globals};

use crate::expressions::{read_number, unary};
use crate::reading::Unread;
use crate::sizes::{naming, read_starred, skip};
use crate::term::{Term, next, same, term_of};
use crate::turn::Turn;
use c_lexer::Token;
use c_tree::Sign;
use c_tree::tree::{Expr, GlobalDecl, Spec};
use mf_list::Seq;
use std::alloc::Global;

/// A constant that a global begins with.
#[tactic(auto, unfolding(crate::specs::ReadFile::read_const))]
fn read_const(alloc: Global, tokens: &[Token]) -> Result<(Expr, &[Token]), Unread>
    ensures { Gives (λ r. (r.0, r.1.now)) result (read_const tokens.now) }
{
    let [token, rest @ ..] = tokens else {
        return Err(Unread::NotHere);
    };
    match term_of(token) {
        Term::Number => read_number(tokens),
        Term::Minus => {
            let (number, rest) = read_number(rest)?;
            Ok((unary(alloc, Sign::Minus, number, token.start)?, rest))
        }
        Term::Null => Ok((Expr::Null(token.start), rest)),
        Term::Eof => Ok((Expr::Const(-1, token.start), rest)),
        _ => Err(Unread::NotHere),
    }
}

/// A global of this type, from its `=` on; the offset is that of its name.
fn read_value(
    alloc: Global,
    spec: Spec,
    at: usize,
    tokens: &[Token],
) -> Result<(GlobalDecl, &[Token]), Unread>
    ensures { Gives (λ r. (r.0, r.1.now)) result (read_value spec at tokens.now) }
{
    match tokens {
        [token, rest @ ..] if same(Term::Put, term_of(token)) => {
            let (value, rest) = read_const(alloc, rest)?;
            let value = Some(value);
            let at = token.start;
            Ok((GlobalDecl { spec, value, at }, rest))
        }
        _ => {
            let value = None;
            Ok((GlobalDecl { spec, value, at }, tokens))
        }
    }
}

/// A global of this base.
#[tactic(auto, unfolding(crate::specs::ReadFile::read_global))]
fn read_global<'a>(
    alloc: Global,
    base: &Spec,
    tokens: &'a [Token],
) -> Result<(GlobalDecl, &'a [Token]), Unread>
    ensures { Gives (λ r. (r.0, r.1.now)) result (read_global base.now tokens.now) }
{
    let ((stars, name), rest) = read_starred(tokens)?;
    let at = name.at;
    read_value(alloc, naming(alloc, base, stars, name)?, at, rest)
}

/// A global of this base behind those in front.
fn read_global_turn<'a>(
    alloc: Global,
    base: &Spec,
    front: Seq<GlobalDecl>,
    tokens: &'a [Token],
) -> Result<(Turn<Seq<GlobalDecl>, Seq<GlobalDecl>>, &'a [Token]), Unread>
    ensures { Gives (λ r. (r.0, r.1.now)) result (global_turn base.now front tokens.now) }
{
    let (global, rest) = read_global(alloc, base, tokens)?;
    let mut globals = front;
    globals.push(global)?;
    match next(rest) {
        Term::Comma => Ok((Turn::More(globals), skip(rest))),
        Term::Semicolon => Ok((Turn::Done(globals), skip(rest))),
        _ => Err(Unread::NotHere),
    }
}

/// The globals of this base up to the `;`.
pub fn read_globals<'a>(
    alloc: Global,
    base: &Spec,
    tokens: &'a [Token],
) -> Result<(Seq<GlobalDecl>, &'a [Token]), Unread>
    ensures { Gives (λ r. (r.0, r.1.now)) result (read_globals base.now (length tokens.now) [] tokens.now) }
{
    let mut globals = Seq::new(alloc);
    let mut left = tokens;
    for _turn in 0..tokens.len() {
        let (turn, rest) = read_global_turn(alloc, base, globals, left)?;
        match turn {
            Turn::More(more) => {
                globals = more;
                left = rest;
            }
            Turn::Done(all) => return Ok((all, rest)),
        }
    }
    Err(Unread::NotHere)
}
