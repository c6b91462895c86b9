// The reader of parameters (C99 6.7.5.3).
ghost use Rattle.c_parser.specs.Answer.{Gives};
ghost use Rattle.c_parser.specs.FileLoops.{param_turn};
ghost use Rattle.c_parser.specs.ReadFile.{read_param, read_more_params, read_params};

use crate::reading::{Unread, one, read_optional, read_stars, read_want};
use crate::sizes::{read_base, skip};
use crate::term::{Term, next};
use crate::turn::Turn;
use c_lexer::Token;
use c_tree::tree::Spec;
use mf_list::Seq;
use std::alloc::Global;

/// A parameter.
#[tactic(auto, unfolding(crate::specs::ReadFile::read_param))]
fn read_param(tokens: &[Token]) -> Result<(Spec, &[Token]), Unread>
    ensures { Gives (λ r. (r.0, r.1.now)) result (read_param tokens.now) }
{
    let (base, rest) = read_base(tokens)?;
    let (stars, rest) = read_stars(rest);
    let (name, rest) = read_optional(rest)?;
    Ok((
        Spec {
            stars,
            name,
            ..base
        },
        rest,
    ))
}

/// A parameter behind its comma, or the `)`.
fn read_param_turn(
    front: Seq<Spec>,
    tokens: &[Token],
) -> Result<(Turn<Seq<Spec>, Seq<Spec>>, &[Token]), Unread>
    ensures { Gives (λ r. (r.0, r.1.now)) result (param_turn front tokens.now) }
{
    match next(tokens) {
        Term::Close => Ok((Turn::Done(front), skip(tokens))),
        Term::Comma => {
            let (param, rest) = read_param(skip(tokens))?;
            let mut params = front;
            params.push(param)?;
            Ok((Turn::More(params), rest))
        }
        _ => Err(Unread::NotHere),
    }
}

/// The parameters up to the `)`, behind those in front.
fn read_more_params(
    turns: usize,
    front: Seq<Spec>,
    tokens: &[Token],
) -> Result<(Seq<Spec>, &[Token]), Unread>
    ensures { Gives (λ r. (r.0, r.1.now)) result (read_more_params turns front tokens.now) }
{
    let mut params = front;
    let mut left = tokens;
    for _turn in 0..turns {
        let (turn, rest) = read_param_turn(params, left)?;
        match turn {
            Turn::More(more) => {
                params = more;
                left = rest;
            }
            Turn::Done(all) => return Ok((all, rest)),
        }
    }
    Err(Unread::NotHere)
}

/// The parameters of a function, with the `)`.
#[tactic(auto, unfolding(crate::specs::ReadFile::read_params))]
pub fn read_params(alloc: Global, tokens: &[Token]) -> Result<(Seq<Spec>, &[Token]), Unread>
    ensures { Gives (λ r. (r.0, r.1.now)) result (read_params tokens.now) }
{
    match next(tokens) {
        Term::Close => Ok((Seq::new(alloc), skip(tokens))),
        Term::Void => {
            let (_, rest) = read_want(Term::Close, skip(tokens))?;
            Ok((Seq::new(alloc), rest))
        }
        _ => {
            let (param, rest) = read_param(tokens)?;
            let front = Seq::from_vec(one(alloc, param)?);
            read_more_params(tokens.len(), front, rest)
        }
    }
}
