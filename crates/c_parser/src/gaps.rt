// The reader of gaps: `free` statements and lone semicolons (C99 6.8.3).
ghost use Rattle.std.specs.Prelude.{[], length};
ghost use Rattle.c_parser.specs.Answer.{Gives};
ghost use Rattle.c_parser.specs.Loops.{gap_turn};
ghost use Rattle.c_parser.specs.ReadBlocks.{read_free, read_gap};

use crate::expressions::read_arg;
use crate::reading::{Unread, read_want};
use crate::term::{Term, term_of};
use crate::turn::Turn;
use c_lexer::Token;
use c_tree::tree::Free;
use mf_list::Seq;
use std::alloc::Global;

/// A `free` statement.
#[tactic(auto, unfolding(crate::specs::ReadBlocks::read_free))]
pub fn read_free(alloc: Global, depth: usize, tokens: &[Token]) -> Result<(Free, &[Token]), Unread>
    ensures { Gives (λ r. (r.0, r.1.now)) result (read_free depth tokens.now) }
{
    let (word, rest) = read_want(Term::Free, tokens)?;
    let (_, rest) = read_want(Term::Open, rest)?;
    let (expr, rest) = read_arg(alloc, depth, rest)?;
    let (_, rest) = read_want(Term::Close, rest)?;
    let (semicolon, rest) = read_want(Term::Semicolon, rest)?;
    Ok((
        Free {
            expr,
            start: word.start,
            end: semicolon.end,
        },
        rest,
    ))
}

/// One `free` statement or semicolon more, behind the `free` statements in front; or the end of the gap.
fn read_gap_turn(
    alloc: Global,
    depth: usize,
    front: Seq<Free>,
    tokens: &[Token],
) -> Result<(Turn<Seq<Free>, Seq<Free>>, &[Token]), Unread>
    ensures { Gives (λ r. (r.0, r.1.now)) result (gap_turn depth front tokens.now) }
{
    let [token, rest @ ..] = tokens else {
        return Err(Unread::NotHere);
    };
    match term_of(token) {
        Term::Semicolon => Ok((Turn::More(front), rest)),
        Term::Free => {
            let (free, rest) = read_free(alloc, depth, tokens)?;
            let mut frees = front;
            frees.push(free)?;
            Ok((Turn::More(frees), rest))
        }
        _ => Ok((Turn::Done(front), tokens)),
    }
}

/// The `free` statements of a gap.
pub fn read_gap(
    alloc: Global,
    depth: usize,
    tokens: &[Token],
) -> Result<(Seq<Free>, &[Token]), Unread>
    ensures { Gives (λ r. (r.0, r.1.now)) result (read_gap depth (length tokens.now) [] tokens.now) }
{
    let mut frees = Seq::new(alloc);
    let mut left = tokens;
    for _turn in 0..tokens.len() {
        let (turn, rest) = read_gap_turn(alloc, depth, frees, left)?;
        match turn {
            Turn::More(more) => {
                frees = more;
                left = rest;
            }
            Turn::Done(all) => return Ok((all, rest)),
        }
    }
    Err(Unread::NotHere)
}
