// The reader of what stands before the bodies of statements: tests, and the heads of `for` (C99 6.8.4, 6.8.5).
ghost use Rattle.std.specs.Prelude.{◌≡◌, IfOk, map};
ghost use Rattle.c_tree.specs.declared.tree.Start.TheVariants as start;
ghost use Rattle.c_parser.specs.Answer.{Gives};
ghost use Rattle.c_parser.specs.ReadBlocks.{read_test, read_for_start, read_for_test, read_for_step, read_for_head};

use crate::expressions::read_level;
use crate::reading::{Unread, one, read_want};
use crate::statements::{begins_decl, read_decl, read_simple};
use crate::term::{Term, same, term_of};
use c_lexer::Token;
use c_tree::tree::{Declr, Expr, ForHead, Simple, Start};
use mf_list::{Memory, Seq};
use std::alloc::Global;

/// The test of a statement, in its parentheses.
#[tactic(auto, unfolding(crate::specs::ReadBlocks::read_test))]
pub fn read_test(alloc: Global, depth: usize, tokens: &[Token]) -> Result<(Expr, &[Token]), Unread>
    ensures { Gives (λ r. (r.0, r.1.now)) result (read_test depth tokens.now) }
{
    let (_, rest) = read_want(Term::Open, tokens)?;
    let (test, rest) = read_level(alloc, depth, 6, rest)?;
    let (_, rest) = read_want(Term::Close, rest)?;
    Ok((test, rest))
}

/// The declarators, each as a start of a `for`.
fn declares(alloc: Global, declrs: Seq<Declr>) -> Result<Seq<Start>, Memory>
    ensures { IfOk result (λ starts. starts ≡ map start.Declare declrs) }
{
    let starts = declrs
        .into_vec()
        .into_iter()
        .map(Start::Declare)
        .collect(alloc)?;
    Ok(Seq::from_vec(starts))
}

/// What a `for` begins with, and its `;`.
#[tactic(auto, unfolding(crate::specs::ReadBlocks::read_for_start))]
fn read_for_start(
    alloc: Global,
    depth: usize,
    tokens: &[Token],
) -> Result<(Seq<Start>, &[Token]), Unread>
    ensures { Gives (λ r. (r.0, r.1.now)) result (read_for_start depth tokens.now) }
{
    let [token, rest @ ..] = tokens else {
        return Err(Unread::NotHere);
    };
    if same(Term::Semicolon, term_of(token)) {
        return Ok((Seq::new(alloc), rest));
    }
    if begins_decl(tokens) {
        let (declrs, rest) = read_decl(alloc, depth, tokens)?;
        let (_, rest) = read_want(Term::Semicolon, rest)?;
        return Ok((declares(alloc, declrs)?, rest));
    }
    let (simple, rest) = read_simple(alloc, depth, tokens)?;
    let (_, rest) = read_want(Term::Semicolon, rest)?;
    let starts = one(alloc, Start::Assign(simple))?;
    Ok((Seq::from_vec(starts), rest))
}

/// The test of a `for`, where it has one, and its `;`.
#[tactic(auto, unfolding(crate::specs::ReadBlocks::read_for_test))]
fn read_for_test(
    alloc: Global,
    depth: usize,
    tokens: &[Token],
) -> Result<(Option<Expr>, &[Token]), Unread>
    ensures { Gives (λ r. (r.0, r.1.now)) result (read_for_test depth tokens.now) }
{
    let [token, rest @ ..] = tokens else {
        return Err(Unread::NotHere);
    };
    if same(Term::Semicolon, term_of(token)) {
        return Ok((None, rest));
    }
    let (test, rest) = read_level(alloc, depth, 6, tokens)?;
    let (_, rest) = read_want(Term::Semicolon, rest)?;
    Ok((Some(test), rest))
}

/// The step of a `for`, where it has one, and the `)`.
#[tactic(auto, unfolding(crate::specs::ReadBlocks::read_for_step))]
fn read_for_step(
    alloc: Global,
    depth: usize,
    tokens: &[Token],
) -> Result<(Option<Simple>, &[Token]), Unread>
    ensures { Gives (λ r. (r.0, r.1.now)) result (read_for_step depth tokens.now) }
{
    let [token, rest @ ..] = tokens else {
        return Err(Unread::NotHere);
    };
    if same(Term::Close, term_of(token)) {
        return Ok((None, rest));
    }
    let (step, rest) = read_simple(alloc, depth, tokens)?;
    let (_, rest) = read_want(Term::Close, rest)?;
    Ok((Some(step), rest))
}

/// The head of a `for`, in its parentheses.
#[tactic(auto, unfolding(crate::specs::ReadBlocks::read_for_head))]
pub fn read_for_head(
    alloc: Global,
    depth: usize,
    tokens: &[Token],
) -> Result<(ForHead, &[Token]), Unread>
    ensures { Gives (λ r. (r.0, r.1.now)) result (read_for_head depth tokens.now) }
{
    let (_, rest) = read_want(Term::Open, tokens)?;
    let (start, rest) = read_for_start(alloc, depth, rest)?;
    let (test, rest) = read_for_test(alloc, depth, rest)?;
    let (step, rest) = read_for_step(alloc, depth, rest)?;
    Ok((ForHead { start, test, step }, rest))
}
