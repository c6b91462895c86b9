// The reader of calls, and of right sides (C99 6.5.2.2).
ghost use Rattle.std.specs.Prelude.{◌≡◌};
ghost use Rattle.c_parser.specs.Answer.{Gives};
ghost use Rattle.c_parser.specs.ReadStatements.{read_more_args, read_args, read_request, cast_to, read_cast, read_user, read_getchar, read_putchar, read_text, read_printf, read_call, is_cast, is_call, begins_call, read_right};
ghost use Rattle.c_parser.specs.Turns.{comma_arg};

use crate::expressions::read_arg;
use crate::reading::{Unread, one, read_name, read_want, sees};
use crate::sizes::{read_base, read_size, skip};
use crate::term::{Term, next, same, term_of};
use c_lexer::{Kind, Token};
use c_tree::tree::{Arg, Call, Right, Spec};
use mf_bytes::SharedBytes;
use mf_list::Seq;
use std::alloc::Global;

/// An argument behind its comma.
fn read_comma_arg(alloc: Global, depth: usize, tokens: &[Token]) -> Result<(Arg, &[Token]), Unread>
    ensures { Gives (λ r. (r.0, r.1.now)) result (comma_arg depth tokens.now) }
{
    let (_, rest) = read_want(Term::Comma, tokens)?;
    read_arg(alloc, depth, rest)
}

/// The arguments up to the `)`, behind those in front; the offset is that of the `)`.
fn read_more_args(
    alloc: Global,
    depth: usize,
    turns: usize,
    front: Seq<Arg>,
    tokens: &[Token],
) -> Result<((Seq<Arg>, usize), &[Token]), Unread>
    ensures { Gives (λ r. (r.0, r.1.now)) result (read_more_args depth turns front tokens.now) }
{
    let mut arguments = front;
    let mut left = tokens;
    for _turn in 0..turns {
        if sees(Term::Close, left) {
            let (close, rest) = read_want(Term::Close, left)?;
            return Ok(((arguments, close.start), rest));
        }
        let (argument, rest) = read_comma_arg(alloc, depth, left)?;
        arguments.push(argument)?;
        left = rest;
    }
    Err(Unread::NotHere)
}

/// The arguments of a call, and the offset of its `)`.
#[tactic(auto, unfolding(crate::specs::ReadStatements::read_args))]
fn read_args(
    alloc: Global,
    depth: usize,
    tokens: &[Token],
) -> Result<((Seq<Arg>, usize), &[Token]), Unread>
    ensures { Gives (λ r. (r.0, r.1.now)) result (read_args depth tokens.now) }
{
    let [token, rest @ ..] = tokens else {
        return Err(Unread::NotHere);
    };
    if same(Term::Close, term_of(token)) {
        return Ok(((Seq::new(alloc), token.start), rest));
    }
    let (argument, rest) = read_arg(alloc, depth, tokens)?;
    let front = Seq::from_vec(one(alloc, argument)?);
    read_more_args(alloc, depth, tokens.len(), front, rest)
}

/// A request behind its word.
fn read_request<'a>(
    alloc: Global,
    depth: usize,
    cast: Option<Spec>,
    word: &Token,
    tokens: &'a [Token],
) -> Result<(Call, &'a [Token]), Unread>
    ensures { Gives (λ r. (r.0, r.1.now)) result (read_request depth cast word.now tokens.now) }
{
    let (_, rest) = read_want(Term::Open, tokens)?;
    let (size, rest) = read_size(alloc, depth, rest)?;
    let (_, rest) = read_want(Term::Close, rest)?;
    Ok((Call::Malloc(cast, size, word.start), rest))
}

/// A request with a cast, behind the `(` of the cast.
fn read_cast(alloc: Global, depth: usize, tokens: &[Token]) -> Result<(Call, &[Token]), Unread>
    ensures { Gives (λ r. (r.0, r.1.now)) result (read_cast depth tokens.now) }
{
    let (spec, rest) = read_base(tokens)?;
    let (_, rest) = read_want(Term::Star, rest)?;
    let (_, rest) = read_want(Term::Close, rest)?;
    let (word, rest) = read_want(Term::Malloc, rest)?;
    read_request(alloc, depth, Some(cast_to(spec)), word, rest)
}

/// The type with one star.
fn cast_to(spec: Spec) -> Spec
    ensures { result ≡ cast_to spec }
{
    Spec { stars: 1, ..spec }
}

fn read_user(alloc: Global, depth: usize, tokens: &[Token]) -> Result<(Call, &[Token]), Unread>
    ensures { Gives (λ r. (r.0, r.1.now)) result (read_user depth tokens.now) }
{
    let (callee, rest) = read_name(tokens)?;
    let (_, rest) = read_want(Term::Open, rest)?;
    let ((arguments, close), rest) = read_args(alloc, depth, rest)?;
    Ok((Call::User(callee, arguments, close), rest))
}

fn read_getchar<'a>(word: &Token, tokens: &'a [Token]) -> Result<(Call, &'a [Token]), Unread>
    ensures { Gives (λ r. (r.0, r.1.now)) result (read_getchar word.now tokens.now) }
{
    let (_, rest) = read_want(Term::Open, tokens)?;
    let (_, rest) = read_want(Term::Close, rest)?;
    Ok((Call::Getchar(word.start), rest))
}

fn read_putchar<'a>(
    alloc: Global,
    depth: usize,
    word: &Token,
    tokens: &'a [Token],
) -> Result<(Call, &'a [Token]), Unread>
    ensures { Gives (λ r. (r.0, r.1.now)) result (read_putchar depth word.now tokens.now) }
{
    let (_, rest) = read_want(Term::Open, tokens)?;
    let (argument, rest) = read_arg(alloc, depth, rest)?;
    let (_, rest) = read_want(Term::Close, rest)?;
    Ok((Call::Putchar(argument, word.start), rest))
}

/// A string, which shares its bytes with the token, and its offset.
fn read_text(tokens: &[Token]) -> Result<((SharedBytes, usize), &[Token]), Unread>
    ensures { Gives (λ r. (r.0, r.1.now)) result (read_text tokens.now) }
{
    match tokens {
        [] => Err(Unread::NotHere),
        [token, rest @ ..] => match &token.kind {
            Kind::Text(text) => Ok(((text.share()?, token.start), rest)),
            _ => Err(Unread::NotHere),
        },
    }
}

fn read_printf<'a>(
    alloc: Global,
    depth: usize,
    word: &Token,
    tokens: &'a [Token],
) -> Result<(Call, &'a [Token]), Unread>
    ensures { Gives (λ r. (r.0, r.1.now)) result (read_printf depth word.now tokens.now) }
{
    let (_, within) = read_want(Term::Open, tokens)?;
    let ((text, at), rest) = read_text(within)?;
    let none = Seq::new(alloc);
    let ((arguments, close), rest) = read_more_args(alloc, depth, within.len(), none, rest)?;
    Ok((Call::Printf(text, at, arguments, word.start, close), rest))
}

#[tactic(auto, unfolding(crate::specs::ReadStatements::read_call))]
pub fn read_call(alloc: Global, depth: usize, tokens: &[Token]) -> Result<(Call, &[Token]), Unread>
    ensures { Gives (λ r. (r.0, r.1.now)) result (read_call depth tokens.now) }
{
    let [token, rest @ ..] = tokens else {
        return Err(Unread::NotHere);
    };
    match term_of(token) {
        Term::Name => read_user(alloc, depth, tokens),
        Term::Getchar => read_getchar(token, rest),
        Term::Putchar => read_putchar(alloc, depth, token, rest),
        Term::Printf => read_printf(alloc, depth, token, rest),
        Term::Malloc => read_request(alloc, depth, None, token, rest),
        Term::Open => read_cast(alloc, depth, rest),
        _ => Err(Unread::NotHere),
    }
}

/// Whether what stands behind a `(` and begins with these terms is a cast.
fn is_cast(first: Term, second: Term, third: Term) -> bool
    ensures { result ≡ is_cast first second third }
{
    match (first, second, third) {
        (Term::Int, _, _) => true,
        (Term::Struct, _, _) => true,
        (Term::Name, Term::Star, Term::Close) => true,
        _ => false,
    }
}

/// Whether what begins with these terms is a call.
fn is_call(first: Term, second: Term, third: Term, fourth: Term) -> bool
    ensures { result ≡ is_call first second third fourth }
{
    match first {
        Term::Getchar => true,
        Term::Putchar => true,
        Term::Printf => true,
        Term::Malloc => true,
        Term::Name => same(Term::Open, second),
        Term::Open => is_cast(second, third, fourth),
        _ => false,
    }
}

/// Whether these tokens begin a call and no expression.
pub fn begins_call(tokens: &[Token]) -> bool
    ensures { result ≡ begins_call tokens.now }
{
    let behind = skip(tokens);
    let third = skip(behind);
    is_call(next(tokens), next(behind), next(third), next(skip(third)))
}

#[tactic(auto, unfolding(crate::specs::ReadStatements::read_right))]
pub fn read_right(
    alloc: Global,
    depth: usize,
    tokens: &[Token],
) -> Result<(Right, &[Token]), Unread>
    ensures { Gives (λ r. (r.0, r.1.now)) result (read_right depth tokens.now) }
{
    if begins_call(tokens) {
        let (call, rest) = read_call(alloc, depth, tokens)?;
        Ok((Right::Call(call), rest))
    } else {
        let (arg, rest) = read_arg(alloc, depth, tokens)?;
        Ok((Right::Plain(arg), rest))
    }
}
