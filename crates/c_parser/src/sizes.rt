// The reader of types, and of the sizes of requests: `sizeof` and what is counted of it (C99 6.5.3.4, 7.20.3.3).
ghost use Rattle.std.specs.Prelude.{◌≡◌, drop, IfOk};
ghost use Rattle.c_tree.specs.declared.tree.Size.{Size};
ghost use Rattle.c_parser.specs.Answer.{Gives};
ghost use Rattle.c_parser.specs.ReadStatements.{read_base, read_starred, naming, read_unit_within, read_unit_at, read_unit, sized, read_count_behind, read_count_before, read_size};

use crate::expressions::{read_level, read_unary};
use crate::reading::{Unread, read_name, read_stars, read_want, sees};
use crate::term::{Term, next, same, term_of};
use c_lexer::Token;
use c_tree::Duplicate;
use c_tree::tree::{Base, Expr, Size, Spec, Unit, Word};
use mf_list::Memory;
use sqlite_items::Boxed;
use std::alloc::Global;

/// The tokens behind the first one.
pub fn skip(tokens: &[Token]) -> &[Token]
    ensures { result.now ≡ drop 1 tokens.now }
{
    match tokens {
        [] => tokens,
        [_, rest @ ..] => rest,
    }
}

/// A base, as a type without stars and without a name.
#[tactic(auto, unfolding(crate::specs::ReadStatements::read_base))]
pub fn read_base(tokens: &[Token]) -> Result<(Spec, &[Token]), Unread>
    ensures { Gives (λ r. (r.0, r.1.now)) result (read_base tokens.now) }
{
    let [token, rest @ ..] = tokens else {
        return Err(Unread::NotHere);
    };
    let (base, rest) = match term_of(token) {
        Term::Int => (Base::Int, rest),
        Term::Struct => {
            let (word, rest) = read_name(rest)?;
            (Base::Tag(word), rest)
        }
        Term::Name => {
            let (word, rest) = read_name(tokens)?;
            (Base::Alias(word), rest)
        }
        _ => return Err(Unread::NotHere),
    };
    Ok((
        Spec {
            base,
            stars: 0,
            name: None,
            at: token.start,
        },
        rest,
    ))
}

/// A name with the stars before it.
pub fn read_starred(tokens: &[Token]) -> Result<((usize, Word), &[Token]), Unread>
    ensures { Gives (λ r. (r.0, r.1.now)) result (read_starred tokens.now) }
{
    let (stars, rest) = read_stars(tokens);
    let (name, rest) = read_name(rest)?;
    Ok(((stars, name), rest))
}

/// The type with these stars, and this name.
pub fn naming(alloc: Global, spec: &Spec, stars: usize, name: Word) -> Result<Spec, Memory>
    ensures { IfOk result (λ named. named ≡ naming spec.now (stars, name)) }
{
    Ok(Spec {
        base: spec.base.duplicate(alloc)?,
        stars,
        name: Some(name),
        at: spec.at,
    })
}

/// What `sizeof` is asked of in parentheses.
fn read_unit_within(tokens: &[Token]) -> Result<(Unit, &[Token]), Unread>
    ensures { Gives (λ r. (r.0, r.1.now)) result (read_unit_within tokens.now) }
{
    let [token, rest @ ..] = tokens else {
        return Err(Unread::NotHere);
    };
    if same(Term::Star, term_of(token)) {
        let (word, rest) = read_name(rest)?;
        Ok((Unit::Star(word), rest))
    } else {
        let (spec, rest) = read_base(tokens)?;
        Ok((Unit::Of(spec), rest))
    }
}

/// What `sizeof` is asked of, behind a token of this term.
fn read_unit_at(term: Term, tokens: &[Token]) -> Result<(Unit, &[Token]), Unread>
    ensures { Gives (λ r. (r.0, r.1.now)) result (read_unit_at term tokens.now) }
{
    match term {
        Term::Star => {
            let (word, rest) = read_name(tokens)?;
            Ok((Unit::Star(word), rest))
        }
        Term::Open => {
            let (unit, rest) = read_unit_within(tokens)?;
            let (_, rest) = read_want(Term::Close, rest)?;
            Ok((unit, rest))
        }
        _ => Err(Unread::NotHere),
    }
}

/// A unit with the offset of its `sizeof`.
#[tactic(auto, unfolding(crate::specs::ReadStatements::read_unit))]
fn read_unit(tokens: &[Token]) -> Result<((Unit, usize), &[Token]), Unread>
    ensures { Gives (λ r. (r.0, r.1.now)) result (read_unit tokens.now) }
{
    let (word, rest) = read_want(Term::Sizeof, tokens)?;
    let (unit, rest) = read_unit_at(next(rest), skip(rest))?;
    Ok(((unit, word.start), rest))
}

fn sized(alloc: Global, unit: Unit, at: usize, count: Expr) -> Result<Size, Memory>
    ensures { IfOk result (λ size. size ≡ sized (unit, at) (Some count)) }
{
    Ok(Size {
        unit,
        count: Some(Boxed::new(alloc, count)?),
        at,
    })
}

/// The size of so much of a unit as stands behind it.
fn read_count_behind(
    alloc: Global,
    depth: usize,
    unit: Unit,
    at: usize,
    tokens: &[Token],
) -> Result<(Size, &[Token]), Unread>
    ensures { Gives (λ r. (r.0, r.1.now)) result (read_count_behind depth (unit, at) tokens.now) }
{
    match tokens {
        [token, rest @ ..] if same(Term::Star, term_of(token)) => {
            let (count, rest) = read_unary(alloc, depth, rest)?;
            Ok((sized(alloc, unit, at, count)?, rest))
        }
        _ => Ok((
            Size {
                unit,
                count: None,
                at,
            },
            tokens,
        )),
    }
}

/// The size of so much of a unit as stands before it.
fn read_count_before(
    alloc: Global,
    depth: usize,
    tokens: &[Token],
) -> Result<(Size, &[Token]), Unread>
    ensures { Gives (λ r. (r.0, r.1.now)) result (read_count_before depth tokens.now) }
{
    let (count, rest) = read_level(alloc, depth, 1, tokens)?;
    let (_, rest) = read_want(Term::Star, rest)?;
    let ((unit, at), rest) = read_unit(rest)?;
    Ok((sized(alloc, unit, at, count)?, rest))
}

/// The size of a request.
#[tactic(auto, unfolding(crate::specs::ReadStatements::read_size))]
pub fn read_size(alloc: Global, depth: usize, tokens: &[Token]) -> Result<(Size, &[Token]), Unread>
    ensures { Gives (λ r. (r.0, r.1.now)) result (read_size depth tokens.now) }
{
    if sees(Term::Sizeof, tokens) {
        let ((unit, at), rest) = read_unit(tokens)?;
        read_count_behind(alloc, depth, unit, at, rest)
    } else {
        read_count_before(alloc, depth, tokens)
    }
}
