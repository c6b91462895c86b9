// The reader of assignments and of declarations in functions (C99 6.5.16, 6.7).
ghost use Rattle.std.specs.Prelude.{◌≡◌, []};
ghost use Rattle.c_parser.specs.Answer.{Gives};
ghost use Rattle.c_parser.specs.ReadExpressions.{placed};
ghost use Rattle.c_parser.specs.ReadExpressions.{read_unary as read_factor};
ghost use Rattle.c_parser.specs.Term.{term_of};
ghost use Rattle.c_parser.specs.Statements.{change_of, step_of, one_at};
ghost use Rattle.c_parser.specs.ReadStatements.{simple_of, read_step, read_change, read_changed, read_place, read_simple, read_initialiser, read_declr, read_declrs, read_decl, is_decl, begins_decl};

use crate::calls::read_right;
use crate::expressions::{read_arg, read_unary};
use crate::reading::{Unread, sees};
use crate::sizes::{naming, read_base, read_starred, skip};
use crate::term::{Term, next, same, term_of};
use c_lexer::Token;
use c_tree::Op;
use c_tree::tree::{Arg, Declr, Expr, Right, Simple, Spec};
use mf_list::Seq;
use std::alloc::Global;

/// The operator of `+=`, `-=` and `*=`.
fn change_of(term: Term) -> Option<Op>
    ensures { result ≡ change_of term }
{
    match term {
        Term::PlusPut => Some(Op::Add),
        Term::MinusPut => Some(Op::Sub),
        Term::StarPut => Some(Op::Mul),
        _ => None,
    }
}

/// The operator of `++` and `--`.
fn step_of(term: Term) -> Option<Op>
    ensures { result ≡ step_of term }
{
    match term {
        Term::PlusPlus => Some(Op::Add),
        Term::MinusMinus => Some(Op::Sub),
        _ => None,
    }
}

/// The 1 of `++` and `--`.
fn one_at(token: &Token) -> Right
    ensures { result ≡ one_at token.now }
{
    Right::Plain(Arg {
        expr: Expr::Const(1, token.start),
        at: token.start,
    })
}

fn simple_of(place: Arg, op: Op, right: Right, token: &Token) -> Simple
    ensures { result ≡ simple_of place op right token.now }
{
    Simple {
        place,
        op,
        right,
        at: token.start,
    }
}

/// A unary with the place of its first token.
fn read_factor(alloc: Global, depth: usize, tokens: &[Token]) -> Result<(Arg, &[Token]), Unread>
    ensures { Gives (λ r. (r.0, r.1.now)) result (placed (read_factor depth) tokens.now) }
{
    let [token, ..] = tokens else {
        return Err(Unread::NotHere);
    };
    let (expr, rest) = read_unary(alloc, depth, tokens)?;
    Ok((
        Arg {
            expr,
            at: token.start,
        },
        rest,
    ))
}

/// What changes a place by an operator, behind the operator's token.
fn read_change<'a>(
    alloc: Global,
    depth: usize,
    steps: bool,
    place: Arg,
    token: &Token,
    tokens: &'a [Token],
) -> Result<(Simple, &'a [Token]), Unread>
    ensures { Gives (λ r. (r.0, r.1.now)) result (read_change depth steps place (change_of (term_of token.now)) token.now tokens.now) }
{
    match change_of(term_of(token)) {
        Some(op) => {
            let (by, rest) = read_arg(alloc, depth, tokens)?;
            Ok((simple_of(place, op, Right::Plain(by), token), rest))
        }
        None => match (steps, step_of(term_of(token))) {
            (true, Some(op)) => Ok((simple_of(place, op, one_at(token), token), tokens)),
            _ => Err(Unread::NotHere),
        },
    }
}

/// What changes a place; a post may be followed by `++` and `--` too.
#[tactic(auto, unfolding(crate::specs::ReadStatements::read_changed))]
fn read_changed(
    alloc: Global,
    depth: usize,
    steps: bool,
    place: Arg,
    tokens: &[Token],
) -> Result<(Simple, &[Token]), Unread>
    ensures { Gives (λ r. (r.0, r.1.now)) result (read_changed depth steps place tokens.now) }
{
    let [token, rest @ ..] = tokens else {
        return Err(Unread::NotHere);
    };
    if same(Term::Put, term_of(token)) {
        let (right, rest) = read_right(alloc, depth, rest)?;
        Ok((simple_of(place, Op::Put, right, token), rest))
    } else {
        read_change(alloc, depth, steps, place, token, rest)
    }
}

/// An assignment that begins with a token of this term.
fn read_place(
    alloc: Global,
    depth: usize,
    term: Term,
    tokens: &[Token],
) -> Result<(Simple, &[Token]), Unread>
    ensures { Gives (λ r. (r.0, r.1.now)) result (read_place depth term tokens.now) }
{
    match term {
        Term::Minus => Err(Unread::NotHere),
        Term::Not => Err(Unread::NotHere),
        Term::Star => {
            let (place, rest) = read_factor(alloc, depth, tokens)?;
            read_changed(alloc, depth, false, place, rest)
        }
        _ => {
            let (place, rest) = read_factor(alloc, depth, tokens)?;
            read_changed(alloc, depth, true, place, rest)
        }
    }
}

#[tactic(auto, unfolding(crate::specs::ReadStatements::read_simple))]
pub fn read_simple(
    alloc: Global,
    depth: usize,
    tokens: &[Token],
) -> Result<(Simple, &[Token]), Unread>
    ensures { Gives (λ r. (r.0, r.1.now)) result (read_simple depth tokens.now) }
{
    let [token, rest @ ..] = tokens else {
        return Err(Unread::NotHere);
    };
    match step_of(term_of(token)) {
        Some(op) => {
            let (place, rest) = read_factor(alloc, depth, rest)?;
            Ok((simple_of(place, op, one_at(token), token), rest))
        }
        None => read_place(alloc, depth, term_of(token), tokens),
    }
}

/// A declarator of this type, from its `=` on; the offset is that of its name.
fn read_initialiser(
    alloc: Global,
    depth: usize,
    spec: Spec,
    at: usize,
    tokens: &[Token],
) -> Result<(Declr, &[Token]), Unread>
    ensures { Gives (λ r. (r.0, r.1.now)) result (read_initialiser depth spec at tokens.now) }
{
    match tokens {
        [token, rest @ ..] if same(Term::Put, term_of(token)) => {
            let (right, rest) = read_right(alloc, depth, rest)?;
            let right = Some(right);
            let at = token.start;
            Ok((Declr { spec, right, at }, rest))
        }
        _ => {
            let right = None;
            Ok((Declr { spec, right, at }, tokens))
        }
    }
}

/// A declarator of this base.
#[tactic(auto, unfolding(crate::specs::ReadStatements::read_declr))]
fn read_declr<'a>(
    alloc: Global,
    depth: usize,
    base: &Spec,
    tokens: &'a [Token],
) -> Result<(Declr, &'a [Token]), Unread>
    ensures { Gives (λ r. (r.0, r.1.now)) result (read_declr depth base.now tokens.now) }
{
    let ((stars, name), rest) = read_starred(tokens)?;
    let at = name.at;
    read_initialiser(alloc, depth, naming(alloc, base, stars, name)?, at, rest)
}

/// Declarators of this base, split by commas; the turns are no fewer than the declarators.
fn read_declrs<'a>(
    alloc: Global,
    depth: usize,
    base: &Spec,
    turns: usize,
    tokens: &'a [Token],
) -> Result<(Seq<Declr>, &'a [Token]), Unread>
    ensures { Gives (λ r. (r.0, r.1.now)) result (read_declrs depth base.now turns [] tokens.now) }
{
    let mut declrs = Seq::new(alloc);
    let mut left = tokens;
    for _turn in 0..turns {
        let (declr, rest) = read_declr(alloc, depth, base, left)?;
        declrs.push(declr)?;
        if !sees(Term::Comma, rest) {
            return Ok((declrs, rest));
        }
        left = skip(rest);
    }
    Err(Unread::NotHere)
}

/// A declaration in a function, up to its `;`.
#[tactic(auto, unfolding(crate::specs::ReadStatements::read_decl))]
pub fn read_decl(
    alloc: Global,
    depth: usize,
    tokens: &[Token],
) -> Result<(Seq<Declr>, &[Token]), Unread>
    ensures { Gives (λ r. (r.0, r.1.now)) result (read_decl depth tokens.now) }
{
    let (base, rest) = read_base(tokens)?;
    read_declrs(alloc, depth, &base, tokens.len(), rest)
}

/// Whether what begins with these terms is a declaration.
fn is_decl(first: Term, second: Term) -> bool
    ensures { result ≡ is_decl first second }
{
    match (first, second) {
        (Term::Int, _) => true,
        (Term::Struct, _) => true,
        (Term::Name, Term::Name) => true,
        (Term::Name, Term::Star) => true,
        _ => false,
    }
}

/// Whether these tokens begin a declaration.
pub fn begins_decl(tokens: &[Token]) -> bool
    ensures { result ≡ begins_decl tokens.now }
{
    is_decl(next(tokens), next(skip(tokens)))
}
