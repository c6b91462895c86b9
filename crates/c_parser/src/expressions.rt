// The reader of expressions (C99 6.5). The depth bounds how deep they nest; the nest of a text is far below it.
ghost use Rattle.std.specs.Prelude.{◌≡◌, IfOk};
ghost use Rattle.c_tree.specs.declared.tree.Expr.TheVariants as expr;
ghost use Rattle.c_parser.specs.Answer.{Gives};
ghost use Rattle.c_parser.specs.Expressions.{product_of, sum_of, order_of, equality_of, and_of, or_of, oper_of};
ghost use Rattle.c_parser.specs.ReadExpressions.{joint, read_number, read_prim, read_post, read_level, read_unary, read_expr, read_arg};
ghost use Rattle.c_parser.specs.Turns.{goes_on, post_turn, joins, tail_turn};

use crate::reading::{Unread, read_name, read_want, sees};
use crate::term::{Term, next, term_of};
use c_lexer::{Kind, Token};
use c_tree::tree::{Arg, Expr, Word};
use c_tree::{Oper, Sign};
use mf_list::Memory;
use sqlite_items::Boxed;
use std::alloc::Global;

pub fn read_number(tokens: &[Token]) -> Result<(Expr, &[Token]), Unread>
    ensures { Gives (λ r. (r.0, r.1.now)) result (read_number tokens.now) }
{
    match tokens {
        [] => Err(Unread::NotHere),
        [token, rest @ ..] => match &token.kind {
            Kind::Number(value) => Ok((Expr::Const(*value, token.start), rest)),
            _ => Err(Unread::NotHere),
        },
    }
}

fn product_of(term: Term) -> Option<Oper>
    ensures { result ≡ product_of term }
{
    match term {
        Term::Star => Some(Oper::Mul),
        Term::Slash => Some(Oper::Div),
        Term::Percent => Some(Oper::Rem),
        _ => None,
    }
}

fn sum_of(term: Term) -> Option<Oper>
    ensures { result ≡ sum_of term }
{
    match term {
        Term::Plus => Some(Oper::Add),
        Term::Minus => Some(Oper::Sub),
        _ => None,
    }
}

fn order_of(term: Term) -> Option<Oper>
    ensures { result ≡ order_of term }
{
    match term {
        Term::Less => Some(Oper::Lt),
        Term::AtMost => Some(Oper::Le),
        Term::Greater => Some(Oper::Gt),
        Term::AtLeast => Some(Oper::Ge),
        _ => None,
    }
}

fn equality_of(term: Term) -> Option<Oper>
    ensures { result ≡ equality_of term }
{
    match term {
        Term::Equals => Some(Oper::Eq),
        Term::Differs => Some(Oper::Ne),
        _ => None,
    }
}

fn and_of(term: Term) -> Option<Oper>
    ensures { result ≡ and_of term }
{
    match term {
        Term::AndAnd => Some(Oper::And),
        _ => None,
    }
}

fn or_of(term: Term) -> Option<Oper>
    ensures { result ≡ or_of term }
{
    match term {
        Term::OrOr => Some(Oper::Or),
        _ => None,
    }
}

/// The operator of the level.
#[tactic(auto, unfolding(crate::specs::Expressions::oper_of))]
fn oper_of(level: usize, term: Term) -> Option<Oper>
    ensures { result ≡ oper_of level term }
{
    match level {
        0 => product_of(term),
        1 => sum_of(term),
        2 => order_of(term),
        3 => equality_of(term),
        4 => and_of(term),
        5 => or_of(term),
        _ => None,
    }
}

/// The operator of the level that joins an operand with the next one.
fn joint(level: usize, token: &Token, rest: &[Token]) -> Option<Oper>
    ensures { result ≡ joint level token.now rest.now }
{
    if sees(Term::Sizeof, rest) {
        None
    } else {
        oper_of(level, term_of(token))
    }
}

pub fn unary(alloc: Global, sign: Sign, of: Expr, at: usize) -> Result<Expr, Memory>
    ensures { IfOk result (λ e. e ≡ expr.Unary sign of at) }
{
    Ok(Expr::Unary(sign, Boxed::new(alloc, of)?, at))
}

fn deref(alloc: Global, of: Expr, at: usize) -> Result<Expr, Memory>
    ensures { IfOk result (λ e. e ≡ expr.Deref of at) }
{
    Ok(Expr::Deref(Boxed::new(alloc, of)?, at))
}

fn field(alloc: Global, of: Expr, name: Word, at: usize) -> Result<Expr, Memory>
    ensures { IfOk result (λ e. e ≡ expr.Field of name at) }
{
    Ok(Expr::Field(Boxed::new(alloc, of)?, name, at))
}

fn index(alloc: Global, of: Expr, index: Expr, at: usize) -> Result<Expr, Memory>
    ensures { IfOk result (λ e. e ≡ expr.Index of index at) }
{
    let of = Boxed::new(alloc, of)?;
    let index = Boxed::new(alloc, index)?;
    Ok(Expr::Index(of, index, at))
}

fn binary(alloc: Global, oper: Oper, left: Expr, right: Expr, at: usize) -> Result<Expr, Memory>
    ensures { IfOk result (λ e. e ≡ expr.Binary oper left right at) }
{
    let left = Boxed::new(alloc, left)?;
    let right = Boxed::new(alloc, right)?;
    Ok(Expr::Binary(oper, left, right, at))
}

#[cycle(expressions)]
fn read_prim(alloc: Global, depth: usize, tokens: &[Token]) -> Result<(Expr, &[Token]), Unread>
    ensures { Gives (λ r. (r.0, r.1.now)) result (read_prim (read_expr depth) tokens.now) }
{
    let [token, rest @ ..] = tokens else {
        return Err(Unread::NotHere);
    };
    match term_of(token) {
        Term::Number => read_number(tokens),
        Term::Null => Ok((Expr::Null(token.start), rest)),
        Term::Eof => Ok((Expr::Const(-1, token.start), rest)),
        Term::Name => {
            let (word, rest) = read_name(tokens)?;
            Ok((Expr::Var(word), rest))
        }
        Term::Open => {
            let (expr, rest) = read_level(alloc, depth, 6, rest)?;
            let (_, rest) = read_want(Term::Close, rest)?;
            Ok((expr, rest))
        }
        _ => Err(Unread::NotHere),
    }
}

/// Whether an operand goes on with `->` or `[`.
fn goes_on(tokens: &[Token]) -> bool
    ensures { result ≡ goes_on tokens.now }
{
    match next(tokens) {
        Term::Arrow => true,
        Term::OpenIndex => true,
        _ => false,
    }
}

/// The operand with one `->` or one `[` behind it.
#[cycle(expressions)]
fn read_post_turn(
    alloc: Global,
    depth: usize,
    of: Expr,
    tokens: &[Token],
) -> Result<(Expr, &[Token]), Unread>
    ensures { Gives (λ r. (r.0, r.1.now)) result (post_turn (read_expr depth) of tokens.now) }
{
    let [token, rest @ ..] = tokens else {
        return Err(Unread::NotHere);
    };
    match term_of(token) {
        Term::Arrow => {
            let (name, rest) = read_name(rest)?;
            Ok((field(alloc, of, name, token.start)?, rest))
        }
        Term::OpenIndex => {
            let (at, rest) = read_level(alloc, depth, 6, rest)?;
            let (_, rest) = read_want(Term::CloseIndex, rest)?;
            Ok((index(alloc, of, at, token.start)?, rest))
        }
        _ => Ok((of, tokens)),
    }
}

#[cycle(expressions)]
#[tactic(auto, unfolding(crate::specs::ReadExpressions::read_post))]
fn read_post(alloc: Global, depth: usize, tokens: &[Token]) -> Result<(Expr, &[Token]), Unread>
    ensures { Gives (λ r. (r.0, r.1.now)) result (read_post (read_expr depth) tokens.now) }
{
    let (mut of, mut left) = read_prim(alloc, depth, tokens)?;
    for _turn in 0..tokens.len() {
        if !goes_on(left) {
            return Ok((of, left));
        }
        (of, left) = read_post_turn(alloc, depth, of, left)?;
    }
    Err(Unread::NotHere)
}

/// The operator of the level that joins what is read with what is left.
fn joins(level: usize, tokens: &[Token]) -> Option<Oper>
    ensures { result ≡ joins level tokens.now }
{
    match tokens {
        [] => None,
        [token, rest @ ..] => joint(level, token, rest),
    }
}

/// What is read, joined with one operand more of the level.
#[cycle(expressions)]
fn read_tail_turn(
    alloc: Global,
    depth: usize,
    level: usize,
    oper: Oper,
    left: Expr,
    tokens: &[Token],
) -> Result<(Expr, &[Token]), Unread>
    ensures { Gives (λ r. (r.0, r.1.now)) result (tail_turn (read_level (read_unary depth) level) oper left tokens.now) }
{
    let [token, rest @ ..] = tokens else {
        return Err(Unread::NotHere);
    };
    let (right, rest) = read_level(alloc, depth, level, rest)?;
    Ok((binary(alloc, oper, left, right, token.start)?, rest))
}

#[cycle(expressions)]
#[tactic(auto, unfolding(crate::specs::ReadExpressions::read_level))]
pub fn read_level(
    alloc: Global,
    depth: usize,
    level: usize,
    tokens: &[Token],
) -> Result<(Expr, &[Token]), Unread>
    ensures { Gives (λ r. (r.0, r.1.now)) result (read_level (read_unary depth) level tokens.now) }
{
    if level == 0 {
        return read_unary(alloc, depth, tokens);
    }
    let (mut of, mut left) = read_level(alloc, depth, level - 1, tokens)?;
    for _turn in 0..tokens.len() {
        let Some(oper) = joins(level - 1, left) else {
            return Ok((of, left));
        };
        (of, left) = read_tail_turn(alloc, depth, level - 1, oper, of, left)?;
    }
    Err(Unread::NotHere)
}

#[cycle(expressions)]
#[tactic(auto, unfolding(crate::specs::ReadExpressions::read_unary))]
pub fn read_unary(alloc: Global, depth: usize, tokens: &[Token]) -> Result<(Expr, &[Token]), Unread>
    ensures { Gives (λ r. (r.0, r.1.now)) result (read_unary depth tokens.now) }
{
    if depth == 0 {
        return Err(Unread::NotHere);
    }
    let [token, rest @ ..] = tokens else {
        return Err(Unread::NotHere);
    };
    match term_of(token) {
        Term::Minus => {
            let (of, rest) = read_unary(alloc, depth - 1, rest)?;
            Ok((unary(alloc, Sign::Minus, of, token.start)?, rest))
        }
        Term::Not => {
            let (of, rest) = read_unary(alloc, depth - 1, rest)?;
            Ok((unary(alloc, Sign::Not, of, token.start)?, rest))
        }
        Term::Star => {
            let (of, rest) = read_unary(alloc, depth - 1, rest)?;
            Ok((deref(alloc, of, token.start)?, rest))
        }
        _ => read_post(alloc, depth - 1, tokens),
    }
}

/// An expr with the place of its first token.
pub fn read_arg(alloc: Global, depth: usize, tokens: &[Token]) -> Result<(Arg, &[Token]), Unread>
    ensures { Gives (λ r. (r.0, r.1.now)) result (read_arg depth tokens.now) }
{
    let [token, ..] = tokens else {
        return Err(Unread::NotHere);
    };
    let (expr, rest) = read_level(alloc, depth, 6, tokens)?;
    Ok((
        Arg {
            expr,
            at: token.start,
        },
        rest,
    ))
}
