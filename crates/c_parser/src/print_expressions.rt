// Expressions as tokens (C99 6.5). What is still to be printed stands on a stack of its own, so that the depth of an
// expression is no depth of calls.
ghost use Rattle.std.specs.Prelude.{◌≡◌, ◌≤◌, ◌<◌, ◌+◌, ◌*◌, nat_lt, [], ◌∷◌, ◌++◌, length, OnOk, MatchOption, codes};
ghost use Rattle.c_lexer.specs.declared.token.Kind.TheVariants as kind;
ghost use Rattle.c_parser.specs.Printed.{mark, const_kind, sign_kind, oper_kind, level_of, grouped, printed_expr};
ghost use Rattle.c_parser.specs.PrintWork.{opening, closing, printed_work, work_weight, printed_works, weight, PutsOff};

use crate::words::{
    AND_AND, ARROW, AT_LEAST, AT_MOST, CLOSE, CLOSE_INDEX, DIFFERS, EOF, EQUALS, GREATER, LESS,
    MINUS, NOT, NULL, OPEN, OPEN_INDEX, OR_OR, PERCENT, PLUS, SLASH, STAR,
};
use crate::work::Work;
use crate::written::Written;
use c_lexer::Kind;
use c_tree::tree::{Expr, Word};
use c_tree::{Oper, Sign};
use mf_list::{Memory, Seq};
use std::alloc::Global;

fn const_kind(number: i32) -> Kind
    ensures { result ≡ const_kind number }
{
    match number {
        -1 => Kind::Key(EOF),
        _ => Kind::Number(number),
    }
}

pub fn sign_kind(sign: Sign) -> Kind
    ensures { result ≡ sign_kind sign }
{
    match sign {
        Sign::Minus => Kind::Punct(MINUS),
        Sign::Not => Kind::Punct(NOT),
    }
}

fn oper_kind(oper: Oper) -> Kind
    ensures { result ≡ oper_kind oper }
{
    match oper {
        Oper::Mul => Kind::Punct(STAR),
        Oper::Div => Kind::Punct(SLASH),
        Oper::Rem => Kind::Punct(PERCENT),
        Oper::Add => Kind::Punct(PLUS),
        Oper::Sub => Kind::Punct(MINUS),
        Oper::Lt => Kind::Punct(LESS),
        Oper::Le => Kind::Punct(AT_MOST),
        Oper::Gt => Kind::Punct(GREATER),
        Oper::Ge => Kind::Punct(AT_LEAST),
        Oper::Eq => Kind::Punct(EQUALS),
        Oper::Ne => Kind::Punct(DIFFERS),
        Oper::And => Kind::Punct(AND_AND),
        Oper::Or => Kind::Punct(OR_OR),
    }
}

/// The level of an operator's operands, from 0 for a factor.
fn level_of(oper: Oper) -> usize
    ensures level { result ≡ level_of oper }
    ensures least { result ≤ 5 }
{
    match oper {
        Oper::Mul => 0,
        Oper::Div => 0,
        Oper::Rem => 0,
        Oper::Add => 1,
        Oper::Sub => 1,
        Oper::Lt => 2,
        Oper::Le => 2,
        Oper::Gt => 2,
        Oper::Ge => 2,
        Oper::Eq => 3,
        Oper::Ne => 3,
        Oper::And => 4,
        Oper::Or => 5,
    }
}

/// Puts what is to be printed before all that is left.
#[tactic(auto, using(crate::proofs::PrintWork::printed_last, crate::proofs::PrintWork::weight_last))]
fn put_off<'a>(work: Work<'a>, rest: &mut Seq<Work<'a>>) -> Result<(), Memory>
    ensures printed { OnOk result (printed_works rest.new ≡ printed_work work.entry ++ printed_works rest.old) }
    ensures weight { OnOk result (weight rest.new ≡ work_weight work.entry + weight rest.old) }
{
    rest.push(work)
}

/// Takes what is to be printed next.
#[tactic(auto, using(crate::proofs::PrintWork::printed_last, crate::proofs::PrintWork::weight_last))]
fn take_next<'a>(rest: &mut Seq<Work<'a>>) -> Option<Work<'a>>
    ensures printed { MatchOption result (printed_works rest.old ≡ []) (λ work. printed_works rest.old ≡ printed_work work ++ printed_works rest.new) }
    ensures weight { MatchOption result (rest.new ≡ rest.old) (λ work. weight rest.old ≡ work_weight work + weight rest.new) }
{
    rest.pop()
}

/// Opens a group where one is needed, and puts off what closes it.
fn open<'a>(needed: bool, rest: &mut Seq<Work<'a>>, out: &mut Written) -> Result<(), Memory>
    ensures opens { OnOk result (out.new ≡ out.old ++ opening needed) }
    ensures closes { OnOk result (printed_works rest.new ≡ closing needed ++ printed_works rest.old) }
    ensures weight { OnOk result (weight rest.new ≡ length (closing needed) + weight rest.old) }
{
    if needed {
        out.mark(OPEN)?;
        put_off(Work::Token(Kind::Punct(CLOSE)), rest)?;
    }
    Ok(())
}

/// An operand, and `->` with a name behind it.
fn print_field<'a>(of: &'a Expr, name: &Word, rest: &mut Seq<Work<'a>>) -> Result<(), Memory>
    ensures { OnOk result (PutsOff (printed_expr 0 of.now ++ mark (codes "->") ∷ kind.Name name.now.text ∷ []) [] [] rest.old rest.new) }
{
    put_off(Work::Token(Kind::Name(name.text.share()?)), rest)?;
    put_off(Work::Token(Kind::Punct(ARROW)), rest)?;
    put_off(Work::Whole(of, 0), rest)
}

/// An operand, and an index in brackets behind it.
fn print_index<'a>(of: &'a Expr, index: &'a Expr, rest: &mut Seq<Work<'a>>) -> Result<(), Memory>
    ensures { OnOk result (PutsOff (printed_expr 0 of.now ++ mark (codes "[") ∷ (printed_expr 7 index.now ++ mark (codes "]") ∷ [])) [] [] rest.old rest.new) }
{
    put_off(Work::Token(Kind::Punct(CLOSE_INDEX)), rest)?;
    put_off(Work::Whole(index, 7), rest)?;
    put_off(Work::Token(Kind::Punct(OPEN_INDEX)), rest)?;
    put_off(Work::Whole(of, 0), rest)
}

/// A unary operator, and its operand.
fn print_unary<'a>(
    sign: Kind,
    of: &'a Expr,
    room: usize,
    rest: &mut Seq<Work<'a>>,
    out: &mut Written,
) -> Result<(), Memory>
    ensures { OnOk result (PutsOff (grouped (nat_lt room 1) (sign ∷ printed_expr 1 of.now)) out.old out.new rest.old rest.new) }
{
    open(room < 1, rest, out)?;
    out.push(sign)?;
    put_off(Work::Whole(of, 1), rest)
}

/// Two operands, and their operator between them.
fn print_binary<'a>(
    oper: Oper,
    first: &'a Expr,
    second: &'a Expr,
    room: usize,
    rest: &mut Seq<Work<'a>>,
    out: &mut Written,
) -> Result<(), Memory>
    ensures { OnOk result (PutsOff (grouped (nat_lt room (level_of oper + 2)) (printed_expr (level_of oper + 2) first.now ++ oper_kind oper ∷ printed_expr (level_of oper + 1) second.now)) out.old out.new rest.old rest.new) }
{
    let level = level_of(oper);
    open(room < level + 2, rest, out)?;
    put_off(Work::Whole(second, level + 1), rest)?;
    put_off(Work::Token(oper_kind(oper)), rest)?;
    put_off(Work::Whole(first, level + 2), rest)
}

/// What stands first in an expression, with the others of its parts put off.
fn print_front<'a>(
    expr: &'a Expr,
    room: usize,
    rest: &mut Seq<Work<'a>>,
    out: &mut Written,
) -> Result<(), Memory>
    ensures { OnOk result (PutsOff (printed_expr room expr.now) out.old out.new rest.old rest.new) }
{
    match expr {
        Expr::Const(number, _) => out.push(const_kind(*number)),
        Expr::Null(_) => out.key(NULL),
        Expr::Var(word) => out.name(word),
        Expr::Field(of, name, _) => print_field(of.get(), name, rest),
        Expr::Deref(of, _) => print_unary(Kind::Punct(STAR), of.get(), room, rest, out),
        Expr::Index(of, index, _) => print_index(of.get(), index.get(), rest),
        Expr::Unary(sign, of, _) => print_unary(sign_kind(*sign), of.get(), room, rest, out),
        Expr::Binary(oper, first, second, _) => {
            print_binary(*oper, first.get(), second.get(), room, rest, out)
        }
    }
}

/// What is to be printed next, with all but its first token put off.
fn print_next<'a>(work: Work<'a>, rest: &mut Seq<Work<'a>>, out: &mut Written) -> Result<(), Memory>
    ensures printed { OnOk result (out.new ++ printed_works rest.new ≡ out.old ++ (printed_work work.entry ++ printed_works rest.old)) }
    ensures lighter { OnOk result (weight rest.new < work_weight work.entry + weight rest.old) }
{
    match work {
        Work::Token(kind) => out.push(kind),
        Work::Whole(expr, room) => print_front(expr, room, rest, out),
    }
}

/// An expression in a room: 0 before `->` and `[`, 1 behind a unary operator, and k + 1 as an
/// operand of level k of the operators; 7 where none stands around it.
pub fn print_expr(alloc: Global, expr: &Expr, room: usize, out: &mut Written) -> Result<(), Memory>
    ensures { OnOk result (out.new ≡ out.old ++ printed_expr room expr.now) }
{
    let mut rest = Seq::new(alloc);
    print_front(expr, room, &mut rest, out)?;
    while let Some(work) = take_next(&mut rest) {
        print_next(work, &mut rest, out)?;
    }
    Ok(())
}
