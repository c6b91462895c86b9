// Types, calls, assignments and declarations in functions as tokens (C99 6.5.2.2, 6.5.3.4, 6.5.16, 6.7).
ghost use Rattle.std.specs.Prelude.{◌≡◌, ◌∷◌, ◌++◌, OnOk, codes};
ghost use Rattle.c_lexer.specs.declared.token.Kind.TheVariants as kind;
ghost use Rattle.c_tree.specs.declared.tree.Expr.{out-Expr};
ghost use Rattle.c_parser.specs.Printed.{key, each, maybe, within, behind_comma, printed_word, printed_base, printed_stars, printed_starred, printed_spec, printed_unit, printed_count, printed_size, printed_arg, printed_args, printed_cast, printed_call, printed_right, op_kind, is_one, by_one, step_kind, place_room, printed_by, printed_simple, printed_given, printed_declr, printed_decl, next_start, printed_starts, printed_expr};

use crate::parts::{Part, print_maybe, print_more};
use crate::print_expressions::print_expr;
use crate::words::{
    CLOSE, COMMA, GETCHAR, INT, MALLOC, MINUS_MINUS, MINUS_PUT, OPEN, PLUS_PLUS, PLUS_PUT, PRINTF,
    PUT, PUTCHAR, SIZEOF, STAR, STAR_PUT, STRUCT, VOID,
};
use crate::written::Written;
use c_lexer::Kind;
use c_tree::Op;
use c_tree::tree::{Arg, Base, Call, Declr, Expr, Right, Simple, Size, Spec, Start, Unit, Word};
use mf_bytes::SharedBytes;
use mf_list::{Memory, Seq};
use sqlite_items::Boxed;
use std::alloc::Global;

impl Part for Expr {
    ghost printed = { printed_expr 7 };

    fn print(&self, alloc: Global, out: &mut Written) -> Result<(), Memory> {
        print_expr(alloc, self, 7, out)
    }
}

impl Part for Arg {
    ghost printed = { printed_arg };

    fn print(&self, alloc: Global, out: &mut Written) -> Result<(), Memory> {
        self.expr.print(alloc, out)
    }
}

impl Part for Word {
    ghost printed = { printed_word };

    fn print(&self, _alloc: Global, out: &mut Written) -> Result<(), Memory> {
        out.name(self)
    }
}

impl Part for Base {
    ghost printed = { printed_base };

    fn print(&self, _alloc: Global, out: &mut Written) -> Result<(), Memory> {
        match self {
            Base::Void => out.key(VOID),
            Base::Int => out.key(INT),
            Base::Tag(word) => {
                out.key(STRUCT)?;
                out.name(word)
            }
            Base::Alias(word) => out.name(word),
        }
    }
}

fn print_stars(stars: usize, out: &mut Written) -> Result<(), Memory>
    ensures { OnOk result (out.new ≡ out.old ++ printed_stars stars) }
{
    for _star in 0..stars {
        out.mark(STAR)?;
    }
    Ok(())
}

/// The stars and the name of what has this type.
pub fn print_starred(alloc: Global, spec: &Spec, out: &mut Written) -> Result<(), Memory>
    ensures { OnOk result (out.new ≡ out.old ++ printed_starred spec.now) }
{
    print_stars(spec.stars, out)?;
    print_maybe(alloc, &spec.name, out)
}

impl Part for Spec {
    ghost printed = { printed_spec };

    fn print(&self, alloc: Global, out: &mut Written) -> Result<(), Memory> {
        self.base.print(alloc, out)?;
        print_starred(alloc, self, out)
    }
}

/// A type in parentheses.
fn print_cast(alloc: Global, spec: &Spec, out: &mut Written) -> Result<(), Memory>
    ensures { OnOk result (out.new ≡ out.old ++ printed_cast spec.now) }
{
    out.mark(OPEN)?;
    spec.print(alloc, out)?;
    out.mark(CLOSE)
}

impl Part for Unit {
    ghost printed = { printed_unit };

    fn print(&self, alloc: Global, out: &mut Written) -> Result<(), Memory> {
        out.key(SIZEOF)?;
        match self {
            Unit::Of(spec) => print_cast(alloc, spec, out),
            Unit::Star(word) => {
                out.mark(STAR)?;
                out.name(word)
            }
        }
    }
}

/// How many of a unit there are, where that is written.
fn print_count(alloc: Global, count: &Option<Boxed<Expr>>, out: &mut Written) -> Result<(), Memory>
    ensures { OnOk result (out.new ≡ out.old ++ maybe printed_count count.now) }
{
    match count {
        None => Ok(()),
        Some(count) => {
            print_expr(alloc, count.get(), 2, out)?;
            out.mark(STAR)
        }
    }
}

impl Part for Size {
    ghost printed = { printed_size };

    fn print(&self, alloc: Global, out: &mut Written) -> Result<(), Memory> {
        print_count(alloc, &self.count, out)?;
        self.unit.print(alloc, out)
    }
}

fn print_args(alloc: Global, arguments: &[Arg], out: &mut Written) -> Result<(), Memory>
    ensures { OnOk result (out.new ≡ out.old ++ printed_args arguments.now) }
{
    match arguments {
        [] => Ok(()),
        [first, more @ ..] => {
            first.print(alloc, out)?;
            print_more(alloc, more, out)
        }
    }
}

fn print_user(
    alloc: Global,
    callee: &Word,
    arguments: &[Arg],
    out: &mut Written,
) -> Result<(), Memory>
    ensures { OnOk result (out.new ≡ out.old ++ kind.Name callee.now.text ∷ within (printed_args arguments.now)) }
{
    out.name(callee)?;
    out.mark(OPEN)?;
    print_args(alloc, arguments, out)?;
    out.mark(CLOSE)
}

fn print_request(
    alloc: Global,
    cast: &Option<Spec>,
    size: &Size,
    out: &mut Written,
) -> Result<(), Memory>
    ensures { OnOk result (out.new ≡ out.old ++ (maybe printed_cast cast.now ++ key (codes "malloc") ∷ within (printed_size size.now))) }
{
    if let Some(spec) = cast {
        print_cast(alloc, spec, out)?;
    }
    out.key(MALLOC)?;
    out.mark(OPEN)?;
    size.print(alloc, out)?;
    out.mark(CLOSE)
}

fn print_putchar(alloc: Global, argument: &Arg, out: &mut Written) -> Result<(), Memory>
    ensures { OnOk result (out.new ≡ out.old ++ key (codes "putchar") ∷ within (printed_arg argument.now)) }
{
    out.key(PUTCHAR)?;
    out.mark(OPEN)?;
    argument.print(alloc, out)?;
    out.mark(CLOSE)
}

fn print_printf(
    alloc: Global,
    text: &SharedBytes,
    arguments: &[Arg],
    out: &mut Written,
) -> Result<(), Memory>
    ensures { OnOk result (out.new ≡ out.old ++ key (codes "printf") ∷ within (kind.Text text.now ∷ each behind_comma arguments.now)) }
{
    out.key(PRINTF)?;
    out.mark(OPEN)?;
    out.push(Kind::Text(text.share()?))?;
    print_more(alloc, arguments, out)?;
    out.mark(CLOSE)
}

impl Part for Call {
    ghost printed = { printed_call };

    fn print(&self, alloc: Global, out: &mut Written) -> Result<(), Memory> {
        match self {
            Call::User(callee, arguments, _) => {
                print_user(alloc, callee, arguments.as_slice(), out)
            }
            Call::Malloc(cast, size, _) => print_request(alloc, cast, size, out),
            Call::Getchar(_) => {
                out.key(GETCHAR)?;
                out.mark(OPEN)?;
                out.mark(CLOSE)
            }
            Call::Putchar(argument, _) => print_putchar(alloc, argument, out),
            Call::Printf(text, _, arguments, _, _) => {
                print_printf(alloc, text, arguments.as_slice(), out)
            }
        }
    }
}

impl Part for Right {
    ghost printed = { printed_right };

    fn print(&self, alloc: Global, out: &mut Written) -> Result<(), Memory> {
        match self {
            Right::Plain(value) => value.print(alloc, out),
            Right::Call(call) => call.print(alloc, out),
        }
    }
}

fn op_kind(op: Op) -> Kind
    ensures { result ≡ op_kind op }
{
    match op {
        Op::Put => Kind::Punct(PUT),
        Op::Add => Kind::Punct(PLUS_PUT),
        Op::Sub => Kind::Punct(MINUS_PUT),
        Op::Mul => Kind::Punct(STAR_PUT),
    }
}

fn is_one(expr: &Expr) -> bool
    ensures { result ≡ is_one (out-Expr expr.now) }
{
    match expr {
        Expr::Const(number, _) => *number == 1,
        _ => false,
    }
}

fn by_one(right: &Right) -> bool
    ensures { result ≡ by_one right.now }
{
    match right {
        Right::Plain(value) => is_one(&value.expr),
        Right::Call(_) => false,
    }
}

/// The sign of a step, where the assignment is one.
fn step_kind(op: Op, by_one: bool) -> Option<Kind>
    ensures { result ≡ step_kind op by_one }
{
    match (op, by_one) {
        (Op::Add, true) => Some(Kind::Punct(PLUS_PLUS)),
        (Op::Sub, true) => Some(Kind::Punct(MINUS_MINUS)),
        _ => None,
    }
}

/// The room of a place that an operator stands behind.
fn place_room(expr: &Expr) -> usize
    ensures { result ≡ place_room (out-Expr expr.now) }
{
    match expr {
        Expr::Deref(_, _) => 1,
        _ => 0,
    }
}

impl Part for Simple {
    ghost printed = { printed_simple };

    fn print(&self, alloc: Global, out: &mut Written) -> Result<(), Memory> {
        let place = &self.place.expr;
        match step_kind(self.op, by_one(&self.right)) {
            Some(step) => {
                out.push(step)?;
                print_expr(alloc, place, 1, out)
            }
            None => {
                print_expr(alloc, place, place_room(place), out)?;
                out.push(op_kind(self.op))?;
                self.right.print(alloc, out)
            }
        }
    }
}

/// A right side behind its `=`, where there is one.
fn print_given(alloc: Global, right: &Option<Right>, out: &mut Written) -> Result<(), Memory>
    ensures { OnOk result (out.new ≡ out.old ++ maybe printed_given right.now) }
{
    match right {
        None => Ok(()),
        Some(right) => {
            out.mark(PUT)?;
            right.print(alloc, out)
        }
    }
}

impl Part for Declr {
    ghost printed = { printed_declr };

    fn print(&self, alloc: Global, out: &mut Written) -> Result<(), Memory> {
        print_starred(alloc, &self.spec, out)?;
        print_given(alloc, &self.right, out)
    }
}

/// Declarators behind their one base.
impl Part for Seq<Declr> {
    ghost printed = { printed_decl };

    fn print(&self, alloc: Global, out: &mut Written) -> Result<(), Memory> {
        match self.as_slice() {
            [] => Ok(()),
            [first, more @ ..] => {
                first.spec.base.print(alloc, out)?;
                first.print(alloc, out)?;
                print_more(alloc, more, out)
            }
        }
    }
}

/// A further declarator or assignment at the start of a `for`.
fn print_next_start(alloc: Global, start: &Start, out: &mut Written) -> Result<(), Memory>
    ensures { OnOk result (out.new ≡ out.old ++ next_start start.now) }
{
    match start {
        Start::Declare(declr) => {
            out.mark(COMMA)?;
            declr.print(alloc, out)
        }
        Start::Assign(simple) => simple.print(alloc, out),
    }
}

fn print_next_starts(alloc: Global, more: &[Start], out: &mut Written) -> Result<(), Memory>
    ensures { OnOk result (out.new ≡ out.old ++ each next_start more.now) }
{
    for start in more {
        print_next_start(alloc, start, out)?;
    }
    Ok(())
}

/// What stands first in a `for`.
pub fn print_starts(alloc: Global, starts: &[Start], out: &mut Written) -> Result<(), Memory>
    ensures { OnOk result (out.new ≡ out.old ++ printed_starts starts.now) }
{
    match starts {
        [] => Ok(()),
        [Start::Declare(first), more @ ..] => {
            first.spec.base.print(alloc, out)?;
            first.print(alloc, out)?;
            print_next_starts(alloc, more, out)
        }
        [Start::Assign(first), more @ ..] => {
            first.print(alloc, out)?;
            print_next_starts(alloc, more, out)
        }
    }
}
