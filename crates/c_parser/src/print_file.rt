// External declarations as tokens (C99 6.9).
ghost use Rattle.std.specs.Prelude.{◌≡◌, ◌∷◌, ◌++◌, OnOk, codes};
ghost use Rattle.c_tree.specs.declared.tree.Expr.{out-Expr};
ghost use Rattle.c_parser.specs.Printed.{each, maybe, ended, behind_sign, printed_body, printed_const, printed_field, printed_global, printed_globals, printed_head, printed_params, printed_struct, printed_top, printed_value};

use crate::parts::{Part, print_ended, print_maybe, print_more};
use crate::print_blocks::print_block;
use crate::print_expressions::{print_expr, sign_kind};
use crate::print_statements::print_starred;
use crate::words::{CLOSE, CLOSE_BRACE, OPEN, OPEN_BRACE, PUT, SEMICOLON, STRUCT, TYPEDEF};
use crate::written::Written;
use c_lexer::Kind;
use c_tree::tree::{Body, Expr, GlobalDecl, Head, Spec, Top, Word};
use mf_list::Memory;
use std::alloc::Global;

/// Each field as a declaration of its own.
fn print_fields(alloc: Global, fields: &[Spec], out: &mut Written) -> Result<(), Memory>
    ensures { OnOk result (out.new ≡ out.old ++ each printed_field fields.now) }
{
    for field in fields {
        print_ended(alloc, field, out)?;
    }
    Ok(())
}

impl Part for Body {
    ghost printed = { printed_body };

    fn print(&self, alloc: Global, out: &mut Written) -> Result<(), Memory> {
        out.mark(OPEN_BRACE)?;
        print_fields(alloc, self.fields.as_slice(), out)?;
        out.mark(CLOSE_BRACE)
    }
}

/// What stands behind the sign of a constant: the number as it is.
fn print_behind_sign(alloc: Global, expr: &Expr, out: &mut Written) -> Result<(), Memory>
    ensures { OnOk result (out.new ≡ out.old ++ behind_sign expr.now (out-Expr expr.now)) }
{
    match expr {
        Expr::Const(number, _) => out.push(Kind::Number(*number)),
        _ => print_expr(alloc, expr, 1, out),
    }
}

fn print_const(alloc: Global, expr: &Expr, out: &mut Written) -> Result<(), Memory>
    ensures { OnOk result (out.new ≡ out.old ++ printed_const expr.now (out-Expr expr.now)) }
{
    match expr {
        Expr::Unary(sign, of, _) => {
            out.push(sign_kind(*sign))?;
            print_behind_sign(alloc, of.get(), out)
        }
        _ => print_expr(alloc, expr, 1, out),
    }
}

/// A constant behind its `=`, where there is one.
fn print_value(alloc: Global, value: &Option<Expr>, out: &mut Written) -> Result<(), Memory>
    ensures { OnOk result (out.new ≡ out.old ++ maybe printed_value value.now) }
{
    match value {
        None => Ok(()),
        Some(value) => {
            out.mark(PUT)?;
            print_const(alloc, value, out)
        }
    }
}

impl Part for GlobalDecl {
    ghost printed = { printed_global };

    fn print(&self, alloc: Global, out: &mut Written) -> Result<(), Memory> {
        print_starred(alloc, &self.spec, out)?;
        print_value(alloc, &self.value, out)
    }
}

/// Declarators of the file behind their one base.
fn print_globals(alloc: Global, globals: &[GlobalDecl], out: &mut Written) -> Result<(), Memory>
    ensures { OnOk result (out.new ≡ out.old ++ printed_globals globals.now) }
{
    match globals {
        [] => Ok(()),
        [first, more @ ..] => {
            first.spec.base.print(alloc, out)?;
            first.print(alloc, out)?;
            print_more(alloc, more, out)
        }
    }
}

fn print_params(alloc: Global, params: &[Spec], out: &mut Written) -> Result<(), Memory>
    ensures { OnOk result (out.new ≡ out.old ++ printed_params params.now) }
{
    match params {
        [] => Ok(()),
        [first, more @ ..] => {
            first.print(alloc, out)?;
            print_more(alloc, more, out)
        }
    }
}

impl Part for Head {
    ghost printed = { printed_head };

    fn print(&self, alloc: Global, out: &mut Written) -> Result<(), Memory> {
        self.result.print(alloc, out)?;
        out.mark(OPEN)?;
        print_params(alloc, self.params.as_slice(), out)?;
        out.mark(CLOSE)
    }
}

fn print_struct(
    alloc: Global,
    tag: &Option<Word>,
    body: &Option<Body>,
    out: &mut Written,
) -> Result<(), Memory>
    ensures { OnOk result (out.new ≡ out.old ++ printed_struct tag.now body.now) }
{
    out.key(STRUCT)?;
    print_maybe(alloc, tag, out)?;
    print_maybe(alloc, body, out)
}

impl Part for Top {
    ghost printed = { printed_top };

    fn print(&self, alloc: Global, out: &mut Written) -> Result<(), Memory> {
        match self {
            Top::Struct(tag, body, None) => {
                print_struct(alloc, tag, body, out)?;
                out.mark(SEMICOLON)
            }
            Top::Struct(tag, body, Some(alias)) => {
                out.key(TYPEDEF)?;
                print_struct(alloc, tag, body, out)?;
                out.name(alias)?;
                out.mark(SEMICOLON)
            }
            Top::Globals(globals) => {
                print_globals(alloc, globals.as_slice(), out)?;
                out.mark(SEMICOLON)
            }
            Top::Proto(head) => print_ended(alloc, head, out),
            Top::Fun(head, body) => {
                head.print(alloc, out)?;
                print_block(alloc, body, out)
            }
        }
    }
}
