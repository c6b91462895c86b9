// The atomic tests of a condition, which is taken apart at `!`, `&&` and `||` (C99 6.5.3.3, 6.5.13,
// 6.5.14). A recursion here is as deep as operators stand one within the other.
ghost use Rattle.std.specs.Prelude.{◌≡◌, IfOk, option_map, ◌∷◌};
ghost use Rattle.std.specs.Option.{option_copied};
ghost use Rattle.c_tree.specs.declared.expr.Expr.{out-Expr};
ghost use Rattle.c_meaning.specs.Place.{To, atomic, behind_atom as behind_atom_in, behind_operand as behind_operand_in, behind_test as behind_test_in, decided as decided_in, first_test as first_test_of, operand as operand_of, test_at as test_in};
ghost use Rattle.cfg_lower.specs.Meant.{expr_of, onward_of};

use crate::forms::{Departure, Onward, Operand};
use c_meaning::Stack;
use c_tree::{Expr, Oper, Sign};
use mf_list::Memory;
use std::alloc::Global;

/// An operand that is a condition of its own.
fn operand<'a>(k: usize, expr: &'a Expr) -> Option<&'a Expr>
    ensures { option_copied result ≡ operand_of k (out-Expr expr.now) }
{
    match expr {
        Expr::Unary(Sign::Not, of, _) if k == 0 => Some(of.get()),
        Expr::Binary(Oper::And | Oper::Or, left, right, _) => match k {
            0 => Some(left.get()),
            1 => Some(right.get()),
            _ => None,
        },
        _ => None,
    }
}

fn whole<'a>(expr: &'a Expr) -> Option<&'a Expr>
    ensures { option_copied result ≡ atomic expr.now (out-Expr expr.now) }
{
    match expr {
        Expr::Unary(Sign::Not, _, _) => None,
        Expr::Binary(Oper::And | Oper::Or, _, _, _) => None,
        _ => Some(expr),
    }
}

fn test_at<'a>(path: &[usize], expr: &'a Expr) -> Option<&'a Expr>
    ensures { option_copied result ≡ test_in path.now expr.now }
{
    match path {
        [] => whole(expr),
        [k, rest @ ..] => test_at(rest, operand(*k, expr)?),
    }
}

/// The atomic test at the end of a way down a condition.
pub fn test_of<'a>(path: &[usize], condition: Operand<'a>) -> Option<Operand<'a>>
    ensures { option_map expr_of result ≡ test_in path.now (expr_of condition.entry) }
{
    match condition {
        Operand::Written(expr) => match test_at(path, expr) {
            Some(test) => Some(Operand::Written(test)),
            None => None,
        },
        Operand::Variable(_, _) | Operand::One => match path {
            [] => Some(condition),
            [_, ..] => None,
        },
    }
}

fn first_test(alloc: Global, expr: &Expr) -> Result<Stack<usize>, Memory>
    ensures { IfOk result (λ path. path ≡ first_test_of expr.now) }
{
    match expr {
        Expr::Unary(Sign::Not, first, _) | Expr::Binary(Oper::And | Oper::Or, first, _, _) => {
            let mut path = first_test(alloc, first.get())?;
            path.push(0)?;
            Ok(path)
        }
        _ => Ok(Stack::new(alloc)),
    }
}

/// The way down to the first atomic test of a condition.
pub fn first_of(alloc: Global, condition: Operand) -> Result<Stack<usize>, Memory>
    ensures { IfOk result (λ path. path ≡ first_test_of (expr_of condition.entry)) }
{
    match condition {
        Operand::Written(expr) => first_test(alloc, expr),
        Operand::Variable(_, _) | Operand::One => Ok(Stack::new(alloc)),
    }
}

fn to_right(alloc: Global, right: &Expr) -> Result<Onward, Memory>
    ensures { IfOk result (λ onward. onward_of onward ≡ To (1 ∷ first_test_of right.now)) }
{
    let mut path = first_test(alloc, right)?;
    path.push(1)?;
    Ok(Onward::To(path))
}

fn decided(alloc: Global, k: usize, expr: &Expr, said: bool) -> Result<Onward, Memory>
    ensures { IfOk result (λ onward. onward_of onward ≡ decided_in k (out-Expr expr.now) said) }
{
    match expr {
        Expr::Unary(Sign::Not, _, _) => Ok(Onward::By(Departure::Found(!said))),
        Expr::Binary(Oper::And, _, right, _) if k == 0 && said => to_right(alloc, right.get()),
        Expr::Binary(Oper::Or, _, right, _) if k == 0 && !said => to_right(alloc, right.get()),
        Expr::Binary(Oper::And | Oper::Or, _, _, _) => Ok(Onward::By(Departure::Found(said))),
        _ => Ok(Onward::By(Departure::Lost)),
    }
}

fn behind_operand(alloc: Global, k: usize, expr: &Expr, inner: Onward) -> Result<Onward, Memory>
    ensures { IfOk result (λ onward. onward_of onward ≡ behind_operand_in k (out-Expr expr.now) (onward_of inner)) }
{
    match inner {
        Onward::To(mut path) => {
            path.push(k)?;
            Ok(Onward::To(path))
        }
        Onward::By(Departure::Found(said)) => decided(alloc, k, expr, said),
        Onward::By(by) => Ok(Onward::By(by)),
    }
}

fn behind_test(alloc: Global, path: &[usize], said: bool, expr: &Expr) -> Result<Onward, Memory>
    ensures { IfOk result (λ onward. onward_of onward ≡ behind_test_in path.now said expr.now) }
{
    match path {
        [] => Ok(Onward::By(Departure::Found(said))),
        [k, rest @ ..] => {
            let inner = match operand(*k, expr) {
                Some(operand) => behind_test(alloc, rest, said, operand)?,
                None => Onward::By(Departure::Lost),
            };
            behind_operand(alloc, *k, expr, inner)
        }
    }
}

/// Behind the test at a way down a condition, by what it says.
pub fn behind_atom(
    alloc: Global,
    path: &[usize],
    said: Option<bool>,
    condition: Operand,
) -> Result<Onward, Memory>
    ensures { IfOk result (λ onward. onward_of onward ≡ behind_atom_in path.now said (expr_of condition.entry)) }
{
    let Some(said) = said else {
        return Ok(Onward::By(Departure::Lost));
    };
    match condition {
        Operand::Written(expr) => behind_test(alloc, path, said, expr),
        Operand::Variable(_, _) | Operand::One => match path {
            [] => Ok(Onward::By(Departure::Found(said))),
            [_, ..] => Ok(Onward::By(Departure::Lost)),
        },
    }
}
