// Actions of nodes, which own copies of what they name.
ghost use Rattle.std.specs.Prelude.{◌≡◌, IfOk, option_map};
ghost use Rattle.c_graph.specs.Actions.{action_of as action_meant};
ghost use Rattle.cfg_lower.specs.Meant.{deed_of, expr_of, instruction_of};

use crate::forms::{Deed, Instruction, Operand};
use c_graph::Action;
use c_tree::{Duplicate, Expr, Op, Right, Simple};
use mf_list::{Memory, Seq};
use std::alloc::Global;

fn expr_from(alloc: Global, operand: Operand) -> Result<Expr, Memory>
    ensures { IfOk result (λ e. e ≡ expr_of operand.entry) }
{
    match operand {
        Operand::Written(expr) => expr.duplicate(alloc),
        Operand::Variable(var, at) => Ok(Expr::Var(var, at)),
        Operand::One => Ok(Expr::Const(1, 0)),
    }
}

fn place_from(alloc: Global, place: Option<Operand>) -> Result<Option<Expr>, Memory>
    ensures { IfOk result (λ e. e ≡ option_map expr_of place.entry) }
{
    match place {
        None => Ok(None),
        Some(place) => Ok(Some(expr_from(alloc, place)?)),
    }
}

fn exprs_from(alloc: Global, exprs: &[Expr]) -> Result<Seq<Expr>, Memory>
    ensures { IfOk result (λ copy. copy ≡ exprs.now) }
{
    let mut copy = Seq::new(alloc);
    for expr in exprs {
        copy.push(expr.duplicate(alloc)?)?;
    }
    Ok(copy)
}

fn simple_from(
    alloc: Global,
    place: Operand,
    op: Op,
    value: &Expr,
    at: usize,
) -> Result<Simple, Memory>
    ensures { IfOk result (λ s. s ≡ record { place = expr_of place.entry; op = op; right = Right.Plain value.now; at = at }) }
{
    Ok(Simple {
        place: expr_from(alloc, place)?,
        op,
        right: Right::Plain(value.duplicate(alloc)?),
        at,
    })
}

fn action_of_deed(alloc: Global, deed: Deed) -> Result<Action, Memory>
    ensures { IfOk result (λ a. a ≡ action_meant (deed_of deed.entry)) }
{
    match deed {
        Deed::Unset(var) => Ok(Action::Unset(var)),
        Deed::Assign(place, op, value, at) => Ok(Action::Assign(simple_from(
            alloc, place, op, value, at,
        )?)),
        Deed::Malloc(place, size, at) => {
            let place = place_from(alloc, place)?;
            Ok(Action::Malloc(place, size.duplicate(alloc)?, at))
        }
        Deed::Getchar(place) => Ok(Action::Getchar(place_from(alloc, place)?)),
        Deed::Putchar(value) => Ok(Action::Putchar(value.duplicate(alloc)?)),
        Deed::Printf(text, arguments) => {
            let text = Seq::from_slice(alloc, text)?;
            Ok(Action::Printf(text, exprs_from(alloc, arguments)?))
        }
    }
}

/// An instruction as the action of a node.
pub fn action_from(alloc: Global, instruction: Instruction) -> Result<Action, Memory>
    ensures { IfOk result (λ a. a ≡ action_meant (instruction_of instruction.entry)) }
{
    match instruction {
        Instruction::Plain(deed) => action_of_deed(alloc, deed),
        Instruction::Test(test) => Ok(Action::Test(expr_from(alloc, test)?)),
        Instruction::Invoke(_, callee, arguments, _) => Ok(Action::Call(
            callee,
            exprs_from(alloc, arguments)?,
        )),
        Instruction::Return(value, _) => Ok(Action::Return(place_from(alloc, value)?)),
        Instruction::Close(_, _) => Ok(Action::Close),
    }
}
