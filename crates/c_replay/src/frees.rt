// The frees of gaps (C99 7.20.3.2). Each object that is freed is noted, so that a step for which
// memory is wanting can take its frees back.
ghost use Rattle.std.specs.Prelude.{◌≡◌, OnOk, OnErr};
ghost use Rattle.c_tree.specs.declared.expr.Expr.{out-Expr};
ghost use Rattle.c_meaning.specs.Machine.{store_of};
ghost use Rattle.c_meaning.specs.Effects.{all_freed, freed, freed_layer, freed_once, freed_value};
ghost use Rattle.c_meaning.specs.Eval.{is_freed};
ghost use Rattle.c_meaning.specs.declared.machine.Ending.{Ending as Outcome};
ghost use Rattle.c_replay.specs.Changes.{on_store, taken_back};

use crate::expressions::{content, eval, offset, place_of, was_freed};
use crate::store::{is_over, mark_freed, stop};
use c_meaning::{Kind, Machine, Stack, Stop, Value};
use c_tree::{Expr, Free};
use mf_list::Memory;

/// What `free` is given: of a place its content, whatever the state of the object that this points to.
fn given(machine: &Machine, expr: &Expr) -> Result<Value, Stop>
    ensures { result ≡ freed_layer (store_of machine.now) expr.now (out-Expr expr.now) }
{
    match expr {
        Expr::Var(_, _) | Expr::Field(_, _, _) | Expr::Deref(_, _) | Expr::Index(_, _, _) => {
            Ok(content(machine, place_of(machine, expr)?))
        }
        Expr::Const(_, _) | Expr::Null(_) | Expr::Unary(_, _, _) | Expr::Binary(_, _, _, _) => {
            eval(machine, expr)
        }
    }
}

#[tactic(auto, using(crate::proofs::Altered::undone))]
fn free_object(
    machine: &mut Machine,
    noted: &mut Stack<usize>,
    word: usize,
    object: usize,
) -> Result<(), Memory>
    ensures ok { OnOk result (machine.new ≡ on_store (freed_once word object (is_freed machine.old.objects object)) machine.old) }
    ensures alone { (e : Outcome) → taken_back noted.new e machine.new ≡ taken_back noted.old e machine.old }
    ensures err { OnErr result (machine.new ≡ machine.old) }
{
    if was_freed(&machine.objects, object) {
        stop(machine, Stop::Faulted(Kind::DoubleFree, word), true);
    } else {
        noted.push(object)?;
        mark_freed(&mut machine.objects, object);
    }
    Ok(())
}

fn free_value(
    machine: &mut Machine,
    noted: &mut Stack<usize>,
    word: usize,
    at: usize,
    value: Value,
) -> Result<(), Memory>
    ensures ok { OnOk result (machine.new ≡ on_store (freed_value word at value) machine.old) }
    ensures alone { (e : Outcome) → taken_back noted.new e machine.new ≡ taken_back noted.old e machine.old }
    ensures err { OnErr result (machine.new ≡ machine.old) }
{
    match value {
        Value::Undef => {
            stop(machine, Stop::Faulted(Kind::Uninit, at), true);
            Ok(())
        }
        Value::Int(_) | Value::Null => Ok(()),
        Value::Ptr(object) => free_object(machine, noted, word, object),
    }
}

/// `free(e);`
fn free(machine: &mut Machine, noted: &mut Stack<usize>, free: &Free) -> Result<(), Memory>
    ensures ok { OnOk result (machine.new ≡ on_store (freed free.now) machine.old) }
    ensures alone { (e : Outcome) → taken_back noted.new e machine.new ≡ taken_back noted.old e machine.old }
    ensures err { OnErr result (machine.new ≡ machine.old) }
{
    match given(machine, &free.expr) {
        Ok(value) => free_value(machine, noted, free.start, offset(&free.expr), value),
        Err(fault) => {
            stop(machine, fault, true);
            Ok(())
        }
    }
}

/// The frees of a gap, in order, up to the first fault.
pub fn free_all(
    machine: &mut Machine,
    noted: &mut Stack<usize>,
    frees: &[Free],
) -> Result<(), Memory>
    ensures ok { OnOk result (machine.new ≡ on_store (all_freed frees.now) machine.old) }
    ensures alone { (e : Outcome) → taken_back noted.new e machine.new ≡ taken_back noted.old e machine.old }
{
    for one in frees {
        free(machine, noted, one)?;
        if is_over(machine.ending) {
            return Ok(());
        }
    }
    Ok(())
}
