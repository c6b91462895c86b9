// Frames: where control stands, and how it enters and leaves functions. Where memory is wanting,
// nothing was done.
ghost use Rattle.std.specs.Prelude.{◌≡◌, List, ℕ, ◌∷◌, IfOk, OnOk, OnErr, replicate};
ghost use Rattle.c_tree.specs.declared.program.Program.{Program as Source};
ghost use Rattle.c_meaning.specs.Machine.{store_of};
ghost use Rattle.c_meaning.specs.Effects.{back as back_to, bound, cleared, ended, is_home_in, parameters_of, received};
ghost use Rattle.c_meaning.specs.Step.{acts, gone_back, onward, seen};
ghost use Rattle.c_replay.specs.Changes.{moved, on_store};

use crate::places::next_in_fun;
use crate::store::write_slot;
use c_meaning::{Ending, Frame, Machine, Stack, Value};
use c_tree::{Home, Program, VarDef};
use mf_list::{Memory, Seq};
use std::alloc::Global;

/// Puts control of the innermost call at another place.
pub fn move_to(rest: &mut Stack<Frame>, path: Seq<usize>)
    ensures { rest.new ≡ moved path rest.old }
{
    let (fun, target) = match rest.top() {
        Some(frame) => (frame.fun, frame.target),
        None => return,
    };
    rest.set_top(Frame { fun, path, target });
}

/// What follows a path in the innermost call's function.
pub fn path_onward(
    alloc: Global,
    program: &Program,
    rest: &Stack<Frame>,
    said: Option<bool>,
    path: &[usize],
) -> Result<Seq<usize>, Memory>
    ensures { IfOk result (λ next. moved next rest.now ≡ onward program.now said (moved path.now rest.now)) }
{
    match rest.top() {
        Some(frame) => next_in_fun(alloc, program, frame.fun, said, path),
        None => Ok(Seq::new(alloc)),
    }
}

/// Puts a frame in front, and control of the one behind it at another place.
pub fn enter(
    alloc: Global,
    rest: &mut Stack<Frame>,
    path: Seq<usize>,
    frame: Frame,
) -> Result<(), Memory>
    ensures ok { OnOk result (rest.new ≡ frame ∷ moved path rest.old) }
    ensures err { OnErr result (rest.new ≡ rest.old) }
{
    let before = match rest.top() {
        Some(caller) => Seq::from_slice(alloc, caller.path.as_slice())?,
        None => Seq::new(alloc),
    };
    move_to(rest, path);
    match rest.push(frame) {
        Ok(()) => Ok(()),
        Err(error) => {
            move_to(rest, before);
            Err(error)
        }
    }
}

/// The parameters get the arguments' values, in order.
pub fn bind(machine: &mut Machine, params: &[usize], values: &[Value])
    ensures { machine.new ≡ on_store (bound params.now values.now) machine.old }
{
    let mut left = values;
    for param in params {
        match left {
            [] => return,
            [value, others @ ..] => {
                write_slot(&mut machine.slots, *param, *value);
                left = others;
            }
        }
    }
}

// returns

fn is_local(fun: usize, home: Home) -> bool
    ensures { result ≡ is_home_in fun home }
{
    match home {
        Home::Global(_) => false,
        Home::Param(of) | Home::Local(of) | Home::Result(of) => of == fun,
    }
}

/// The lifetime of a function's variables ends.
fn clear(fun: usize, vars: &[VarDef], slots: &mut Seq<Value>)
    ensures { slots.new ≡ cleared fun vars.now slots.old }
{
    for var in 0..vars.len() {
        if is_local(fun, vars[var].home) {
            write_slot(slots, var, Value::Undef);
        }
    }
}

fn receive(machine: &mut Machine, target: Option<usize>, value: Option<Value>)
    ensures { machine.new ≡ on_store (received target value) machine.old }
{
    if let (Some(var), Some(value)) = (target, value) {
        write_slot(&mut machine.slots, var, value);
    }
}

fn back(
    program: &Program,
    machine: &mut Machine,
    fun: usize,
    target: Option<usize>,
    value: Option<Value>,
)
    ensures { machine.new ≡ on_store (back_to program.now fun target value) machine.old }
{
    receive(machine, target, value);
    clear(fun, program.vars.as_slice(), &mut machine.slots);
}

fn end(machine: &mut Machine, value: Option<Value>)
    ensures { machine.new ≡ on_store (ended value) machine.old }
{
    match value {
        None => machine.ending = Ending::Returned(0),
        Some(Value::Int(number)) => machine.ending = Ending::Returned(number),
        Some(Value::Undef) | Some(Value::Null) | Some(Value::Ptr(_)) => {}
    }
}

/// A return: of main it ends the run, others go on in the caller.
pub fn go_back(program: &Program, machine: &mut Machine, value: Option<Value>)
    ensures { (path : List ℕ) → machine.new ≡ seen (gone_back (acts program.now) (moved path machine.old.rest) value (store_of machine.old)) }
{
    let Some(frame) = machine.rest.pop() else {
        return;
    };
    if machine.rest.top().is_none() {
        end(machine, value);
    } else {
        back(program, machine, frame.fun, frame.target, value);
    }
}
