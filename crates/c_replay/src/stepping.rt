// One step: the frees of all gaps before the next action, in order, and then that action.
ghost use Rattle.std.specs.Prelude.{◌≡◌, ◌+◌, ◌<◌, ◌^◌, ℕ, false, option_map, is_none, IfOk, IfSome, OnOk, OnErr};
ghost use Rattle.c_meaning.specs.declared.machine.Ending.{Ending as Outcome};
ghost use Rattle.c_meaning.specs.Machine.{store_of, machine_of, stopped};
ghost use Rattle.c_meaning.specs.Effects.{all_freed, is_over as is_ended, parameters_of, value_of};
ghost use Rattle.c_meaning.specs.Parts.{Close as Closes, Invoke as Invokes, Return as Gives, Test as Tests};
ghost use Rattle.c_meaning.specs.Step.{acts, here, onward, seen, state_of, step as step_of, walked};
ghost use Rattle.c_replay.specs.Changes.{moved, on_store, taken_back};
ghost use Rattle.c_replay.specs.Meant.{deed_of, expr_of, instruction_of, spot_of as spot_meant};
ghost use Rattle.c_replay.specs.Steps.{acted, says_in};

use crate::calls::{bind, enter, go_back, move_to, path_onward};
use crate::deeds::{eval_operand, perform};
use crate::expressions::eval_all;
use crate::forms::{Deed, Instruction, Operand, Spot};
use crate::frees::free_all;
use crate::numbers::holds;
use crate::places::spot_in_fun;
use crate::store::{is_over, revive, stop};
use c_meaning::{Ending, Frame, Machine, Stack, Stop, Value};
use c_tree::{Expr, Free, Program};
use mf_list::{Memory, Seq};
use std::alloc::Global;

/// Control stays at a path: a fault, or what the types exclude.
fn stay(machine: &mut Machine, path: Seq<usize>, why: Stop)
    ensures { machine.new ≡ machine_of (moved path machine.old.rest) (stopped why false (store_of machine.old)) }
{
    move_to(&mut machine.rest, path);
    stop(machine, why, false);
}

fn act_deed(
    alloc: Global,
    program: &Program,
    machine: &mut Machine,
    path: Seq<usize>,
    deed: Deed,
) -> Result<(), Memory>
    ensures ok { OnOk result (machine.new ≡ acted program.now path (deed_of deed.entry) machine.old) }
    ensures err { OnErr result (machine.new ≡ machine.old) }
{
    let next = path_onward(alloc, program, &machine.rest, None, path.as_slice())?;
    match perform(alloc, program, machine, deed)? {
        Ok(()) => move_to(&mut machine.rest, next),
        Err(why) => stay(machine, path, why),
    }
    Ok(())
}

fn says(machine: &Machine, test: Operand) -> Result<bool, Stop>
    ensures { result ≡ says_in (store_of machine.now) (expr_of test.entry) }
{
    holds(eval_operand(machine, test)?)
}

fn act_test(
    alloc: Global,
    program: &Program,
    machine: &mut Machine,
    path: Seq<usize>,
    test: Operand,
) -> Result<(), Memory>
    ensures ok { OnOk result (machine.new ≡ acted program.now path (Tests (expr_of test.entry)) machine.old) }
    ensures err { OnErr result (machine.new ≡ machine.old) }
{
    match says(machine, test) {
        Ok(said) => {
            let next = path_onward(alloc, program, &machine.rest, Some(said), path.as_slice())?;
            move_to(&mut machine.rest, next);
        }
        Err(why) => stay(machine, path, why),
    }
    Ok(())
}

fn params_of(program: &Program, fun: usize) -> &[usize]
    ensures { result.now ≡ parameters_of program.now fun }
{
    match program.funs.get(fun) {
        Some(def) => def.params.as_slice(),
        None => &[],
    }
}

fn act_call(
    alloc: Global,
    program: &Program,
    machine: &mut Machine,
    path: Seq<usize>,
    callee: usize,
    arguments: &[Expr],
    target: Option<usize>,
) -> Result<(), Memory>
    ensures ok { (number : ℕ) → OnOk result (machine.new ≡ acted program.now path (Invokes number callee arguments.now target) machine.old) }
    ensures err { OnErr result (machine.new ≡ machine.old) }
{
    let values = match eval_all(alloc, machine, arguments)? {
        Ok(values) => values,
        Err(why) => {
            stay(machine, path, why);
            return Ok(());
        }
    };
    let next = path_onward(alloc, program, &machine.rest, None, path.as_slice())?;
    let frame = Frame {
        fun: callee,
        path: Seq::from_slice(alloc, &[0])?,
        target,
    };
    enter(alloc, &mut machine.rest, next, frame)?;
    bind(machine, params_of(program, callee), values.as_slice());
    Ok(())
}

fn returned(machine: &Machine, value: Option<Operand>) -> Result<Option<Value>, Stop>
    ensures { result ≡ value_of (store_of machine.now) (option_map expr_of value.entry) }
{
    match value {
        None => Ok(None),
        Some(value) => Ok(Some(eval_operand(machine, value)?)),
    }
}

fn act_return(program: &Program, machine: &mut Machine, path: Seq<usize>, value: Option<Operand>)
    ensures { (at : ℕ) → machine.new ≡ acted program.now path (Gives (option_map expr_of value.entry) at) machine.old }
{
    match returned(machine, value) {
        Ok(value) => go_back(program, machine, value),
        Err(why) => stay(machine, path, why),
    }
}

fn act_close(program: &Program, machine: &mut Machine, path: Seq<usize>, goes_back: bool)
    ensures { (at : ℕ) → machine.new ≡ acted program.now path (Closes goes_back at) machine.old }
{
    if goes_back {
        go_back(program, machine, None);
    } else {
        stay(machine, path, Stop::Excluded);
    }
}

/// What an instruction at a path does.
fn act(
    alloc: Global,
    program: &Program,
    machine: &mut Machine,
    path: Seq<usize>,
    instruction: Instruction,
) -> Result<(), Memory>
    ensures ok { OnOk result (machine.new ≡ acted program.now path (instruction_of instruction.entry) machine.old) }
    ensures err { OnErr result (machine.new ≡ machine.old) }
{
    match instruction {
        Instruction::Plain(deed) => act_deed(alloc, program, machine, path, deed),
        Instruction::Test(test) => act_test(alloc, program, machine, path, test),
        Instruction::Invoke(_, callee, arguments, target) => {
            act_call(alloc, program, machine, path, callee, arguments, target)
        }
        Instruction::Return(value, _) => {
            act_return(program, machine, path, value);
            Ok(())
        }
        Instruction::Close(goes_back, _) => {
            act_close(program, machine, path, goes_back);
            Ok(())
        }
    }
}

// the gaps before it

fn spot_here<'a>(program: &'a Program, rest: &Stack<Frame>, path: &[usize]) -> Spot<'a>
    ensures { spot_meant result ≡ here program.now (moved path.now rest.now) }
{
    match rest.top() {
        Some(frame) => spot_in_fun(program, frame.fun, path),
        None => Spot::Nowhere,
    }
}

fn path_here(alloc: Global, rest: &Stack<Frame>) -> Result<Seq<usize>, Memory>
    ensures { IfOk result (λ path. moved path rest.now ≡ rest.now) }
{
    match rest.top() {
        Some(frame) => Seq::from_slice(alloc, frame.path.as_slice()),
        None => Ok(Seq::new(alloc)),
    }
}

/// The frees of a gap. Answers the path behind it, or none where the run has ended.
fn pass(
    alloc: Global,
    program: &Program,
    machine: &mut Machine,
    noted: &mut Stack<usize>,
    frees: &[Free],
    path: &[usize],
) -> Result<Option<Seq<usize>>, Memory>
    ensures ok { OnOk result (machine.new ≡ on_store (all_freed frees.now) machine.old) }
    ensures alone { (e : Outcome) → taken_back noted.new e machine.new ≡ taken_back noted.old e machine.old }
    ensures next { IfOk result (λ next. IfSome next (λ n. moved n machine.new.rest ≡ onward program.now None (moved path.now machine.new.rest))) }
    ensures over { IfOk result (λ next. is_ended machine.new.ending ≡ is_none next) }
{
    free_all(machine, noted, frees)?;
    if is_over(machine.ending) {
        return Ok(None);
    }
    Ok(Some(path_onward(alloc, program, &machine.rest, None, path)?))
}

/// The gaps before the next action, and that action.
fn walk(
    alloc: Global,
    program: &Program,
    machine: &mut Machine,
    noted: &mut Stack<usize>,
) -> Result<(), Memory>
    ensures ok { OnOk result (machine.new ≡ seen (walked program.now (acts program.now) (program.now.gaps + 1) (state_of machine.old))) }
    ensures err { (e : Outcome) → OnErr result (taken_back noted.new e machine.new ≡ taken_back noted.old e machine.old) }
{
    let mut path = path_here(alloc, &machine.rest)?;
    let mut left = program.gaps;
    loop {
        let frees = match spot_here(program, &machine.rest, path.as_slice()) {
            Spot::AtGap(gap) => gap.frees.as_slice(),
            Spot::AtAction(instruction) => {
                return act(alloc, program, machine, path, instruction);
            }
            Spot::Nowhere => {
                move_to(&mut machine.rest, path);
                return Ok(());
            }
        };
        match pass(alloc, program, machine, noted, frees, path.as_slice())? {
            Some(next) => path = next,
            None => {
                move_to(&mut machine.rest, path);
                return Ok(());
            }
        }
        if left == 0 {
            move_to(&mut machine.rest, path);
            return Ok(());
        }
        left -= 1;
    }
}

/// One step; nothing where the run has ended.
pub fn step(alloc: Global, machine: &mut Machine, program: &Program) -> Result<(), Memory>
    requires { machine.old.steps + 1 < 2 ^ 64 }
    ensures ok { OnOk result (machine.new ≡ step_of program.now machine.old) }
    ensures err { OnErr result (machine.new ≡ machine.old) }
{
    if is_over(machine.ending) {
        return Ok(());
    }
    let steps = machine.steps;
    machine.steps = steps + 1;
    let mut noted = Stack::new(alloc);
    match walk(alloc, program, machine, &mut noted) {
        Ok(()) => Ok(()),
        Err(error) => {
            revive(&mut machine.objects, noted);
            machine.ending = Ending::Running;
            machine.steps = steps;
            Err(error)
        }
    }
}
