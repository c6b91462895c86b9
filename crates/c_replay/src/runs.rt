// The start of a run, its steps, and what it has not freed.
ghost use Rattle.std.specs.Prelude.{◌≡◌, ◌+◌, ◌≤◌, map, not, count_by, IfOk, OnOk};
ghost use Rattle.c_meaning.specs.Machine.{constant_of, start as start_of, start_value as value_at_start};
ghost use Rattle.c_meaning.specs.Safe.{run as run_of};

use crate::stepping::step;
use crate::store::is_over;
use c_meaning::{Ending, Frame, Machine, Stack, Supply, Value};
use c_tree::{Home, Program, Ty, VarDef};
use mf_list::{Memory, Seq};
use std::alloc::Global;

fn constant(ty: Ty, number: i32) -> Value
    ensures { result ≡ constant_of ty number }
{
    match ty {
        Ty::Int => Value::Int(number),
        Ty::IntPtr | Ty::StructPtr(_) => Value::Null,
    }
}

fn start_value(ty: Ty, home: Home) -> Value
    ensures { result ≡ value_at_start ty home }
{
    match home {
        Home::Global(number) => constant(ty, number),
        Home::Param(_) | Home::Local(_) | Home::Result(_) => Value::Undef,
    }
}

fn start_slots(alloc: Global, vars: &[VarDef]) -> Result<Seq<Value>, Memory>
    ensures { IfOk result (λ slots. slots ≡ map (λ v. value_at_start v.ty v.home) vars.now) }
{
    let mut slots = Seq::new(alloc);
    for var in vars {
        slots.push(start_value(var.ty, var.home))?;
    }
    Ok(slots)
}

/// A machine that has taken no step: control stands before the first item of `main`. The failures
/// say of each `malloc`, in order, whether it fails; past their end none does.
pub fn start(
    alloc: Global,
    program: &Program,
    input: &[u8],
    fails: &[bool],
) -> Result<Machine, Memory>
    ensures { IfOk result (λ machine. machine ≡ start_of program.now input.now fails.now) }
{
    let mut rest = Stack::new(alloc);
    rest.push(Frame {
        fun: program.main,
        path: Seq::from_slice(alloc, &[0])?,
        target: None,
    })?;
    Ok(Machine {
        slots: start_slots(alloc, program.vars.as_slice())?,
        objects: Seq::new(alloc),
        rest,
        input: Supply::from_slice(alloc, input)?,
        fails: Supply::from_slice(alloc, fails)?,
        output: Seq::new(alloc),
        steps: 0,
        ending: Ending::Running,
    })
}

/// The machine after n steps from the start, with that input and those failures.
pub fn run(
    alloc: Global,
    program: &Program,
    input: &[u8],
    fails: &[bool],
    n: u64,
) -> Result<Machine, Memory>
    ensures { IfOk result (λ machine. machine ≡ run_of program.now input.now fails.now n) }
{
    let mut machine = start(alloc, program, input, fails)?;
    for _taken in 0..n {
        if is_over(machine.ending) {
            return Ok(machine);
        }
        step(alloc, &mut machine, program)?;
    }
    Ok(machine)
}

/// How many objects are not freed.
pub fn live(machine: &Machine) -> usize
    ensures { result ≡ count_by (λ o. not o.freed) machine.now.objects }
{
    let objects = machine.objects.as_slice();
    objects.iter().filter(|object| !object.freed).count()
}
