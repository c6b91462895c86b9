// The actions behind which control goes straight on. Where memory is wanting, nothing was done.
ghost use Rattle.std.specs.Prelude.{◌≡◌, ℕ, pos, length, option_map, IfOk, OnErr};
ghost use Rattle.c_tree.specs.declared.program.Program.{Program as Source};
ghost use Rattle.c_meaning.specs.Eval.{eval as value_of, offset_of, place_of as location_of};
ghost use Rattle.c_meaning.specs.Machine.{store_of};
ghost use Rattle.c_meaning.specs.Effects.{attempt, count_of, new_value as value_after, old_number as number_before, target_location};
ghost use Rattle.c_meaning.specs.Parts.{Assign as Assigns, Getchar as Fetches, Malloc as Requests, Printf as Prints, Putchar as Puts};
ghost use Rattle.c_replay.specs.Changes.{number_in, passed, text_in};
ghost use Rattle.c_replay.specs.Meant.{deed_of, expr_of};

use crate::expressions::{eval, eval_all, offset, place_of, value_at};
use crate::forms::{Deed, Operand};
use crate::numbers::{difference, number_of, product, sum};
use crate::output::{low_byte, numbers_of, print};
use crate::store::{fetch, request, store, write, write_slot};
use c_meaning::{Location, Machine, Stop, Value};
use c_tree::{Expr, Op, Program, Size, StructDef};
use mf_list::{Memory, Seq};
use std::alloc::Global;

pub fn eval_operand(machine: &Machine, operand: Operand) -> Result<Value, Stop>
    ensures { result ≡ value_of machine.now.slots machine.now.objects (expr_of operand.entry) }
{
    match operand {
        Operand::Written(expr) => eval(machine, expr),
        Operand::Variable(var, at) => eval(machine, &Expr::Var(var, at)),
        Operand::One => eval(machine, &Expr::Const(1, 0)),
    }
}

fn operand_place(machine: &Machine, operand: Operand) -> Result<Location, Stop>
    ensures { result ≡ location_of machine.now.slots machine.now.objects (expr_of operand.entry) }
{
    match operand {
        Operand::Written(expr) => place_of(machine, expr),
        Operand::Variable(var, at) => place_of(machine, &Expr::Var(var, at)),
        Operand::One => place_of(machine, &Expr::Const(1, 0)),
    }
}

fn operand_offset(operand: Operand) -> usize
    ensures { result ≡ offset_of (expr_of operand.entry) }
{
    match operand {
        Operand::Written(expr) => offset(expr),
        Operand::Variable(var, at) => offset(&Expr::Var(var, at)),
        Operand::One => offset(&Expr::Const(1, 0)),
    }
}

fn target(machine: &Machine, place: Option<Operand>) -> Result<Option<Location>, Stop>
    ensures { result ≡ target_location (store_of machine.now) (option_map expr_of place.entry) }
{
    match place {
        None => Ok(None),
        Some(place) => Ok(Some(operand_place(machine, place)?)),
    }
}

// assignments

fn old_number(machine: &Machine, place: Operand, location: Location) -> Result<i32, Stop>
    ensures { result ≡ number_before (store_of machine.now) (expr_of place.entry) location }
{
    number_of(value_at(machine, operand_offset(place), location)?)
}

fn new_value(
    machine: &Machine,
    op: Op,
    at: usize,
    place: Operand,
    right: &Expr,
    location: Location,
) -> Result<Value, Stop>
    ensures { result ≡ value_after (store_of machine.now) op at (expr_of place.entry) right.now location }
{
    match op {
        Op::Put => eval(machine, right),
        Op::Add => {
            let old = old_number(machine, place, location)?;
            sum(at, old, number_of(eval(machine, right)?)?)
        }
        Op::Sub => {
            let old = old_number(machine, place, location)?;
            difference(at, old, number_of(eval(machine, right)?)?)
        }
        Op::Mul => {
            let old = old_number(machine, place, location)?;
            product(at, old, number_of(eval(machine, right)?)?)
        }
    }
}

fn assign(
    machine: &mut Machine,
    place: Operand,
    op: Op,
    right: &Expr,
    at: usize,
) -> Result<Result<(), Stop>, Memory>
    ensures passes { (p : Source) → IfOk result (λ done. attempt p (Assigns (expr_of place.entry) op right.now at) (store_of machine.old) ≡ passed done (store_of machine.new)) }
    ensures frames { machine.new.rest ≡ machine.old.rest }
    ensures stays { IfOk result (λ done. OnErr done (machine.new ≡ machine.old)) }
    ensures err { OnErr result (machine.new ≡ machine.old) }
{
    let location = match operand_place(machine, place) {
        Ok(location) => location,
        Err(stop) => return Ok(Err(stop)),
    };
    match new_value(machine, op, at, place, right, location) {
        Ok(value) => {
            store(machine, location, value)?;
            Ok(Ok(()))
        }
        Err(stop) => Ok(Err(stop)),
    }
}

// requests

fn fields_of(def: &StructDef) -> i64
    ensures { result ≡ pos (length def.now.fields) }
{
    def.fields.as_slice().len() as i64
}

/// How many cells a request asks for.
fn count(program: &Program, machine: &Machine, size: &Size) -> Result<i64, Stop>
    ensures { result ≡ count_of program.now (store_of machine.now) size.now }
{
    match size {
        Size::Ints(None) => Ok(1),
        Size::Ints(Some(count)) => Ok(number_of(eval(machine, count.get())?)? as i64),
        Size::Fields(of) => match program.structs.get(*of) {
            Some(def) => Ok(fields_of(def)),
            None => Err(Stop::Excluded),
        },
    }
}

fn malloc(
    alloc: Global,
    program: &Program,
    machine: &mut Machine,
    place: Option<Operand>,
    size: &Size,
) -> Result<Result<(), Stop>, Memory>
    ensures passes { (at : ℕ) → IfOk result (λ done. attempt program.now (Requests (option_map expr_of place.entry) size.now at) (store_of machine.old) ≡ passed done (store_of machine.new)) }
    ensures frames { machine.new.rest ≡ machine.old.rest }
    ensures stays { IfOk result (λ done. OnErr done (machine.new ≡ machine.old)) }
    ensures err { OnErr result (machine.new ≡ machine.old) }
{
    let location = match target(machine, place) {
        Ok(location) => location,
        Err(stop) => return Ok(Err(stop)),
    };
    match count(program, machine, size) {
        Ok(count) => {
            request(alloc, machine, location, count)?;
            Ok(Ok(()))
        }
        Err(stop) => Ok(Err(stop)),
    }
}

// input and output

fn getchar(machine: &mut Machine, place: Option<Operand>) -> Result<Result<(), Stop>, Memory>
    ensures passes { (p : Source) → IfOk result (λ done. attempt p (Fetches (option_map expr_of place.entry)) (store_of machine.old) ≡ passed done (store_of machine.new)) }
    ensures frames { machine.new.rest ≡ machine.old.rest }
    ensures stays { IfOk result (λ done. OnErr done (machine.new ≡ machine.old)) }
    ensures err { OnErr result (machine.new ≡ machine.old) }
{
    match target(machine, place) {
        Ok(location) => {
            fetch(machine, location)?;
            Ok(Ok(()))
        }
        Err(stop) => Ok(Err(stop)),
    }
}

fn putchar(alloc: Global, machine: &mut Machine, value: &Expr) -> Result<Result<(), Stop>, Memory>
    ensures passes { (p : Source) → IfOk result (λ done. attempt p (Puts value.now) (store_of machine.old) ≡ passed done (store_of machine.new)) }
    ensures frames { machine.new.rest ≡ machine.old.rest }
    ensures stays { IfOk result (λ done. OnErr done (machine.new ≡ machine.old)) }
    ensures err { OnErr result (machine.new ≡ machine.old) }
{
    let number = match number_at(machine, value) {
        Ok(number) => number,
        Err(stop) => return Ok(Err(stop)),
    };
    write(machine, Seq::from_slice(alloc, &[low_byte(number)])?)?;
    Ok(Ok(()))
}

fn number_at(machine: &Machine, expr: &Expr) -> Result<i32, Stop>
    ensures { result ≡ number_in (store_of machine.now) expr.now }
{
    number_of(eval(machine, expr)?)
}

/// What a printf writes.
fn text_of(
    alloc: Global,
    machine: &Machine,
    text: &[u8],
    arguments: &[Expr],
) -> Result<Result<Seq<u8>, Stop>, Memory>
    ensures { IfOk result (λ bytes. bytes ≡ text_in (store_of machine.now) text.now arguments.now) }
{
    let values = match eval_all(alloc, machine, arguments)? {
        Ok(values) => values,
        Err(stop) => return Ok(Err(stop)),
    };
    match numbers_of(alloc, values.as_slice())? {
        Ok(numbers) => print(alloc, text, numbers.as_slice()),
        Err(stop) => Ok(Err(stop)),
    }
}

fn printf(
    alloc: Global,
    machine: &mut Machine,
    text: &[u8],
    arguments: &[Expr],
) -> Result<Result<(), Stop>, Memory>
    ensures passes { (p : Source) → IfOk result (λ done. attempt p (Prints text.now arguments.now) (store_of machine.old) ≡ passed done (store_of machine.new)) }
    ensures frames { machine.new.rest ≡ machine.old.rest }
    ensures stays { IfOk result (λ done. OnErr done (machine.new ≡ machine.old)) }
    ensures err { OnErr result (machine.new ≡ machine.old) }
{
    match text_of(alloc, machine, text, arguments)? {
        Ok(bytes) => {
            write(machine, bytes)?;
            Ok(Ok(()))
        }
        Err(stop) => Ok(Err(stop)),
    }
}

/// Does an action, or says why it can't be done.
pub fn perform(
    alloc: Global,
    program: &Program,
    machine: &mut Machine,
    deed: Deed,
) -> Result<Result<(), Stop>, Memory>
    ensures passes { IfOk result (λ done. attempt program.now (deed_of deed.entry) (store_of machine.old) ≡ passed done (store_of machine.new)) }
    ensures frames { machine.new.rest ≡ machine.old.rest }
    ensures stays { IfOk result (λ done. OnErr done (machine.new ≡ machine.old)) }
    ensures err { OnErr result (machine.new ≡ machine.old) }
{
    match deed {
        Deed::Unset(var) => {
            write_slot(&mut machine.slots, var, Value::Undef);
            Ok(Ok(()))
        }
        Deed::Assign(place, op, right, at) => assign(machine, place, op, right, at),
        Deed::Malloc(place, size, _) => malloc(alloc, program, machine, place, size),
        Deed::Getchar(place) => getchar(machine, place),
        Deed::Putchar(value) => putchar(alloc, machine, value),
        Deed::Printf(text, arguments) => printf(alloc, machine, text, arguments),
    }
}
