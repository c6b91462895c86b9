// The values of expressions and the locations that they name (C99 6.5).
ghost use Rattle.std.specs.Prelude.{◌≡◌, length, slice_get, unwrap_or, IfOk};
ghost use Rattle.c_tree.specs.declared.expr.Expr.{out-Expr};
ghost use Rattle.c_meaning.specs.Eval.{cell_of, cell_within, cells_of, content_of, eval as value_of, eval_all as values_of, field_cell as cell_of_field, field_within, is_freed, offset_of, place_of as location_of, read as read_content, slot_of, unless_freed, value_at as value_in};

use crate::numbers::{number_of, on_value, on_values};
use c_meaning::{Kind, Location, Machine, Object, Stop, Value};
use c_tree::Expr;
use mf_list::{Memory, Seq};
use std::alloc::Global;

fn slot(slots: &Seq<Value>, at: usize) -> Value
    ensures { result ≡ slot_of slots.now at }
{
    match slots.get(at) {
        Some(value) => *value,
        None => Value::Undef,
    }
}

fn cell(objects: &Seq<Object>, object: usize, at: usize) -> Value
    ensures { result ≡ unwrap_or (slice_get (cells_of objects.now object) at) Value.Undef }
{
    match objects.get(object) {
        Some(object) => match object.cells.get(at) {
            Some(value) => value,
            None => Value::Undef,
        },
        None => Value::Undef,
    }
}

fn cell_count(objects: &Seq<Object>, object: usize) -> usize
    ensures { result ≡ length (cells_of objects.now object) }
{
    match objects.get(object) {
        Some(object) => object.cells.len(),
        None => 0,
    }
}

pub fn was_freed(objects: &Seq<Object>, object: usize) -> bool
    ensures { result ≡ is_freed objects.now object }
{
    match objects.get(object) {
        Some(object) => object.freed,
        None => false,
    }
}

/// What a location holds, which isn't a read of it.
pub fn content(machine: &Machine, location: Location) -> Value
    ensures { result ≡ content_of machine.now.slots machine.now.objects location }
{
    match location {
        Location::Slot(at) => slot(&machine.slots, at),
        Location::Cell(object, at) => cell(&machine.objects, object, at),
    }
}

fn read(machine: &Machine, at: usize, value: Value) -> Result<Value, Stop>
    ensures { result ≡ read_content machine.now.objects at value }
{
    match value {
        Value::Undef => Err(Stop::Faulted(Kind::Uninit, at)),
        Value::Int(_) => Ok(value),
        Value::Null => Ok(value),
        Value::Ptr(object) => {
            if was_freed(&machine.objects, object) {
                Err(Stop::Faulted(Kind::UseAfterFree, at))
            } else {
                Ok(value)
            }
        }
    }
}

/// The value at a location, read by the variable or operator at that offset.
pub fn value_at(machine: &Machine, at: usize, location: Location) -> Result<Value, Stop>
    ensures { result ≡ value_in machine.now.slots machine.now.objects at location }
{
    read(machine, at, content(machine, location))
}

fn within(at: usize, object: usize, index: i32, count: usize) -> Result<Location, Stop>
    ensures { result ≡ cell_within at object index count }
{
    if index >= 0 && (index as usize) < count {
        Ok(Location::Cell(object, index as usize))
    } else {
        Err(Stop::Faulted(Kind::Bounds, at))
    }
}

fn indexed(machine: &Machine, at: usize, index: i32, base: Value) -> Result<Location, Stop>
    ensures { result ≡ cell_of machine.now.objects at index base }
{
    match base {
        Value::Null => Err(Stop::Faulted(Kind::NullDeref, at)),
        Value::Ptr(object) => within(at, object, index, cell_count(&machine.objects, object)),
        _ => Err(Stop::Excluded),
    }
}

fn within_fields(object: usize, field: usize, count: usize) -> Result<Location, Stop>
    ensures { result ≡ field_within object field count }
{
    if field < count {
        Ok(Location::Cell(object, field))
    } else {
        Err(Stop::Excluded)
    }
}

fn field_of(machine: &Machine, at: usize, field: usize, base: Value) -> Result<Location, Stop>
    ensures { result ≡ cell_of_field machine.now.objects at field base }
{
    match base {
        Value::Null => Err(Stop::Faulted(Kind::NullDeref, at)),
        Value::Ptr(object) => within_fields(object, field, cell_count(&machine.objects, object)),
        _ => Err(Stop::Excluded),
    }
}

/// The value of an expression, or the first fault. Recurses as deep as the expression has operators
/// one within the other.
pub fn eval(machine: &Machine, expr: &Expr) -> Result<Value, Stop>
    ensures { result ≡ value_of machine.now.slots machine.now.objects expr.now }
{
    match expr {
        Expr::Const(number, _) => Ok(Value::Int(*number)),
        Expr::Null(_) => Ok(Value::Null),
        Expr::Var(var, at) => value_at(machine, *at, Location::Slot(*var)),
        Expr::Field(of, field, at) => {
            let base = eval(machine, of.get())?;
            value_at(machine, *at, field_of(machine, *at, *field, base)?)
        }
        Expr::Deref(of, at) => {
            let base = eval(machine, of.get())?;
            value_at(machine, *at, indexed(machine, *at, 0, base)?)
        }
        Expr::Index(of, index, at) => {
            let base = eval(machine, of.get())?;
            let index = number_of(eval(machine, index.get())?)?;
            value_at(machine, *at, indexed(machine, *at, index, base)?)
        }
        Expr::Unary(sign, of, at) => on_value(*sign, *at, eval(machine, of.get())?),
        Expr::Binary(oper, left, right, at) => {
            let left = eval(machine, left.get())?;
            on_values(*oper, *at, left, eval(machine, right.get())?)
        }
    }
}

/// The values of several expressions, in order, or the first fault.
pub fn eval_all(
    alloc: Global,
    machine: &Machine,
    exprs: &[Expr],
) -> Result<Result<Seq<Value>, Stop>, Memory>
    ensures { IfOk result (λ values. values ≡ values_of machine.now.slots machine.now.objects exprs.now) }
{
    let mut values = Seq::new(alloc);
    for expr in exprs {
        match eval(machine, expr) {
            Ok(value) => values.push(value)?,
            Err(stop) => return Ok(Err(stop)),
        }
    }
    Ok(Ok(values))
}

/// The location that an expression names; what it holds is not read.
pub fn place_of(machine: &Machine, expr: &Expr) -> Result<Location, Stop>
    ensures { result ≡ location_of machine.now.slots machine.now.objects expr.now }
{
    match expr {
        Expr::Var(var, _) => Ok(Location::Slot(*var)),
        Expr::Field(of, field, at) => field_of(machine, *at, *field, eval(machine, of.get())?),
        Expr::Deref(of, at) => indexed(machine, *at, 0, eval(machine, of.get())?),
        Expr::Index(of, index, at) => {
            let base = eval(machine, of.get())?;
            let index = number_of(eval(machine, index.get())?)?;
            indexed(machine, *at, index, base)
        }
        Expr::Const(_, _) | Expr::Null(_) | Expr::Unary(_, _, _) | Expr::Binary(_, _, _, _) => {
            Err(Stop::Excluded)
        }
    }
}

/// The offset by which a fault names an expression.
pub fn offset(expr: &Expr) -> usize
    ensures { result ≡ offset_of expr.now }
{
    match expr {
        Expr::Const(_, at) => *at,
        Expr::Null(at) => *at,
        Expr::Var(_, at) => *at,
        Expr::Field(_, _, at) => *at,
        Expr::Deref(_, at) => *at,
        Expr::Index(_, _, at) => *at,
        Expr::Unary(_, _, at) => *at,
        Expr::Binary(_, _, _, at) => *at,
    }
}
