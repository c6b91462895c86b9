// Operators on values (C99 6.5.3.3, 6.5.5, 6.5.6, 6.5.8, 6.5.9).
ghost use Rattle.std.specs.Prelude.{◌≡◌, ℤ, ◌+ℤ◌, ◌-ℤ◌, ◌*ℤ◌, neg_ℤ, SomeIff, FitsSigned};
ghost use Rattle.std.specs.Int.{w32};
ghost use Rattle.c_meaning.specs.Eval.{arithmetic, binary, compared, divided, fitted, int_of, remainder, said, signed, truth};

use c_meaning::{Kind, Stop, Value};
use c_tree::{Oper, Sign};

/// A result at an operator, if it is an `int`.
#[tactic(auto, using(crate::proofs::Ranges::fitted_some, crate::proofs::Ranges::fitted_none))]
fn checked(at: usize, number: Option<i32>) -> Result<Value, Stop>
    ensures { (z : ℤ) → SomeIff number (FitsSigned w32 z) z → result ≡ fitted at z }
{
    match number {
        Some(number) => Ok(Value::Int(number)),
        None => Err(Stop::Faulted(Kind::Overflow, at)),
    }
}

fn of_bool(holds: bool) -> Value
    ensures { result ≡ said holds }
{
    if holds { Value::Int(1) } else { Value::Int(0) }
}

fn quotient(at: usize, a: i32, b: i32) -> Result<Value, Stop>
    ensures { result ≡ divided at a b }
{
    if b == 0 {
        return Err(Stop::Faulted(Kind::DivZero, at));
    }
    checked(at, a.checked_div(b))
}

fn rest(at: usize, a: i32, b: i32) -> Result<Value, Stop>
    ensures { result ≡ remainder at a b }
{
    if b == 0 {
        return Err(Stop::Faulted(Kind::DivZero, at));
    }
    match a.checked_rem(b) {
        Some(rest) => Ok(Value::Int(rest)),
        None => Err(Stop::Faulted(Kind::Overflow, at)),
    }
}

fn on_numbers(oper: Oper, at: usize, a: i32, b: i32) -> Result<Value, Stop>
    ensures { result ≡ arithmetic oper at a b }
{
    match oper {
        Oper::Mul => checked(at, a.checked_mul(b)),
        Oper::Div => quotient(at, a, b),
        Oper::Rem => rest(at, a, b),
        Oper::Add => checked(at, a.checked_add(b)),
        Oper::Sub => checked(at, a.checked_sub(b)),
        Oper::Lt => Ok(of_bool(a < b)),
        Oper::Le => Ok(of_bool(a <= b)),
        Oper::Gt => Ok(of_bool(a > b)),
        Oper::Ge => Ok(of_bool(a >= b)),
        Oper::Eq => Ok(of_bool(a == b)),
        Oper::Ne => Ok(of_bool(a != b)),
        Oper::And => Err(Stop::Excluded),
        Oper::Or => Err(Stop::Excluded),
    }
}

fn on_pointers(oper: Oper, equal: bool) -> Result<Value, Stop>
    ensures { result ≡ compared oper equal }
{
    match oper {
        Oper::Eq => Ok(of_bool(equal)),
        Oper::Ne => Ok(of_bool(!equal)),
        _ => Err(Stop::Excluded),
    }
}

/// Both operands have their values.
pub fn on_values(oper: Oper, at: usize, a: Value, b: Value) -> Result<Value, Stop>
    ensures { result ≡ binary oper at a b }
{
    match (a, b) {
        (Value::Int(a), Value::Int(b)) => on_numbers(oper, at, a, b),
        (Value::Ptr(a), Value::Ptr(b)) => on_pointers(oper, a == b),
        (Value::Ptr(_), Value::Null) => on_pointers(oper, false),
        (Value::Null, Value::Ptr(_)) => on_pointers(oper, false),
        (Value::Null, Value::Null) => on_pointers(oper, true),
        _ => Err(Stop::Excluded),
    }
}

pub fn number_of(value: Value) -> Result<i32, Stop>
    ensures { result ≡ int_of value }
{
    match value {
        Value::Int(number) => Ok(number),
        _ => Err(Stop::Excluded),
    }
}

/// Whether a value compares unequal to 0.
pub fn holds(value: Value) -> Result<bool, Stop>
    ensures { result ≡ truth value }
{
    match value {
        Value::Int(number) => Ok(number != 0),
        Value::Null => Ok(false),
        Value::Ptr(_) => Ok(true),
        Value::Undef => Err(Stop::Excluded),
    }
}

pub fn on_value(sign: Sign, at: usize, value: Value) -> Result<Value, Stop>
    ensures { result ≡ signed sign at value }
{
    match sign {
        Sign::Minus => checked(at, number_of(value)?.checked_neg()),
        Sign::Not => Ok(of_bool(!holds(value)?)),
    }
}

/// The new value of a change, from the old one and the right side (C99 6.5.16.2).
pub fn sum(at: usize, a: i32, b: i32) -> Result<Value, Stop>
    ensures { result ≡ fitted at (a +ℤ b) }
{
    checked(at, a.checked_add(b))
}

pub fn difference(at: usize, a: i32, b: i32) -> Result<Value, Stop>
    ensures { result ≡ fitted at (a -ℤ b) }
{
    checked(at, a.checked_sub(b))
}

pub fn product(at: usize, a: i32, b: i32) -> Result<Value, Stop>
    ensures { result ≡ fitted at (a *ℤ b) }
{
    checked(at, a.checked_mul(b))
}
