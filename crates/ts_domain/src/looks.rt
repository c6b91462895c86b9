// What evaluating an expression does to pointers.
ghost use Rattle.std.specs.Prelude.{◌≡◌, ◌++◌, OnOk};
ghost use Rattle.ts_domain.specs.Looks.{based_deeds, compares, followed, is_equality, itself, pointer_of, value_deeds, within};

use crate::deed::Deed;
use crate::names::{Names, Read};
use crate::pointers::{Pointer, field_pointer, var_pointer};
use c_tree::{Expr, Oper};
use mf_list::{Memory, Seq};

/// The pointer that an expression is, if it is a variable or a field of pointer type. Recurses as deep as the expression
/// has operators one within the other.
pub fn pointer_of(names: &Names, expr: &Expr) -> Option<Pointer>
    ensures { result ≡ pointer_of names.now expr.now }
{
    match expr {
        Expr::Var(variable, _) => var_pointer(names, *variable),
        Expr::Field(base, field, _) => match pointer_of(names, base.get()) {
            None => None,
            Some(base) => field_pointer(names, *field, base),
        },
        Expr::Const(_, _) => None,
        Expr::Null(_) => None,
        Expr::Deref(_, _) => None,
        Expr::Index(_, _, _) => None,
        Expr::Unary(_, _, _) => None,
        Expr::Binary(_, _, _, _) => None,
    }
}

/// Adds the read of a pointer itself, if there is one.
pub fn itself(list: &mut Seq<Deed>, noted: bool, pointer: Option<Pointer>) -> Result<(), Memory>
    ensures { OnOk result (list.new ≡ list.old ++ itself noted pointer) }
{
    match pointer {
        None => Ok(()),
        Some(pointer) => list.push(Deed::Reads(pointer.read, noted)),
    }
}

fn followed(list: &mut Seq<Deed>, names: &Names, pointer: Option<Pointer>) -> Result<(), Memory>
    ensures { OnOk result (list.new ≡ list.old ++ followed names.now pointer) }
{
    match pointer {
        None => Ok(()),
        Some(pointer) => match pointer.read {
            Read::Deep(_, _) => Ok(()),
            Read::Name(place) => {
                if place < names.vars.len() {
                    list.push(Deed::Follows(place))?;
                }
                Ok(())
            }
        },
    }
}

fn is_equality(oper: Oper) -> bool
    ensures { result ≡ is_equality oper }
{
    match oper {
        Oper::Eq => true,
        Oper::Ne => true,
        Oper::Mul
        | Oper::Div
        | Oper::Rem
        | Oper::Add
        | Oper::Sub
        | Oper::Lt
        | Oper::Le
        | Oper::Gt
        | Oper::Ge
        | Oper::And
        | Oper::Or => false,
    }
}

fn compares(names: &Names, oper: Oper, left: &Expr, right: &Expr) -> bool
    ensures { result ≡ compares oper (pointer_of names.now left.now) (pointer_of names.now right.now) }
{
    is_equality(oper) && pointer_of(names, left).is_some() && pointer_of(names, right).is_some()
}

/// Adds what the operands of an expression do.
#[cycle(looks)]
pub fn within(list: &mut Seq<Deed>, names: &Names, expr: &Expr) -> Result<(), Memory>
    ensures { OnOk result (list.new ≡ list.old ++ within names.now expr.now) }
{
    match expr {
        Expr::Const(_, _) => Ok(()),
        Expr::Null(_) => Ok(()),
        Expr::Var(_, _) => Ok(()),
        Expr::Field(base, _, _) => based(list, names, base.get()),
        Expr::Deref(base, _) => based(list, names, base.get()),
        Expr::Index(base, index, _) => {
            value_deeds(list, names, false, base.get())?;
            value_deeds(list, names, false, index.get())?;
            followed(list, names, pointer_of(names, base.get()))
        }
        Expr::Unary(_, operand, _) => value_deeds(list, names, false, operand.get()),
        Expr::Binary(oper, left, right, _) => {
            let noted = compares(names, *oper, left.get(), right.get());
            value_deeds(list, names, noted, left.get())?;
            value_deeds(list, names, noted, right.get())
        }
    }
}

#[cycle(looks)]
fn based(list: &mut Seq<Deed>, names: &Names, base: &Expr) -> Result<(), Memory>
    ensures { OnOk result (list.new ≡ list.old ++ based_deeds names.now base.now) }
{
    value_deeds(list, names, false, base)?;
    followed(list, names, pointer_of(names, base))
}

/// Adds what the evaluation of an expression does.
#[cycle(looks)]
pub fn value_deeds(
    list: &mut Seq<Deed>,
    names: &Names,
    noted: bool,
    expr: &Expr,
) -> Result<(), Memory>
    ensures { OnOk result (list.new ≡ list.old ++ value_deeds names.now noted expr.now) }
{
    within(list, names, expr)?;
    itself(list, noted, pointer_of(names, expr))
}
