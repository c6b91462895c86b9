// Which values fit which types (C99 6.5.4 to 6.5.16, 6.3.2.3).
ghost use Rattle.std.specs.Prelude.{◌≡◌, false, IfOk};
ghost use Rattle.c_tree.specs.AlikeTest.{same_ty};
ghost use Rattle.c_types.specs.Fits.{as_pointer, beside, cast_fits, converted, fits, is_comparable, is_int, is_null, is_pointer, is_zero, misfits, points, request_fits, right_for, right_of, same_sort, unless};

use crate::faults::{Fault, Rule};
use crate::judged::{Request, RightValue, Sort, Value};
use c_tree::{Expr, Right, Ty};
use mf_list::{Memory, Seq};
use std::alloc::Global;

/// A list of one fault.
pub(crate) fn one_fault(alloc: Global, rule: Rule, at: usize) -> Result<Seq<Fault>, Memory>
    ensures { IfOk result (λ fs. fs ≡ unless false rule at) }
{
    let mut faults = Seq::new(alloc);
    faults.push(Fault { at, rule })?;
    Ok(faults)
}

/// No fault where that holds, or that one.
pub(crate) fn unless(
    alloc: Global,
    holds: bool,
    rule: Rule,
    at: usize,
) -> Result<Seq<Fault>, Memory>
    ensures { IfOk result (λ fs. fs ≡ unless holds rule at) }
{
    if holds {
        Ok(Seq::new(alloc))
    } else {
        one_fault(alloc, rule, at)
    }
}

pub(crate) fn same_ty(left: Ty, right: Ty) -> bool
    ensures { result ≡ same_ty left right }
{
    match (left, right) {
        (Ty::Int, Ty::Int) => true,
        (Ty::IntPtr, Ty::IntPtr) => true,
        (Ty::StructPtr(left), Ty::StructPtr(right)) => left == right,
        _ => false,
    }
}

pub(crate) fn is_pointer(ty: Ty) -> bool
    ensures { result ≡ is_pointer ty }
{
    match ty {
        Ty::Int => false,
        Ty::IntPtr => true,
        Ty::StructPtr(_) => true,
    }
}

impl Sort {
    pub(crate) fn points(self) -> bool
        ensures { result ≡ points self }
    {
        match self {
            Sort::Of(ty) => is_pointer(ty),
            Sort::AnyPointer => true,
        }
    }

    pub(crate) fn is_int(self) -> bool
        ensures { result ≡ is_int self }
    {
        match self {
            Sort::Of(Ty::Int) => true,
            Sort::Of(Ty::IntPtr) => false,
            Sort::Of(Ty::StructPtr(_)) => false,
            Sort::AnyPointer => false,
        }
    }

    pub(crate) fn same_sort(self, other: Sort) -> bool
        ensures { result ≡ same_sort self other }
    {
        match (self, other) {
            (Sort::Of(left), Sort::Of(right)) => same_ty(left, right),
            (Sort::AnyPointer, Sort::AnyPointer) => true,
            _ => false,
        }
    }
}

/// Whether an expression is the constant 0.
pub(crate) fn is_zero(expr: &Expr) -> bool
    ensures { result ≡ is_zero expr.now }
{
    match expr {
        Expr::Const(number, _) => *number == 0,
        Expr::Null(_) => false,
        Expr::Var(_, _) => false,
        Expr::Field(_, _, _) => false,
        Expr::Deref(_, _) => false,
        Expr::Index(_, _, _) => false,
        Expr::Unary(_, _, _) => false,
        Expr::Binary(_, _, _, _) => false,
    }
}

/// An expression where a pointer is wanted.
pub(crate) fn as_pointer(expr: Expr) -> Expr
    ensures { result ≡ as_pointer expr }
{
    match expr {
        Expr::Const(number, at) => {
            if number == 0 {
                Expr::Null(at)
            } else {
                Expr::Const(number, at)
            }
        }
        other => other,
    }
}

/// An expression where a value of that type is wanted.
pub(crate) fn converted(ty: Ty, expr: Expr) -> Expr
    ensures { result ≡ converted ty expr }
{
    match ty {
        Ty::Int => expr,
        Ty::IntPtr => as_pointer(expr),
        Ty::StructPtr(_) => as_pointer(expr),
    }
}

impl Value {
    pub(crate) fn fits(&self, ty: Ty) -> bool
        ensures { result ≡ fits ty self.now }
    {
        Sort::Of(ty).same_sort(self.sort)
            || (is_pointer(ty) && (Sort::AnyPointer.same_sort(self.sort) || is_zero(&self.expr)))
    }

    fn is_null(&self) -> bool
        ensures { result ≡ is_null self.now }
    {
        Sort::AnyPointer.same_sort(self.sort) || is_zero(&self.expr)
    }

    pub(crate) fn is_comparable(&self, other: &Value) -> bool
        ensures { result ≡ is_comparable self.now other.now }
    {
        self.sort.same_sort(other.sort)
            || (self.sort.points() && other.is_null())
            || (self.is_null() && other.sort.points())
    }

    /// An operand of `==` or `!=` beside one of that type.
    pub(crate) fn beside(self, other: Sort) -> Expr
        ensures { result ≡ beside self other }
    {
        if other.points() {
            as_pointer(self.expr)
        } else {
            self.expr
        }
    }
}

impl Request {
    fn cast_fits(self, ty: Ty) -> bool
        ensures { result ≡ cast_fits ty self.cast }
    {
        match self.cast {
            None => true,
            Some(cast) => same_ty(ty, cast),
        }
    }

    fn fits(self, ty: Ty) -> bool
        ensures { result ≡ request_fits ty self }
    {
        same_ty(ty, self.points) && self.cast_fits(ty)
    }
}

impl RightValue {
    /// The rules that the value breaks at a target of that type.
    pub(crate) fn misfits(&self, alloc: Global, ty: Ty, at: usize) -> Result<Seq<Fault>, Memory>
        ensures { IfOk result (λ fs. fs ≡ misfits ty at self.now) }
    {
        match self {
            RightValue::Plain(value) => unless(alloc, value.fits(ty), Rule::TypesDiffer, at),
            RightValue::Result(_, of) => unless(alloc, same_ty(ty, *of), Rule::TypesDiffer, at),
            RightValue::Requested(_, request) => {
                unless(alloc, request.fits(ty), Rule::Request, request.at)
            }
        }
    }

    /// The right side for a target of that type.
    pub(crate) fn right_for(self, ty: Ty) -> Right
        ensures { result ≡ right_for ty self }
    {
        match self {
            RightValue::Plain(value) => Right::Plain(converted(ty, value.expr)),
            RightValue::Result(call, _) => Right::Call(call),
            RightValue::Requested(call, _) => Right::Call(call),
        }
    }

    /// The right side without a target.
    pub(crate) fn into_right(self) -> Right
        ensures { result ≡ right_of self }
    {
        match self {
            RightValue::Plain(value) => Right::Plain(value.expr),
            RightValue::Result(call, _) => Right::Call(call),
            RightValue::Requested(call, _) => Right::Call(call),
        }
    }
}
