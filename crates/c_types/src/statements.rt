// Right sides, assignments, declarations within functions, and returns (C99 6.5.16, 6.7.8, 6.8.6.4).
ghost use Rattle.std.specs.Prelude.{◌≡◌, IfOk};
ghost use Rattle.c_types.specs.Judged.{checked, of_one};
ghost use Rattle.c_types.specs.declared.judged.Judged.TheVariants.{Typed};
ghost use Rattle.c_types.specs.Statements.{assign_faults, assigned, bare_return, call_item, call_target, call_value, change_faults, initial, is_place, is_plain_int, is_variable, plain_value, put_faults, returned_value, right_at, typed_faults, value_of_call, walked_declr, walked_do, walked_initial, walked_return, walked_right, walked_simple};

use crate::faults::{Fault, Rule};
use crate::fits::{one_fault, unless};
use crate::judged::{Called, Checked, Gives, Judged, RightValue, Sort, Value};
use crate::scope::{Nesting, Returned, Walk, Written};
use crate::untyped::breaks;
use c_tree::{Call, Declr, Expr, Home, Item, Op, Right, Simple, tree};
use mf_list::{Memory, Seq};
use std::alloc::Global;

fn value_of_call(alloc: Global, called: Called) -> Result<Judged<RightValue>, Memory>
    ensures { IfOk result (λ j. j ≡ value_of_call called) }
{
    match called.gives {
        Gives::Nothing => breaks(alloc, Rule::VoidValue, called.at),
        Gives::Result(ty) => Ok(Judged::Typed(RightValue::Result(called.call, ty))),
        Gives::Requested(request) => {
            Ok(Judged::Typed(RightValue::Requested(called.call, request)))
        }
    }
}

fn of_call(alloc: Global, called: Judged<Called>) -> Result<Judged<RightValue>, Memory>
    ensures { IfOk result (λ j. j ≡ of_one value_of_call called) }
{
    match called {
        Judged::Typed(called) => value_of_call(alloc, called),
        Judged::Broken(faults) => Ok(Judged::Broken(faults)),
    }
}

fn of_plain(value: Judged<Value>) -> Judged<RightValue>
    ensures { result ≡ of_one plain_value value }
{
    match value {
        Judged::Typed(value) => Judged::Typed(RightValue::Plain(value)),
        Judged::Broken(faults) => Judged::Broken(faults),
    }
}

fn is_place(expr: &Expr) -> bool
    ensures { result ≡ is_place expr.now }
{
    match expr {
        Expr::Var(_, _) => true,
        Expr::Field(_, _, _) => true,
        Expr::Deref(_, _) => true,
        Expr::Index(_, _, _) => true,
        Expr::Const(_, _) => false,
        Expr::Null(_) => false,
        Expr::Unary(_, _, _) => false,
        Expr::Binary(_, _, _, _) => false,
    }
}

fn is_variable(expr: &Expr) -> bool
    ensures { result ≡ is_variable expr.now }
{
    match expr {
        Expr::Var(_, _) => true,
        Expr::Field(_, _, _) => false,
        Expr::Deref(_, _) => false,
        Expr::Index(_, _, _) => false,
        Expr::Const(_, _) => false,
        Expr::Null(_) => false,
        Expr::Unary(_, _, _) => false,
        Expr::Binary(_, _, _, _) => false,
    }
}

impl RightValue {
    fn call_target(&self, alloc: Global, is_var: bool, at: usize) -> Result<Seq<Fault>, Memory>
        ensures { IfOk result (λ fs. fs ≡ call_target is_var at self.now) }
    {
        match self {
            RightValue::Result(Call::User(_, _, _, _), _) => {
                unless(alloc, is_var, Rule::CallTarget, at)
            }
            RightValue::Result(Call::Malloc(_, _), _) => Ok(Seq::new(alloc)),
            RightValue::Result(Call::Getchar(_), _) => Ok(Seq::new(alloc)),
            RightValue::Result(Call::Putchar(_, _), _) => Ok(Seq::new(alloc)),
            RightValue::Result(Call::Printf(_, _, _), _) => Ok(Seq::new(alloc)),
            RightValue::Plain(_) => Ok(Seq::new(alloc)),
            RightValue::Requested(_, _) => Ok(Seq::new(alloc)),
        }
    }

    fn is_plain_int(&self) -> bool
        ensures { result ≡ is_plain_int self.now }
    {
        match self {
            RightValue::Plain(value) => value.sort.is_int(),
            RightValue::Result(_, _) => false,
            RightValue::Requested(_, _) => false,
        }
    }

    fn right_at(self, sort: Sort) -> Right
        ensures { result ≡ right_at sort self }
    {
        match sort {
            Sort::Of(ty) => self.right_for(ty),
            Sort::AnyPointer => self.into_right(),
        }
    }
}

fn change_faults(
    alloc: Global,
    sort: Sort,
    at: usize,
    right: &RightValue,
) -> Result<Seq<Fault>, Memory>
    ensures { IfOk result (λ fs. fs ≡ change_faults sort at right.now) }
{
    unless(
        alloc,
        sort.is_int() && right.is_plain_int(),
        Rule::Operands,
        at,
    )
}

fn put_faults(
    alloc: Global,
    place: &Value,
    at: usize,
    right: &RightValue,
) -> Result<Seq<Fault>, Memory>
    ensures { IfOk result (λ fs. fs ≡ put_faults place.now at place.now.sort right.now) }
{
    match place.sort {
        Sort::Of(ty) => {
            let mut faults = right.misfits(alloc, ty, at)?;
            faults.append(right.call_target(alloc, is_variable(&place.expr), at)?)?;
            Ok(faults)
        }
        Sort::AnyPointer => Ok(Seq::new(alloc)),
    }
}

fn assign_faults(
    alloc: Global,
    op: Op,
    place: &Value,
    at: usize,
    right: &RightValue,
) -> Result<Seq<Fault>, Memory>
    ensures { IfOk result (λ fs. fs ≡ assign_faults op place.now at right.now) }
{
    match op {
        Op::Put => put_faults(alloc, place, at, right),
        Op::Add => change_faults(alloc, place.sort, at, right),
        Op::Sub => change_faults(alloc, place.sort, at, right),
        Op::Mul => change_faults(alloc, place.sort, at, right),
    }
}

/// The rules that an assignment breaks whose sides have types.
fn typed_faults(
    alloc: Global,
    simple: &tree::Simple,
    place: &Value,
    right: &RightValue,
) -> Result<Seq<Fault>, Memory>
    ensures { IfOk result (λ fs. fs ≡ typed_faults simple.now place.now right.now) }
{
    let is_place = is_place(&place.expr);
    let mut faults = unless(alloc, is_place, Rule::NoPlace, simple.place.at)?;
    let more = assign_faults(alloc, simple.op, place, simple.at, right)?;
    faults.append(more)?;
    Ok(faults)
}

/// An assignment whose sides have types.
fn assigned_typed(
    alloc: Global,
    simple: &tree::Simple,
    place: Value,
    right: RightValue,
) -> Result<Checked<Simple>, Memory>
    ensures { IfOk result (λ c. c ≡ assigned simple.now (Typed place) (Typed right)) }
{
    let faults = typed_faults(alloc, simple, &place, &right)?;
    let right = right.right_at(place.sort);
    Ok(Checked {
        made: Simple {
            place: place.expr,
            op: simple.op,
            right,
            at: simple.at,
        },
        faults,
    })
}

fn assigned_broken(
    simple: &tree::Simple,
    place: Expr,
    right: Right,
    faults: Seq<Fault>,
) -> Checked<Simple>
    ensures { result ≡ checked (record { place = place; op = simple.now.op; right = right; at = simple.now.at }) faults }
{
    Checked {
        made: Simple {
            place,
            op: simple.op,
            right,
            at: simple.at,
        },
        faults,
    }
}

fn assigned(
    alloc: Global,
    simple: &tree::Simple,
    place: Judged<Value>,
    right: Judged<RightValue>,
) -> Result<Checked<Simple>, Memory>
    ensures { IfOk result (λ c. c ≡ assigned simple.now place right) }
{
    let none = Expr::Null(0);
    match (place, right) {
        (Judged::Typed(place), Judged::Typed(right)) => assigned_typed(alloc, simple, place, right),
        (Judged::Typed(place), Judged::Broken(faults)) => {
            Ok(assigned_broken(simple, place.expr, Right::Plain(none), faults))
        }
        (Judged::Broken(faults), Judged::Typed(right)) => {
            Ok(assigned_broken(simple, none, right.into_right(), faults))
        }
        (Judged::Broken(mut faults), Judged::Broken(more)) => {
            faults.append(more)?;
            Ok(assigned_broken(simple, none, Right::Plain(Expr::Null(0)), faults))
        }
    }
}

/// An initialiser of a variable of that type.
fn initial(
    alloc: Global,
    written: Written,
    at: usize,
    right: Judged<RightValue>,
) -> Result<Checked<Right>, Memory>
    ensures { IfOk result (λ c. c ≡ initial written at right) }
{
    match (written, right) {
        (_, Judged::Broken(faults)) => Ok(Checked {
            made: Right::Plain(Expr::Null(0)),
            faults,
        }),
        (Written::Good(ty), Judged::Typed(right)) => {
            let faults = right.misfits(alloc, ty, at)?;
            Ok(Checked {
                made: right.right_for(ty),
                faults,
            })
        }
        (Written::Bad(_), Judged::Typed(right)) => Ok(Checked {
            made: right.into_right(),
            faults: Seq::new(alloc),
        }),
    }
}

/// A returned value.
fn returned_value(
    alloc: Global,
    returns: Returned,
    at: usize,
    right: Judged<RightValue>,
) -> Result<Checked<Right>, Memory>
    ensures { IfOk result (λ c. c ≡ returned_value returns at right) }
{
    match (returns, right) {
        (_, Judged::Broken(faults)) => Ok(Checked {
            made: Right::Plain(Expr::Null(0)),
            faults,
        }),
        (Returned::Nothing, Judged::Typed(right)) => Ok(Checked {
            made: right.into_right(),
            faults: one_fault(alloc, Rule::VoidValue, at)?,
        }),
        (Returned::Value(ty), Judged::Typed(right)) => {
            let faults = right.misfits(alloc, ty, at)?;
            Ok(Checked {
                made: right.right_for(ty),
                faults,
            })
        }
        (Returned::Bad(_), Judged::Typed(right)) => Ok(Checked {
            made: right.into_right(),
            faults: Seq::new(alloc),
        }),
    }
}

fn bare_return(alloc: Global, returns: Returned, at: usize) -> Result<Seq<Fault>, Memory>
    ensures { IfOk result (λ fs. fs ≡ bare_return returns at) }
{
    match returns {
        Returned::Nothing => Ok(Seq::new(alloc)),
        Returned::Value(_) => one_fault(alloc, Rule::VoidValue, at),
        Returned::Bad(_) => Ok(Seq::new(alloc)),
    }
}

fn call_item(alloc: Global, called: Judged<Called>) -> Checked<Item>
    ensures { result ≡ call_item called }
{
    match called {
        Judged::Typed(called) => Checked {
            made: Item::Do(called.call),
            faults: Seq::new(alloc),
        },
        Judged::Broken(faults) => Checked {
            made: Item::Declare(Seq::new(alloc)),
            faults,
        },
    }
}

impl Walk {
    fn right(&mut self, alloc: Global, right: &tree::Right) -> Result<Judged<RightValue>, Memory>
        ensures { IfOk result (λ r. (self.new, r) ≡ walked_right right.now self.old) }
    {
        match right {
            tree::Right::Plain(arg) => {
                let value = self.scope.judged(alloc, &arg.expr, false)?;
                Ok(of_plain(value))
            }
            tree::Right::Call(call) => {
                let called = self.call(alloc, call)?;
                of_call(alloc, called)
            }
        }
    }

    pub(crate) fn simple(&mut self, alloc: Global, simple: &tree::Simple) -> Result<Simple, Memory>
        ensures { IfOk result (λ s. (self.new, s) ≡ walked_simple simple.now self.old) }
    {
        let place = self.scope.judged(alloc, &simple.place.expr, false)?;
        let right = self.right(alloc, &simple.right)?;
        let Checked { made, faults } = assigned(alloc, simple, place, right)?;
        self.note(faults)?;
        Ok(made)
    }

    fn initial(
        &mut self,
        alloc: Global,
        written: Written,
        at: usize,
        right: &Option<tree::Right>,
    ) -> Result<Option<Right>, Memory>
        ensures { IfOk result (λ r. (self.new, r) ≡ walked_initial written at right.now self.old) }
    {
        match right {
            None => Ok(None),
            Some(right) => {
                let right = self.right(alloc, right)?;
                let Checked { made, faults } = initial(alloc, written, at, right)?;
                self.note(faults)?;
                Ok(Some(made))
            }
        }
    }

    pub(crate) fn declr(
        &mut self,
        alloc: Global,
        nesting: Nesting,
        declr: &tree::Declr,
    ) -> Result<Declr, Memory>
        ensures { IfOk result (λ d. (self.new, d) ≡ walked_declr nesting declr.now self.old) }
    {
        let var = self.vars.len();
        let home = Home::Local(nesting.function);
        let written = self.declare(alloc, &declr.spec, home, nesting.depth)?;
        let right = self.initial(alloc, written, declr.at, &declr.right)?;
        Ok(Declr {
            var,
            right,
            at: declr.at,
        })
    }

    pub(crate) fn returned(
        &mut self,
        alloc: Global,
        returns: Returned,
        at: usize,
        right: &Option<tree::Right>,
    ) -> Result<Item, Memory>
        ensures { IfOk result (λ i. (self.new, i) ≡ walked_return returns at right.now self.old) }
    {
        match right {
            None => {
                let faults = bare_return(alloc, returns, at)?;
                self.note(faults)?;
                Ok(Item::Return(None, at))
            }
            Some(right) => {
                let right = self.right(alloc, right)?;
                let Checked { made, faults } = returned_value(alloc, returns, at, right)?;
                self.note(faults)?;
                Ok(Item::Return(Some(made), at))
            }
        }
    }

    pub(crate) fn called(&mut self, alloc: Global, call: &tree::Call) -> Result<Item, Memory>
        ensures { IfOk result (λ i. (self.new, i) ≡ walked_do call.now self.old) }
    {
        let called = self.call(alloc, call)?;
        let Checked { made, faults } = call_item(alloc, called);
        self.note(faults)?;
        Ok(made)
    }
}
