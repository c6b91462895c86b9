// The types of expressions (C99 6.5).
ghost use Rattle.std.specs.Prelude.{◌≡◌, IfOk};
ghost use Rattle.std.specs.Option.{option_copied};
ghost use Rattle.c_tree.specs.declared.expr.Expr.TheVariants as expr;
ghost use Rattle.c_types.specs.Expressions.{combined, compared, computed, deref, field, field_in, field_of_row, index, joined, judged, of_int, points_to_int, signed, typed, under_oper, under_sign, variable, variable_as};
ghost use Rattle.c_types.specs.Judged.{of_one, of_two};

use crate::faults::Rule;
use crate::judged::{Judged, Sort, Value};
use crate::scope::{Meaning, Scope, StructRow, Written};
use crate::untyped::{both, breaks};
use c_tree::tree::Word;
use c_tree::{Expr, Oper, Sign, Ty, tree};
use mf_list::{Memory, Seq};
use sqlite_items::Boxed;
use std::alloc::Global;

fn typed(expr: Expr, sort: Sort) -> Judged<Value>
    ensures { result ≡ typed expr sort }
{
    Judged::Typed(Value { expr, sort })
}

fn of_int(expr: Expr) -> Judged<Value>
    ensures { result ≡ of_int expr }
{
    typed(expr, Sort::Of(Ty::Int))
}

fn variable_as(alloc: Global, word: &Word, meaning: Meaning) -> Result<Judged<Value>, Memory>
    ensures { IfOk result (λ j. j ≡ variable_as word.now meaning) }
{
    match meaning {
        Meaning::Variable(number, ty) => Ok(typed(Expr::Var(number, word.at), Sort::Of(ty))),
        Meaning::Alias(_) => breaks(alloc, Rule::Unknown, word.at),
        Meaning::Function(_) => breaks(alloc, Rule::Unknown, word.at),
        Meaning::Bad(fault) => {
            let mut faults = Seq::new(alloc);
            faults.push(fault)?;
            Ok(Judged::Broken(faults))
        }
    }
}

/// A field of a struct with a body.
fn field_in(
    alloc: Global,
    of: Expr,
    word: &Word,
    at: usize,
    row: &StructRow,
) -> Result<Judged<Value>, Memory>
    ensures { IfOk result (λ j. j ≡ field_in of word.now at row.now row.now.body) }
{
    if row.body.is_none() {
        return breaks(alloc, Rule::NoBody, at);
    }
    let name = word.text.as_slice();
    match (row.fields.place(name), row.fields.find(name).copied()) {
        (Some(number), Some(Written::Good(ty))) => {
            let of = Boxed::new(alloc, of)?;
            Ok(typed(Expr::Field(of, number, at), Sort::Of(ty)))
        }
        (Some(_), Some(Written::Bad(fault))) => {
            let mut faults = Seq::new(alloc);
            faults.push(fault)?;
            Ok(Judged::Broken(faults))
        }
        (Some(_), None) => breaks(alloc, Rule::Unknown, word.at),
        (None, _) => breaks(alloc, Rule::Unknown, word.at),
    }
}

fn field_of_row(
    alloc: Global,
    of: Expr,
    word: &Word,
    at: usize,
    row: Option<&StructRow>,
) -> Result<Judged<Value>, Memory>
    ensures { IfOk result (λ j. j ≡ field_of_row of word.now at (option_copied row.entry)) }
{
    match row {
        None => breaks(alloc, Rule::NoBody, at),
        Some(row) => field_in(alloc, of, word, at, row),
    }
}

/// `*` before a value (C99 6.5.3.2).
fn deref(alloc: Global, at: usize, of: Value) -> Result<Judged<Value>, Memory>
    ensures { IfOk result (λ j. j ≡ deref at of) }
{
    if of.sort.same_sort(Sort::Of(Ty::IntPtr)) {
        Ok(of_int(Expr::Deref(Boxed::new(alloc, of.expr)?, at)))
    } else {
        breaks(alloc, Rule::Operands, at)
    }
}

/// A value with an index (C99 6.5.2.1).
fn index(alloc: Global, at: usize, of: Value, place: Value) -> Result<Judged<Value>, Memory>
    ensures { IfOk result (λ j. j ≡ index at of place) }
{
    if of.sort.same_sort(Sort::Of(Ty::IntPtr)) && place.sort.is_int() {
        let of = Boxed::new(alloc, of.expr)?;
        let place = Boxed::new(alloc, place.expr)?;
        Ok(of_int(Expr::Index(of, place, at)))
    } else {
        breaks(alloc, Rule::Operands, at)
    }
}

/// `-` or `!` before a value (C99 6.5.3.3).
fn signed(alloc: Global, sign: Sign, at: usize, of: Value) -> Result<Judged<Value>, Memory>
    ensures { IfOk result (λ j. j ≡ signed sign at of) }
{
    match sign {
        Sign::Minus => {
            if of.sort.is_int() {
                let of = Boxed::new(alloc, of.expr)?;
                Ok(of_int(Expr::Unary(Sign::Minus, of, at)))
            } else {
                breaks(alloc, Rule::Operands, at)
            }
        }
        Sign::Not => {
            let of = Boxed::new(alloc, of.expr)?;
            Ok(of_int(Expr::Unary(Sign::Not, of, at)))
        }
    }
}

fn binary(
    alloc: Global,
    oper: Oper,
    left: Expr,
    right: Expr,
    at: usize,
) -> Result<Judged<Value>, Memory>
    ensures { IfOk result (λ j. j ≡ of_int (expr.Binary oper left right at)) }
{
    let left = Boxed::new(alloc, left)?;
    let right = Boxed::new(alloc, right)?;
    Ok(of_int(Expr::Binary(oper, left, right, at)))
}

/// Arithmetic and order (C99 6.5.5, 6.5.6, 6.5.8).
fn computed(
    alloc: Global,
    oper: Oper,
    at: usize,
    left: Value,
    right: Value,
) -> Result<Judged<Value>, Memory>
    ensures { IfOk result (λ j. j ≡ computed oper at left right) }
{
    if left.sort.is_int() && right.sort.is_int() {
        binary(alloc, oper, left.expr, right.expr, at)
    } else {
        breaks(alloc, Rule::Operands, at)
    }
}

/// `==` and `!=` (C99 6.5.9).
fn compared(
    alloc: Global,
    oper: Oper,
    at: usize,
    left: Value,
    right: Value,
) -> Result<Judged<Value>, Memory>
    ensures { IfOk result (λ j. j ≡ compared oper at left right) }
{
    if left.is_comparable(&right) {
        let (left_sort, right_sort) = (left.sort, right.sort);
        binary(
            alloc,
            oper,
            left.beside(right_sort),
            right.beside(left_sort),
            at,
        )
    } else {
        breaks(alloc, Rule::Operands, at)
    }
}

/// `&&` and `||` (C99 6.5.13, 6.5.14).
fn joined(
    alloc: Global,
    oper: Oper,
    at: usize,
    is_test: bool,
    left: Value,
    right: Value,
) -> Result<Judged<Value>, Memory>
    ensures { IfOk result (λ j. j ≡ joined oper at is_test left right) }
{
    if is_test {
        binary(alloc, oper, left.expr, right.expr, at)
    } else {
        breaks(alloc, Rule::LooseLogic, at)
    }
}

fn combined(
    alloc: Global,
    oper: Oper,
    at: usize,
    is_test: bool,
    left: Value,
    right: Value,
) -> Result<Judged<Value>, Memory>
    ensures { IfOk result (λ j. j ≡ combined oper at is_test left right) }
{
    match oper {
        Oper::And | Oper::Or => joined(alloc, oper, at, is_test, left, right),
        Oper::Eq | Oper::Ne => compared(alloc, oper, at, left, right),
        _ => computed(alloc, oper, at, left, right),
    }
}

/// Whether the operand of a sign is a condition.
fn under_sign(sign: Sign, is_test: bool) -> bool
    ensures { result ≡ under_sign sign is_test }
{
    match sign {
        Sign::Minus => false,
        Sign::Not => is_test,
    }
}

/// Whether the operands of an operator are conditions.
fn under_oper(oper: Oper, is_test: bool) -> bool
    ensures { result ≡ under_oper oper is_test }
{
    match oper {
        Oper::And | Oper::Or => is_test,
        _ => false,
    }
}

fn of_deref(alloc: Global, at: usize, of: Judged<Value>) -> Result<Judged<Value>, Memory>
    ensures { IfOk result (λ j. j ≡ of_one (deref at) of) }
{
    match of {
        Judged::Typed(of) => deref(alloc, at, of),
        Judged::Broken(faults) => Ok(Judged::Broken(faults)),
    }
}

fn of_sign(alloc: Global, sign: Sign, at: usize, of: Judged<Value>) -> Result<Judged<Value>, Memory>
    ensures { IfOk result (λ j. j ≡ of_one (signed sign at) of) }
{
    match of {
        Judged::Typed(of) => signed(alloc, sign, at, of),
        Judged::Broken(faults) => Ok(Judged::Broken(faults)),
    }
}

#[tactic(auto, using(crate::proofs::JudgedLaws::of_two_both))]
fn of_index(
    alloc: Global,
    at: usize,
    of: Judged<Value>,
    place: Judged<Value>,
) -> Result<Judged<Value>, Memory>
    ensures { IfOk result (λ j. j ≡ of_two (index at) of place) }
{
    match both(of, place)? {
        Judged::Typed((of, place)) => index(alloc, at, of, place),
        Judged::Broken(faults) => Ok(Judged::Broken(faults)),
    }
}

#[tactic(auto, using(crate::proofs::JudgedLaws::of_two_both))]
fn of_oper(
    alloc: Global,
    oper: Oper,
    at: usize,
    is_test: bool,
    left: Judged<Value>,
    right: Judged<Value>,
) -> Result<Judged<Value>, Memory>
    ensures { IfOk result (λ j. j ≡ of_two (combined oper at is_test) left right) }
{
    match both(left, right)? {
        Judged::Typed((left, right)) => combined(alloc, oper, at, is_test, left, right),
        Judged::Broken(faults) => Ok(Judged::Broken(faults)),
    }
}

impl Scope {
    /// A name as a value.
    pub(crate) fn variable(&self, alloc: Global, word: &Word) -> Result<Judged<Value>, Memory>
        ensures { IfOk result (λ j. j ≡ variable self.now word.now) }
    {
        match self.entry(word) {
            None => breaks(alloc, Rule::Unknown, word.at),
            Some(entry) => variable_as(alloc, word, entry.meaning),
        }
    }

    /// A field of what a value points to (C99 6.5.2.3).
    fn field(
        &self,
        alloc: Global,
        word: &Word,
        at: usize,
        of: Value,
    ) -> Result<Judged<Value>, Memory>
        ensures { IfOk result (λ j. j ≡ field self.now word.now at of) }
    {
        match of.sort {
            Sort::Of(Ty::StructPtr(number)) => {
                field_of_row(alloc, of.expr, word, at, self.structs.get(number))
            }
            Sort::Of(Ty::Int) => breaks(alloc, Rule::Operands, at),
            Sort::Of(Ty::IntPtr) => breaks(alloc, Rule::Operands, at),
            Sort::AnyPointer => breaks(alloc, Rule::Operands, at),
        }
    }

    fn of_field(
        &self,
        alloc: Global,
        word: &Word,
        at: usize,
        of: Judged<Value>,
    ) -> Result<Judged<Value>, Memory>
        ensures { IfOk result (λ j. j ≡ of_one (field self.now word.now at) of) }
    {
        match of {
            Judged::Typed(of) => self.field(alloc, word, at, of),
            Judged::Broken(faults) => Ok(Judged::Broken(faults)),
        }
    }

    /// An expression with its type, by whether it is a condition.
    pub(crate) fn judged(
        &self,
        alloc: Global,
        expr: &tree::Expr,
        is_test: bool,
    ) -> Result<Judged<Value>, Memory>
        ensures { IfOk result (λ j. j ≡ judged self.now expr.now is_test) }
    {
        match expr {
            tree::Expr::Const(number, at) => Ok(of_int(Expr::Const(*number, *at))),
            tree::Expr::Null(at) => Ok(typed(Expr::Null(*at), Sort::AnyPointer)),
            tree::Expr::Var(word) => self.variable(alloc, word),
            tree::Expr::Field(of, word, at) => {
                let of = self.judged(alloc, of.get(), false)?;
                self.of_field(alloc, word, *at, of)
            }
            tree::Expr::Deref(of, at) => {
                let of = self.judged(alloc, of.get(), false)?;
                of_deref(alloc, *at, of)
            }
            tree::Expr::Index(of, place, at) => {
                let of = self.judged(alloc, of.get(), false)?;
                let place = self.judged(alloc, place.get(), false)?;
                of_index(alloc, *at, of, place)
            }
            tree::Expr::Unary(sign, of, at) => {
                let of = self.judged(alloc, of.get(), under_sign(*sign, is_test))?;
                of_sign(alloc, *sign, *at, of)
            }
            tree::Expr::Binary(oper, left, right, at) => {
                let left = self.judged(alloc, left.get(), under_oper(*oper, is_test))?;
                let right = self.judged(alloc, right.get(), under_oper(*oper, is_test))?;
                of_oper(alloc, *oper, *at, is_test, left, right)
            }
        }
    }
}
