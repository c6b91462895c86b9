// Parts without types: a rule on a part is looked at only where its own parts have types.
ghost use Rattle.std.specs.Prelude.{◌≡◌, ◌++◌, IfOk};
ghost use Rattle.c_types.specs.Judged.{breaks, faults_of, of_two, or_null, or_null_right, unless_broken};
ghost use Rattle.c_types.specs.declared.judged.Judged.TheVariants.{Typed};

use crate::faults::{Fault, Rule};
use crate::fits::one_fault;
use crate::judged::{Judged, RightValue, Value};
use c_tree::{Expr, Right};
use mf_list::{Memory, Seq};
use std::alloc::Global;

/// A part that breaks a rule.
pub(crate) fn breaks<T: Drop>(alloc: Global, rule: Rule, at: usize) -> Result<Judged<T>, Memory>
    ensures { IfOk result (λ j. j ≡ breaks rule at) }
{
    Ok(Judged::Broken(one_fault(alloc, rule, at)?))
}

/// A part that has a type where it breaks no rule.
pub(crate) fn unless_broken<T: Drop>(part: T, faults: Seq<Fault>) -> Judged<T>
    ensures { result ≡ unless_broken part faults }
{
    if faults.is_empty() {
        Judged::Typed(part)
    } else {
        Judged::Broken(faults)
    }
}

/// Two parts, typed where both are.
pub(crate) fn both<A: Drop, B: Drop>(
    first: Judged<A>,
    second: Judged<B>,
) -> Result<Judged<(A, B)>, Memory>
    ensures { IfOk result (λ j. j ≡ of_two (λ a b. Typed (a, b)) first second) }
{
    match (first, second) {
        (Judged::Typed(first), Judged::Typed(second)) => Ok(Judged::Typed((first, second))),
        (Judged::Typed(_), Judged::Broken(faults)) => Ok(Judged::Broken(faults)),
        (Judged::Broken(faults), Judged::Typed(_)) => Ok(Judged::Broken(faults)),
        (Judged::Broken(mut faults), Judged::Broken(more)) => {
            faults.append(more)?;
            Ok(Judged::Broken(faults))
        }
    }
}

impl<T: Drop> Judged<T> {
    /// The rules that the part breaks.
    pub(crate) fn into_faults(self, alloc: Global) -> Seq<Fault>
        ensures { result ≡ faults_of self }
    {
        match self {
            Judged::Typed(_) => Seq::new(alloc),
            Judged::Broken(faults) => faults,
        }
    }
}

impl Judged<Value> {
    /// The expression, or a null pointer in the place of one without a type.
    pub(crate) fn or_null(self) -> Expr
        ensures { result ≡ or_null self }
    {
        match self {
            Judged::Typed(value) => value.expr,
            Judged::Broken(_) => Expr::Null(0),
        }
    }
}

impl Judged<RightValue> {
    /// The right side without a target, or a null pointer in the place of one without a type.
    pub(crate) fn or_null_right(self) -> Right
        ensures { result ≡ or_null_right self }
    {
        match self {
            Judged::Typed(value) => value.into_right(),
            Judged::Broken(_) => Right::Plain(Expr::Null(0)),
        }
    }
}
