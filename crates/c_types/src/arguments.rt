// The arguments of calls (C99 6.5.2.2).
ghost use Rattle.std.specs.Prelude.{◌≡◌, IfOk, slice_get};
ghost use Rattle.std.specs.Option.{option_copied};
ghost use Rattle.c_types.specs.Calls.{argument, argument_by, arguments, miscounted};

use crate::faults::{Fault, Rule};
use crate::fits::{converted, unless};
use crate::judged::{Checked, Judged, Value};
use crate::scope::Scope;
use c_tree::tree::Arg;
use c_tree::{Expr, Ty};
use mf_list::{Memory, Seq};
use std::alloc::Global;

fn param(params: &[Ty], place: usize) -> Option<&Ty>
    ensures { option_copied result ≡ slice_get params.now place }
{
    params.get(place)
}

fn argument_by(
    alloc: Global,
    ty: Option<Ty>,
    at: usize,
    value: Judged<Value>,
) -> Result<Checked<Expr>, Memory>
    ensures { IfOk result (λ c. c ≡ argument_by ty at value) }
{
    match (ty, value) {
        (None, Judged::Typed(value)) => Ok(Checked {
            made: value.expr,
            faults: Seq::new(alloc),
        }),
        (Some(ty), Judged::Typed(value)) => {
            let faults = unless(alloc, value.fits(ty), Rule::TypesDiffer, at)?;
            Ok(Checked {
                made: converted(ty, value.expr),
                faults,
            })
        }
        (_, Judged::Broken(faults)) => Ok(Checked {
            made: Expr::Null(0),
            faults,
        }),
    }
}

/// The faults of arguments, or that of their number.
pub(crate) fn miscounted(
    alloc: Global,
    faults: Seq<Fault>,
    wanted: usize,
    given: usize,
    at: usize,
) -> Result<Seq<Fault>, Memory>
    ensures { IfOk result (λ fs. fs ≡ miscounted faults wanted given at) }
{
    if faults.is_empty() {
        unless(alloc, wanted == given, Rule::ArgumentCount, at)
    } else {
        Ok(faults)
    }
}

impl Scope {
    /// An argument for a parameter of that type, where it has one.
    pub(crate) fn argument(
        &self,
        alloc: Global,
        ty: Option<Ty>,
        arg: &Arg,
    ) -> Result<Checked<Expr>, Memory>
        ensures { IfOk result (λ c. c ≡ argument self.now ty arg.now) }
    {
        let value = self.judged(alloc, &arg.expr, false)?;
        argument_by(alloc, ty, arg.at, value)
    }

    /// The arguments of a call, each for the parameter at its place.
    pub(crate) fn arguments(
        &self,
        alloc: Global,
        params: &[Ty],
        args: &[Arg],
    ) -> Result<Checked<Seq<Expr>>, Memory>
        ensures { IfOk result (λ c. c ≡ arguments self.now params.now args.now) }
    {
        let mut made = Seq::new(alloc);
        let mut faults = Seq::new(alloc);
        for (place, arg) in args.iter().enumerate() {
            let argument = self.argument(alloc, param(params, place).copied(), arg)?;
            made.push(argument.made)?;
            faults.append(argument.faults)?;
        }
        Ok(Checked { made, faults })
    }
}
