// Sizes and requests (C99 6.5.3.4, 7.20.3.3).
ghost use Rattle.std.specs.Prelude.{◌≡◌, IfOk};
ghost use Rattle.std.specs.Option.{option_copied};
ghost use Rattle.c_types.specs.Calls.{behind, cast_of, cast_type, request, request_behind, request_many, request_of, request_one, requested, row_measured, struct_measured, target_measured, type_measured, unit_measured};
ghost use Rattle.c_types.specs.Judged.{of_one, of_two};

use crate::faults::{Fault, Rule};
use crate::judged::{Called, Checked, Gives, Judged, Measured, Request, Sort, Value};
use crate::scope::{BaseType, Scope, StructRow, Written};
use crate::untyped::{both, breaks};
use c_tree::tree::{Spec, Unit};
use c_tree::{Call, Size, Ty, tree};
use mf_list::{Memory, Seq};
use sqlite_items::Boxed;
use std::alloc::Global;

fn row_measured(
    alloc: Global,
    number: usize,
    at: usize,
    row: Option<&StructRow>,
) -> Result<Judged<Measured>, Memory>
    ensures { IfOk result (λ j. j ≡ row_measured number at (option_copied row.entry)) }
{
    match row {
        None => breaks(alloc, Rule::NoBody, at),
        Some(row) => match row.body {
            None => breaks(alloc, Rule::NoBody, at),
            Some(_) => Ok(Judged::Typed(Measured::Struct(number))),
        },
    }
}

fn request(size: Size, points: Ty, cast: Option<Ty>, at: usize) -> Judged<Called>
    ensures { result ≡ request size points cast at }
{
    Judged::Typed(Called {
        call: Call::Malloc(size, at),
        gives: Gives::Requested(Request { points, cast, at }),
        at,
    })
}

fn request_one(cast: Option<Ty>, at: usize, unit: Measured) -> Judged<Called>
    ensures { result ≡ request_one cast at unit }
{
    match unit {
        Measured::Int => request(Size::Ints(None), Ty::IntPtr, cast, at),
        Measured::Struct(number) => request(Size::Fields(number), Ty::StructPtr(number), cast, at),
    }
}

fn request_many(
    alloc: Global,
    cast: Option<Ty>,
    at: usize,
    unit: Measured,
    count: Value,
) -> Result<Judged<Called>, Memory>
    ensures { IfOk result (λ j. j ≡ request_many cast at unit count) }
{
    match unit {
        Measured::Int => {
            if count.sort.is_int() {
                let count = Boxed::new(alloc, count.expr)?;
                Ok(request(Size::Ints(Some(count)), Ty::IntPtr, cast, at))
            } else {
                breaks(alloc, Rule::Request, at)
            }
        }
        Measured::Struct(_) => breaks(alloc, Rule::Request, at),
    }
}

fn of_one_unit(cast: Option<Ty>, at: usize, unit: Judged<Measured>) -> Judged<Called>
    ensures { result ≡ of_one (request_one cast at) unit }
{
    match unit {
        Judged::Typed(unit) => request_one(cast, at, unit),
        Judged::Broken(faults) => Judged::Broken(faults),
    }
}

#[tactic(auto, using(crate::proofs::JudgedLaws::of_two_both))]
fn of_count(
    alloc: Global,
    cast: Option<Ty>,
    at: usize,
    unit: Judged<Measured>,
    count: Judged<Value>,
) -> Result<Judged<Called>, Memory>
    ensures { IfOk result (λ j. j ≡ of_two (request_many cast at) unit count) }
{
    match both(unit, count)? {
        Judged::Typed((unit, count)) => request_many(alloc, cast, at, unit, count),
        Judged::Broken(faults) => Ok(Judged::Broken(faults)),
    }
}

/// A part behind another one that may break rules.
fn behind(alloc: Global, faults: Seq<Fault>, part: Judged<Called>) -> Result<Judged<Called>, Memory>
    ensures { IfOk result (λ j. j ≡ behind faults part) }
{
    if faults.is_empty() {
        return Ok(part);
    }
    let mut faults = faults;
    faults.append(part.into_faults(alloc))?;
    Ok(Judged::Broken(faults))
}

fn cast_type(alloc: Global, written: Written) -> Result<Checked<Option<Ty>>, Memory>
    ensures { IfOk result (λ c. c ≡ cast_type written) }
{
    match written {
        Written::Good(ty) => Ok(Checked {
            made: Some(ty),
            faults: Seq::new(alloc),
        }),
        Written::Bad(fault) => {
            let mut faults = Seq::new(alloc);
            faults.push(fault)?;
            Ok(Checked { made: None, faults })
        }
    }
}

impl Scope {
    fn struct_measured(
        &self,
        alloc: Global,
        at: usize,
        number: usize,
    ) -> Result<Judged<Measured>, Memory>
        ensures { IfOk result (λ j. j ≡ struct_measured self.now at number) }
    {
        row_measured(alloc, number, at, self.structs.get(number))
    }

    fn type_measured(
        &self,
        alloc: Global,
        at: usize,
        stars: usize,
        base: BaseType,
    ) -> Result<Judged<Measured>, Memory>
        ensures { IfOk result (λ j. j ≡ type_measured self.now at stars base) }
    {
        match base {
            BaseType::Bad(fault) => {
                let mut faults = Seq::new(alloc);
                faults.push(fault)?;
                Ok(Judged::Broken(faults))
            }
            BaseType::Void => breaks(alloc, Rule::Operands, at),
            BaseType::Int => {
                if stars == 0 {
                    Ok(Judged::Typed(Measured::Int))
                } else {
                    breaks(alloc, Rule::Operands, at)
                }
            }
            BaseType::Struct(number) => {
                if stars == 0 {
                    self.struct_measured(alloc, at, number)
                } else {
                    breaks(alloc, Rule::Operands, at)
                }
            }
        }
    }

    fn target_measured(
        &self,
        alloc: Global,
        at: usize,
        sort: Sort,
    ) -> Result<Judged<Measured>, Memory>
        ensures { IfOk result (λ j. j ≡ target_measured self.now at sort) }
    {
        match sort {
            Sort::Of(Ty::IntPtr) => Ok(Judged::Typed(Measured::Int)),
            Sort::Of(Ty::StructPtr(number)) => self.struct_measured(alloc, at, number),
            Sort::Of(Ty::Int) => breaks(alloc, Rule::Operands, at),
            Sort::AnyPointer => breaks(alloc, Rule::Operands, at),
        }
    }

    fn of_target(
        &self,
        alloc: Global,
        at: usize,
        of: Judged<Value>,
    ) -> Result<Judged<Measured>, Memory>
        ensures { IfOk result (λ j. j ≡ of_one (λ (v : Value). target_measured self.now at v.sort) of) }
    {
        match of {
            Judged::Typed(of) => self.target_measured(alloc, at, of.sort),
            Judged::Broken(faults) => Ok(Judged::Broken(faults)),
        }
    }

    /// What `sizeof` is asked of.
    fn unit_measured(
        &mut self,
        alloc: Global,
        unit: &Unit,
        at: usize,
    ) -> Result<Judged<Measured>, Memory>
        ensures { IfOk result (λ j. (self.new, j) ≡ unit_measured unit.now at self.old) }
    {
        match unit {
            Unit::Of(spec) => {
                let base = self.based(alloc, &spec.base)?;
                self.type_measured(alloc, at, spec.stars, base)
            }
            Unit::Star(word) => {
                let of = self.variable(alloc, word)?;
                self.of_target(alloc, at, of)
            }
        }
    }

    fn request_of(
        &self,
        alloc: Global,
        cast: Option<Ty>,
        at: usize,
        unit: Judged<Measured>,
        count: &Option<Boxed<tree::Expr>>,
    ) -> Result<Judged<Called>, Memory>
        ensures { IfOk result (λ j. j ≡ request_of self.now cast at unit count.now) }
    {
        match count {
            None => Ok(of_one_unit(cast, at, unit)),
            Some(count) => {
                let count = self.judged(alloc, count.get(), false)?;
                of_count(alloc, cast, at, unit, count)
            }
        }
    }

    fn cast_of(&mut self, alloc: Global, cast: &Option<Spec>) -> Result<Checked<Option<Ty>>, Memory>
        ensures { IfOk result (λ c. (self.new, c) ≡ cast_of cast.now self.old) }
    {
        match cast {
            None => Ok(Checked {
                made: None,
                faults: Seq::new(alloc),
            }),
            Some(spec) => {
                let written = self.spec_type(alloc, spec)?;
                cast_type(alloc, written)
            }
        }
    }

    fn request_behind(
        &mut self,
        alloc: Global,
        cast: Checked<Option<Ty>>,
        size: &tree::Size,
        at: usize,
    ) -> Result<Judged<Called>, Memory>
        ensures { IfOk result (λ j. (self.new, j) ≡ request_behind cast size.now at self.old) }
    {
        let unit = self.unit_measured(alloc, &size.unit, size.at)?;
        let call = self.request_of(alloc, cast.made, at, unit, &size.count)?;
        behind(alloc, cast.faults, call)
    }

    /// A request with its cast, where it has one.
    pub(crate) fn requested(
        &mut self,
        alloc: Global,
        cast: &Option<Spec>,
        size: &tree::Size,
        at: usize,
    ) -> Result<Judged<Called>, Memory>
        ensures { IfOk result (λ j. (self.new, j) ≡ requested cast.now size.now at self.old) }
    {
        let cast = self.cast_of(alloc, cast)?;
        self.request_behind(alloc, cast, size, at)
    }
}
