// What the action at a node does to pointers over one of its edges.
ghost use Rattle.std.specs.Prelude.{◌≡◌, ◌++◌, false, IfOk, OnOk};
ghost use Rattle.std.specs.List.{flat_map};
ghost use Rattle.std.specs.Option.{option_and_then};
ghost use Rattle.ts_domain.specs.Deeds.{assign_deeds, change_deeds, is_null, looked_at, made, malloc_deeds, place_deeds, put_deeds, return_deeds, returned_any, sets, sets_field, simple_deeds, size_deeds, source_behind, source_of, unset, written, written_any};
ghost use Rattle.ts_domain.specs.Looks.{is_noted, notes, value_deeds};
ghost use Rattle.ts_domain.specs.Pointers.{place_of};

use crate::deed::{Deed, Looked, Source};
use crate::looks::{itself, pointer_of, value_deeds, within};
use crate::names::{Names, Read};
use crate::pointers::{Pointer, field_pointer, place_of};
use c_graph::Way;
use c_tree::{Expr, Op, Right, Simple, Size, Ty};
use mf_list::{Memory, Seq};
use std::alloc::Global;

fn is_noted(deed: &Deed) -> bool
    ensures { result ≡ is_noted deed.now }
{
    match deed {
        Deed::Reads(Read::Deep(_, _), noted) => *noted,
        Deed::Reads(Read::Name(_), _) => false,
        Deed::Follows(_) => false,
        Deed::Says(_) => false,
        Deed::Sets(_, _) => false,
        Deed::SetsField(_, _, _, _) => false,
    }
}

/// How many noted reads through longer chains there are.
pub fn notes(deeds: &[Deed]) -> usize
    ensures { result ≡ notes deeds.now }
{
    deeds.iter().filter(|deed| is_noted(deed)).count()
}

/// What a read looks at, behind that many noted reads.
pub fn looked_at(notes: usize, read: Read) -> Looked
    ensures { result ≡ looked_at notes read }
{
    match read {
        Read::Name(place) => Looked::Name(place),
        Read::Deep(of, field) => Looked::Deep(of, field, notes),
    }
}

/// A null pointer, written as `NULL` or as the constant 0 (C99 6.3.2.3p3).
pub fn is_null(expr: &Expr) -> bool
    ensures { result ≡ is_null expr.now }
{
    match expr {
        Expr::Null(_) => true,
        Expr::Const(value, _) => *value == 0,
        Expr::Var(_, _) => false,
        Expr::Field(_, _, _) => false,
        Expr::Deref(_, _) => false,
        Expr::Index(_, _, _) => false,
        Expr::Unary(_, _, _) => false,
        Expr::Binary(_, _, _, _) => false,
    }
}

/// What the value of an expression is where it is written, if it is a pointer; `before` are the deeds before its own read.
fn source_behind(names: &Names, before: &[Deed], expr: &Expr) -> Option<Source>
    ensures { result ≡ source_behind names.now before.now expr.now }
{
    if is_null(expr) {
        return Some(Source::Null);
    }
    match pointer_of(names, expr) {
        None => None,
        Some(pointer) => Some(Source::Content(looked_at(notes(before), pointer.read))),
    }
}

/// Adds what the evaluation of an expression does, and answers what its value is where it is written.
pub fn valued(
    list: &mut Seq<Deed>,
    names: &Names,
    noted: bool,
    expr: &Expr,
) -> Result<Option<Source>, Memory>
    ensures deeds { OnOk result (list.new ≡ list.old ++ value_deeds names.now noted expr.now) }
    ensures source { IfOk result (λ v. v ≡ source_of names.now list.old expr.now) }
{
    within(list, names, expr)?;
    let source = source_behind(names, list.as_slice(), expr);
    itself(list, noted, pointer_of(names, expr))?;
    Ok(source)
}

/// Adds the write of a variable, if there is one.
pub fn sets(list: &mut Seq<Deed>, place: Option<usize>, source: Source) -> Result<(), Memory>
    ensures { OnOk result (list.new ≡ list.old ++ sets place source) }
{
    match place {
        None => Ok(()),
        Some(place) => list.push(Deed::Sets(place, source)),
    }
}

fn sets_field(
    list: &mut Seq<Deed>,
    names: &Names,
    field: usize,
    source: Source,
    base: Option<Pointer>,
) -> Result<(), Memory>
    ensures { OnOk result (list.new ≡ list.old ++ sets_field names.now field source base) }
{
    let Some(base) = base else {
        return Ok(());
    };
    if field_pointer(names, field, base).is_none() {
        return Ok(());
    }
    match base.ty {
        Ty::Int => Ok(()),
        Ty::IntPtr => Ok(()),
        Ty::StructPtr(of) => list.push(Deed::SetsField(base.read, of, field, source)),
    }
}

/// Adds the write to a place, if it is a pointer (C99 6.5.16).
pub fn written(
    list: &mut Seq<Deed>,
    names: &Names,
    place: &Expr,
    source: Source,
) -> Result<(), Memory>
    ensures { OnOk result (list.new ≡ list.old ++ written names.now place.now source) }
{
    match place {
        Expr::Var(variable, _) => sets(list, place_of(names, *variable), source),
        Expr::Field(base, field, _) => {
            sets_field(list, names, *field, source, pointer_of(names, base.get()))
        }
        Expr::Const(_, _) => Ok(()),
        Expr::Null(_) => Ok(()),
        Expr::Deref(_, _) => Ok(()),
        Expr::Index(_, _, _) => Ok(()),
        Expr::Unary(_, _, _) => Ok(()),
        Expr::Binary(_, _, _, _) => Ok(()),
    }
}

/// Adds the write to a place, where there is one.
fn written_any(
    list: &mut Seq<Deed>,
    names: &Names,
    place: &Option<Expr>,
    source: Source,
) -> Result<(), Memory>
    ensures { OnOk result (list.new ≡ list.old ++ written_any names.now place.now source) }
{
    match place {
        None => Ok(()),
        Some(place) => written(list, names, place, source),
    }
}

/// Adds what working out a place does, where there is one.
pub fn place_deeds(list: &mut Seq<Deed>, names: &Names, place: &Option<Expr>) -> Result<(), Memory>
    ensures { OnOk result (list.new ≡ list.old ++ place_deeds names.now place.now) }
{
    match place {
        None => Ok(()),
        Some(place) => within(list, names, place),
    }
}

fn size_deeds(list: &mut Seq<Deed>, names: &Names, size: &Size) -> Result<(), Memory>
    ensures { OnOk result (list.new ≡ list.old ++ size_deeds names.now size.now) }
{
    match size {
        Size::Fields(_) => Ok(()),
        Size::Ints(None) => Ok(()),
        Size::Ints(Some(count)) => value_deeds(list, names, false, count.get()),
    }
}

/// An assignment: the place, the right side, the write.
fn put_deeds(alloc: Global, names: &Names, place: &Expr, value: &Expr) -> Result<Seq<Deed>, Memory>
    ensures { IfOk result (λ list. list ≡ put_deeds names.now place.now value.now) }
{
    let mut list = Seq::new(alloc);
    within(&mut list, names, place)?;
    let noted = pointer_of(names, place).is_some();
    match valued(&mut list, names, noted, value)? {
        None => Ok(list),
        Some(source) => {
            written(&mut list, names, place, source)?;
            Ok(list)
        }
    }
}

/// A change: it writes no pointer.
fn change_deeds(
    alloc: Global,
    names: &Names,
    place: &Expr,
    value: &Expr,
) -> Result<Seq<Deed>, Memory>
    ensures { IfOk result (λ list. list ≡ change_deeds names.now place.now value.now) }
{
    let mut list = Seq::new(alloc);
    within(&mut list, names, place)?;
    value_deeds(&mut list, names, false, value)?;
    Ok(list)
}

fn assign_deeds(
    alloc: Global,
    names: &Names,
    place: &Expr,
    op: Op,
    value: &Expr,
) -> Result<Seq<Deed>, Memory>
    ensures { IfOk result (λ list. list ≡ assign_deeds names.now place.now op value.now) }
{
    match op {
        Op::Put => put_deeds(alloc, names, place, value),
        Op::Add => change_deeds(alloc, names, place, value),
        Op::Sub => change_deeds(alloc, names, place, value),
        Op::Mul => change_deeds(alloc, names, place, value),
    }
}

pub fn simple_deeds(alloc: Global, names: &Names, simple: &Simple) -> Result<Seq<Deed>, Memory>
    ensures { IfOk result (λ list. list ≡ simple_deeds names.now simple.now simple.now.right) }
{
    match &simple.right {
        Right::Plain(value) => assign_deeds(alloc, names, &simple.place, simple.op, value),
        Right::Call(_) => Ok(Seq::new(alloc)),
    }
}

/// A request gives an object of its site, or the null pointer (C99 7.20.3.3).
fn made(
    list: &mut Seq<Deed>,
    names: &Names,
    place: &Option<Expr>,
    site: Option<usize>,
    way: Way,
) -> Result<(), Memory>
    ensures { OnOk result (list.new ≡ list.old ++ made names.now place.now site way) }
{
    match way {
        Way::Made => match site {
            None => Ok(()),
            Some(site) => written_any(list, names, place, Source::New(site)),
        },
        Way::NotMade => written_any(list, names, place, Source::Null),
        Way::On => Ok(()),
        Way::True => Ok(()),
        Way::False => Ok(()),
        Way::Enter => Ok(()),
        Way::Leave(_) => Ok(()),
    }
}

pub fn malloc_deeds(
    alloc: Global,
    names: &Names,
    place: &Option<Expr>,
    size: &Size,
    site: Option<usize>,
    way: Way,
) -> Result<Seq<Deed>, Memory>
    ensures { IfOk result (λ list. list ≡ malloc_deeds names.now place.now size.now site way) }
{
    let mut list = Seq::new(alloc);
    place_deeds(&mut list, names, place)?;
    size_deeds(&mut list, names, size)?;
    made(&mut list, names, place, site, way)?;
    Ok(list)
}

pub fn print_deeds(alloc: Global, names: &Names, values: &[Expr]) -> Result<Seq<Deed>, Memory>
    ensures { IfOk result (λ list. list ≡ flat_map (value_deeds names.now false) values.now) }
{
    let mut list = Seq::new(alloc);
    for value in values {
        value_deeds(&mut list, names, false, value)?;
    }
    Ok(list)
}

fn unset(list: &mut Seq<Deed>, place: usize) -> Result<(), Memory>
    ensures { OnOk result (list.new ≡ list.old ++ unset place) }
{
    list.push(Deed::Sets(place, Source::Undef))
}

fn all_unset(list: &mut Seq<Deed>, places: &[usize]) -> Result<(), Memory>
    ensures { OnOk result (list.new ≡ list.old ++ flat_map unset places.now) }
{
    for place in places {
        unset(list, *place)?;
    }
    Ok(())
}

/// The value goes to a pointer variable, if that is where it goes; it is noted where it is written.
fn returned(
    alloc: Global,
    names: &Names,
    target: Option<usize>,
    value: &Option<Expr>,
) -> Result<Seq<Deed>, Memory>
    ensures { IfOk result (λ list. list ≡ returned_any names.now target value.now) }
{
    let mut list = Seq::new(alloc);
    let Some(value) = value else {
        return Ok(list);
    };
    match valued(&mut list, names, target.is_some(), value)? {
        None => Ok(list),
        Some(source) => {
            sets(&mut list, target, source)?;
            Ok(list)
        }
    }
}

fn target_place(names: &Names, target: Option<usize>) -> Option<usize>
    ensures { result ≡ option_and_then (place_of names.now) target }
{
    match target {
        None => None,
        Some(variable) => place_of(names, variable),
    }
}

/// Over the way back from a function whose pointer variables have these places, and out of `main`.
pub fn return_deeds(
    alloc: Global,
    names: &Names,
    owned: &[usize],
    value: &Option<Expr>,
    way: Way,
) -> Result<Seq<Deed>, Memory>
    ensures { IfOk result (λ list. list ≡ return_deeds names.now owned.now value.now way) }
{
    match way {
        Way::Leave(target) => {
            let mut list = returned(alloc, names, target_place(names, target), value)?;
            all_unset(&mut list, owned)?;
            Ok(list)
        }
        Way::On => returned(alloc, names, None, value),
        Way::True => Ok(Seq::new(alloc)),
        Way::False => Ok(Seq::new(alloc)),
        Way::Made => Ok(Seq::new(alloc)),
        Way::NotMade => Ok(Seq::new(alloc)),
        Way::Enter => Ok(Seq::new(alloc)),
    }
}
