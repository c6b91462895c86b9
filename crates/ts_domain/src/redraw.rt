// The verdicts of a mark, and marks that are drawn anew from changed ones.
ghost use Rattle.std.specs.Prelude.{◌≡◌, ◌<◌, [], slice_get, IfOk};
ghost use Rattle.std.specs.Option.{option_and_then};
ghost use Rattle.ts_domain.specs.Marks.{expressions, field_at, knowledge, told, verdict, with_verdict};
ghost use Rattle.ts_domain.specs.Pointers.{field_place, type_of};
ghost use Rattle.ts_domain.specs.MarkWrites.{agreed, beneath_looked, beneath_source, by_alias, changed, field_verdict, is_pointer_to, points_to, put_beneath, put_verdict, redrawn, set_beneath, set_verdict, settled_verdict};

use crate::aliases::base_alias;
use crate::changes::Change;
use crate::deed::{Looked, Source};
use crate::known::Known;
use crate::marks::{Alias, Mark, Verdict};
use crate::names::{Names, Read};
use crate::pointers::{field_place, type_of};
use crate::sites::{field_at, flows};
use c_tree::Ty;
use mf_list::Memory;
use mf_set::BitSet;
use std::alloc::Global;

/// What a mark says of an expression.
pub fn verdict(mark: &Mark, expression: usize) -> Verdict
    ensures { result ≡ verdict mark.now expression }
{
    if mark.holds.contains(expression) {
        Verdict::Yes
    } else if mark.lacks.contains(expression) {
        Verdict::No
    } else {
        Verdict::Open
    }
}

fn told(mark: &Mark, other: usize, known: Verdict, expression: usize) -> Verdict
    ensures { result ≡ told mark.now other known expression }
{
    if expression == other {
        known
    } else {
        verdict(mark, expression)
    }
}

fn field_verdict(names: &Names, mark: &Mark, variable: usize, field: usize) -> Verdict
    ensures { result ≡ field_verdict names.now mark.now (field_place names.now.fields variable field) }
{
    let vars = names.vars.as_slice();
    let fields = names.fields.as_slice();
    match field_place(fields, variable, field) {
        None => Verdict::Open,
        Some(place) => verdict(mark, vars.len() + place),
    }
}

fn beneath_looked(names: &Names, mark: &Mark, looked: Looked, field: usize) -> Verdict
    ensures { result ≡ beneath_looked names.now mark.now looked field }
{
    match looked {
        Looked::Deep(_, _, _) => Verdict::Open,
        Looked::Name(variable) => {
            if variable < names.vars.len() {
                field_verdict(names, mark, variable, field)
            } else {
                Verdict::Open
            }
        }
    }
}

/// The verdict on a field of what a variable gets.
fn beneath_source(names: &Names, mark: &Mark, source: Source, field: usize) -> Verdict
    ensures { result ≡ beneath_source names.now mark.now source field }
{
    match source {
        Source::Content(looked) => beneath_looked(names, mark, looked, field),
        Source::Null => Verdict::No,
        Source::New(_) => Verdict::No,
        Source::Undef => Verdict::No,
    }
}

fn set_verdict(
    names: &Names,
    mark: &Mark,
    variable: usize,
    source: Source,
    taken: Verdict,
    expression: usize,
) -> Verdict
    ensures { result ≡ set_verdict names.now mark.now variable source taken expression }
{
    if expression == variable {
        return taken;
    }
    match field_at(names, expression) {
        None => verdict(mark, expression),
        Some((of, field)) => {
            if of == variable {
                beneath_source(names, mark, source, field)
            } else {
                verdict(mark, expression)
            }
        }
    }
}

fn is_pointer_to(of: usize, ty: Ty) -> bool
    ensures { result ≡ is_pointer_to of ty }
{
    match ty {
        Ty::Int => false,
        Ty::IntPtr => false,
        Ty::StructPtr(to) => to == of,
    }
}

fn type_at(names: &Names, variable: usize) -> Option<Ty>
    ensures { result ≡ option_and_then (type_of names.now) (slice_get names.now.vars variable) }
{
    match names.vars.get(variable) {
        None => None,
        Some(variable) => type_of(names, *variable),
    }
}

fn points_to(names: &Names, of: usize, variable: usize) -> bool
    ensures { result ≡ points_to names.now of variable }
{
    match type_at(names, variable) {
        None => false,
        Some(ty) => is_pointer_to(of, ty),
    }
}

fn agreed(taken: Verdict, before: Verdict) -> Verdict
    ensures { result ≡ agreed taken before }
{
    match (taken, before) {
        (Verdict::Yes, Verdict::Yes) => Verdict::Yes,
        (Verdict::No, Verdict::No) => Verdict::No,
        _ => Verdict::Open,
    }
}

fn by_alias(alias: Alias, taken: Verdict, before: Verdict) -> Verdict
    ensures { result ≡ by_alias alias taken before }
{
    match alias {
        Alias::Same => taken,
        Alias::Diff => before,
        Alias::Maybe => agreed(taken, before),
    }
}

fn put_verdict(
    known: Known,
    mark: &Mark,
    base: Read,
    of: usize,
    field: usize,
    taken: Verdict,
    expression: usize,
) -> Verdict
    ensures { result ≡ put_verdict (knowledge known.entry) mark.now base of field taken expression }
{
    let before = verdict(mark, expression);
    match field_at(known.names, expression) {
        None => before,
        Some((variable, other)) => {
            if other == field && points_to(known.names, of, variable) {
                by_alias(base_alias(known, mark, variable, base), taken, before)
            } else {
                before
            }
        }
    }
}

fn settled_verdict(known: Known, mark: &Mark, expression: usize) -> Verdict
    ensures { result ≡ settled_verdict (knowledge known.entry) mark.now expression }
{
    match verdict(mark, expression) {
        Verdict::Yes => Verdict::Yes,
        Verdict::No => Verdict::No,
        Verdict::Open => {
            if flows(known, mark.site, Read::Name(expression)) {
                Verdict::Open
            } else {
                Verdict::No
            }
        }
    }
}

/// The verdict on an expression behind a change.
fn changed(known: Known, mark: &Mark, change: Change, expression: usize) -> Verdict
    ensures { result ≡ changed (knowledge known.entry) mark.now change expression }
{
    match change {
        Change::Tell(other, verdict) => told(mark, other, verdict, expression),
        Change::Set(variable, source, taken) => {
            set_verdict(known.names, mark, variable, source, taken, expression)
        }
        Change::Put(base, of, field, taken) => {
            put_verdict(known, mark, base, of, field, taken, expression)
        }
        Change::Settle => settled_verdict(known, mark, expression),
        Change::Clear => Verdict::No,
    }
}

/// How many expressions there are.
pub fn expression_count(names: &Names) -> usize
    ensures { result ≡ expressions names.now }
{
    let vars = names.vars.as_slice();
    let fields = names.fields.as_slice();
    vars.len() + fields.len()
}

/// A mark that decides nothing, with room for so many expressions.
pub fn open_mark(alloc: Global, site: usize, count: usize) -> Result<Mark, Memory>
    ensures { IfOk result (λ m. m ≡ record { site = site; holds = record { items = []; room = count }; lacks = record { items = []; room = count } }) }
{
    let holds = BitSet::with_room(alloc, count)?;
    let lacks = BitSet::with_room(alloc, count)?;
    Ok(Mark { site, holds, lacks })
}

/// The same mark once more.
pub fn copied(alloc: Global, mark: &Mark) -> Result<Mark, Memory>
    ensures { IfOk result (λ m. m ≡ mark.now) }
{
    let holds = mark.holds.copy(alloc)?;
    let lacks = mark.lacks.copy(alloc)?;
    Ok(Mark {
        site: mark.site,
        holds,
        lacks,
    })
}

fn decide(mark: &mut Mark, expression: usize, verdict: Verdict)
    requires holds { expression < mark.old.holds.room }
    requires lacks { expression < mark.old.lacks.room }
    ensures { mark.new ≡ with_verdict mark.old expression verdict }
{
    match verdict {
        Verdict::Yes => mark.holds.insert(expression),
        Verdict::No => mark.lacks.insert(expression),
        Verdict::Open => {}
    }
}

/// A mark with changed verdicts.
pub fn redrawn(alloc: Global, known: Known, mark: &Mark, change: Change) -> Result<Mark, Memory>
    ensures { IfOk result (λ m. m ≡ redrawn (knowledge known.entry) mark.now change) }
{
    let count = expression_count(known.names);
    let mut drawn = open_mark(alloc, mark.site, count)?;
    for expression in 0..count {
        decide(
            &mut drawn,
            expression,
            changed(known, mark, change, expression),
        );
    }
    Ok(drawn)
}
