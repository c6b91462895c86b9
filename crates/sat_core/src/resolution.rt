//! Resolution: the steps that lead from a clause whose literals are all false to a learned one.

ghost use Rattle.std.specs.Prelude.{◌≡◌, ◌∷◌, [], Contains, IfOk, OnOk, IsTrue, IsSome, Some, None};
ghost use Rattle.sat_log.specs.Clauses.{opposite};
ghost use Rattle.sat_core.specs.Learning.{clauses_of, Refutable, IsWithin, IsMarked, Covers};

use crate::Memory;
use crate::code::Code;
use crate::known::Known;
use crate::marks::Marks;
use crate::order::Order;
use crate::trail::Trail;
use sat_log::Lit;

/// Whether a clause of the literal's opposite alone is known, as the reason why the literal is false.
pub fn is_fixed(known: Known<'_>, trail: &Trail, lit: Lit) -> bool
    ensures { IsTrue result → Contains (clauses_of known.entry) (opposite lit ∷ []) }
{
    let cause = trail.cause(lit.var);
    if cause.level != 0 {
        return false;
    }
    match known.clause(cause.reason as usize) {
        Some([only]) => *only == lit.opposite(),
        _ => false,
    }
}

/// Marks the literal unless it is fixed. It answers whether that makes a new literal of the highest level.
fn mark(
    known: Known<'_>,
    trail: &Trail,
    order: &mut Order,
    marks: &mut Marks,
    lit: Lit,
) -> Result<bool, Memory>
    ensures kept { IsWithin marks.old.list.items marks.new.list.items }
    ensures marked { OnOk result (IsMarked (clauses_of known.entry) marks.new.list.items lit) }
{
    if is_fixed(known, trail, lit) {
        return Ok(false);
    }
    let is_new = marks.insert(lit)?;
    if !is_new {
        return Ok(false);
    }
    order.bump(lit.var);
    Ok(trail.cause(lit.var).level == trail.level())
}

fn is_pivot(pivot: Option<Lit>, lit: Lit) -> bool
    ensures { IsTrue result → pivot ≡ Some lit }
{
    match pivot {
        Some(pivot) => pivot == lit,
        None => false,
    }
}

/// Marks the literals of a clause but the pivot, and counts the new ones of the highest level.
fn mark_others(
    known: Known<'_>,
    trail: &Trail,
    order: &mut Order,
    marks: &mut Marks,
    clause: &[Lit],
    pivot: Option<Lit>,
) -> Result<usize, Memory>
    ensures kept { IsWithin marks.old.list.items marks.new.list.items }
    ensures covers { OnOk result (Covers (clauses_of known.entry) marks.new.list.items clause.now pivot) }
{
    let mut count = 0usize;
    for lit in clause {
        if is_pivot(pivot, *lit) {
            continue;
        }
        let counts = mark(known, trail, order, marks, *lit)?;
        count = count.wrapping_add(usize::from(counts));
    }
    Ok(count)
}

/// Marks the literals of the clause of this number, and nothing else. It answers None where there is no such clause.
pub fn begin(
    known: Known<'_>,
    trail: &Trail,
    order: &mut Order,
    marks: &mut Marks,
    number: u32,
) -> Result<Option<usize>, Memory>
    ensures { IfOk result (λ o. IsSome o → Refutable (clauses_of known.entry) marks.new.list.items) }
{
    marks.clear();
    let Some(clause) = known.clause(number as usize) else {
        return Ok(None);
    };
    let count = mark_others(known, trail, order, marks, clause, None)?;
    Ok(Some(count))
}

/// Puts the other literals of the clause that implied `code` in place of its opposite. It answers None, and changes
/// nothing, where there is no such clause.
pub fn resolve(
    known: Known<'_>,
    trail: &Trail,
    order: &mut Order,
    marks: &mut Marks,
    code: Code,
) -> Result<Option<usize>, Memory>
    requires { Refutable (clauses_of known) marks.old.list.items }
    ensures { OnOk result (Refutable (clauses_of known.entry) marks.new.list.items) }
{
    let reason = trail.cause(code.var()).reason;
    let Some(clause) = known.clause(reason as usize) else {
        return Ok(None);
    };
    let lit = code.lit();
    marks.remove(lit.opposite());
    let count = mark_others(known, trail, order, marks, clause, Some(lit))?;
    Ok(Some(count))
}

/// Resolves the clause of this number, whose literals are all false, until one literal of the highest level is left.
/// It answers that literal's opposite.
pub fn resolve_to_one(
    known: Known<'_>,
    trail: &Trail,
    order: &mut Order,
    marks: &mut Marks,
    number: u32,
) -> Result<Option<Code>, Memory>
    ensures { IfOk result (λ o. IsSome o → Refutable (clauses_of known.entry) marks.new.list.items) }
{
    let Some(mut open) = begin(known, trail, order, marks, number)? else {
        return Ok(None);
    };
    for code in trail.codes().iter().rev() {
        let code = *code;
        if !marks.contains(code.opposite().lit()) {
            continue;
        }
        if open == 1 {
            return Ok(Some(code));
        }
        let Some(count) = resolve(known, trail, order, marks, code)? else {
            return Ok(None);
        };
        open = open.wrapping_sub(1).wrapping_add(count);
    }
    Ok(None)
}
