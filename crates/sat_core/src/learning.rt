//! The search with its log.
ghost use Rattle.std.specs.Prelude.{IfOk, IfSome};
ghost use Rattle.sat_core.specs.Learning.{IsPart, EndsRight};

use crate::Memory;
use crate::cells::narrow;
use crate::known::{Known, learn};
use crate::marks::Marks;
use crate::minimization::minimize;
use crate::propagation::propagate;
use crate::resolution::{begin, is_fixed, resolve_to_one};
use crate::search::Search;
use sat_log::{Clauses, Log};
use std::alloc::Global;

/// How the search ended.
#[derive(Clone, Copy, Debug, PartialEq, Eq)]
pub enum End {
    /// Every variable has a value, and no clause is false.
    Model,
    /// The log ends in the empty clause.
    Refuted,
    /// Neither.
    Stuck,
}

/// Resolves the clause of this number to one that is learned, and draws that one's consequence. It answers false where
/// the search's records don't lead to one.
fn learn_from(
    alloc: Global,
    search: &mut Search,
    clauses: &Clauses,
    log: &mut Log,
    marks: &mut Marks,
    number: u32,
) -> Result<bool, Memory>
    requires { IsPart clauses.now log.old }
    ensures { IsPart clauses.now log.new }
{
    let known = Known { clauses, log };
    let trail = &search.trail;
    let Some(point) = resolve_to_one(known, trail, &mut search.order, marks, number)? else {
        return Ok(false);
    };
    let levels = search.minimizer.count_levels(trail, marks);
    if !minimize(
        known,
        trail,
        &mut search.order,
        &mut search.minimizer,
        marks,
    )? {
        return Ok(false);
    }
    let number = narrow(known.count());
    if !learn(alloc, clauses, log, marks)? {
        return Ok(false);
    }
    search.order.decay();
    search.pace.count_conflict(levels);
    search.add_learned(marks.list.as_slice(), point, number, levels)?;
    Ok(true)
}

/// Logs the literals that hold without a decision, each as a clause of one literal.
fn settle(
    alloc: Global,
    search: &mut Search,
    clauses: &Clauses,
    log: &mut Log,
    marks: &mut Marks,
) -> Result<bool, Memory>
    requires { IsPart clauses.now log.old }
    ensures { IsPart clauses.now log.new }
{
    for place in search.settled..search.trail.codes().len() {
        if !settle_one(alloc, search, clauses, log, marks, place)? {
            return Ok(false);
        }
    }
    search.settled = search.trail.codes().len();
    Ok(true)
}

fn settle_one(
    alloc: Global,
    search: &mut Search,
    clauses: &Clauses,
    log: &mut Log,
    marks: &mut Marks,
    place: usize,
) -> Result<bool, Memory>
    requires { IsPart clauses.now log.old }
    ensures { IsPart clauses.now log.new }
{
    let Some(code) = search.trail.codes().get(place) else {
        return Ok(false);
    };
    let code = *code;
    let known = Known { clauses, log };
    let trail = &search.trail;
    if is_fixed(known, trail, code.opposite().lit()) {
        return Ok(true);
    }
    let reason = trail.cause(code.var()).reason;
    if begin(known, trail, &mut search.order, marks, reason)?.is_none() {
        return Ok(false);
    }
    let number = narrow(known.count());
    if !learn(alloc, clauses, log, marks)? {
        return Ok(false);
    }
    search.trail.set_reason(code.var(), number);
    Ok(true)
}

/// Ends the log where the literals of the clause of this number are false without a decision.
fn refute(
    alloc: Global,
    search: &mut Search,
    clauses: &Clauses,
    log: &mut Log,
    marks: &mut Marks,
    number: u32,
) -> Result<End, Memory>
    requires { IsPart clauses.now log.old }
    ensures part { IsPart clauses.now log.new }
    ensures ended { IfOk result (EndsRight clauses.now log.new) }
{
    if !settle(alloc, search, clauses, log, marks)? {
        return Ok(End::Stuck);
    }
    let known = Known { clauses, log };
    if begin(known, &search.trail, &mut search.order, marks, number)?.is_none() {
        return Ok(End::Stuck);
    }
    if !marks.is_empty() || !learn(alloc, clauses, log, marks)? {
        return Ok(End::Stuck);
    }
    Ok(End::Refuted)
}

/// Goes on from a clause whose literals are all false.
fn on_clash(
    alloc: Global,
    search: &mut Search,
    clauses: &Clauses,
    log: &mut Log,
    marks: &mut Marks,
    number: u32,
) -> Result<Option<End>, Memory>
    requires { IsPart clauses.now log.old }
    ensures part { IsPart clauses.now log.new }
    ensures ended { IfOk result (λ o. IfSome o (EndsRight clauses.now log.new)) }
{
    if search.trail.level() == 0 {
        let end = refute(alloc, search, clauses, log, marks, number)?;
        return Ok(Some(end));
    }
    if learn_from(alloc, search, clauses, log, marks, number)? {
        return Ok(None);
    }
    Ok(Some(End::Stuck))
}

/// Goes on where propagation has drawn all consequences.
fn on_rest(
    alloc: Global,
    search: &mut Search,
    clauses: &Clauses,
    log: &mut Log,
    marks: &mut Marks,
) -> Result<Option<End>, Memory>
    requires { IsPart clauses.now log.old }
    ensures part { IsPart clauses.now log.new }
    ensures ended { IfOk result (λ o. IfSome o (EndsRight clauses.now log.new)) }
{
    if search.pace.is_restart_due() {
        search.pace.count_restart();
        search.back_to(0)?;
        if search.pace.is_drop_due() {
            search.pace.count_drop();
            search.drop_learned();
        }
    }
    if search.trail.level() == 0 && !settle(alloc, search, clauses, log, marks)? {
        return Ok(Some(End::Stuck));
    }
    if search.decide()? {
        return Ok(None);
    }
    Ok(Some(End::Model))
}

/// Propagates, and goes on from what that leads to.
fn step(
    alloc: Global,
    search: &mut Search,
    clauses: &Clauses,
    log: &mut Log,
    marks: &mut Marks,
) -> Result<Option<End>, Memory>
    requires { IsPart clauses.now log.old }
    ensures part { IsPart clauses.now log.new }
    ensures ended { IfOk result (λ o. IfSome o (EndsRight clauses.now log.new)) }
{
    match propagate(&mut search.trail, &mut search.watches)? {
        Some(number) => {
            let end = on_clash(alloc, search, clauses, log, marks, number)?;
            Ok(end)
        }
        None => {
            let end = on_rest(alloc, search, clauses, log, marks)?;
            Ok(end)
        }
    }
}

/// Searches on from the clauses that were taken in.
fn run(
    alloc: Global,
    search: &mut Search,
    clauses: &Clauses,
    log: &mut Log,
    marks: &mut Marks,
) -> Result<End, Memory>
    requires { IsPart clauses.now log.old }
    ensures part { IsPart clauses.now log.new }
    ensures ended { IfOk result (EndsRight clauses.now log.new) }
{
    for _ in 0..u64::MAX {
        if let Some(end) = step(alloc, search, clauses, log, marks)? {
            return Ok(end);
        }
    }
    Ok(End::Stuck)
}

/// Takes the clauses in, up to the number of one whose literals are all false.
fn take_in(search: &mut Search, clauses: &Clauses) -> Result<Option<u32>, Memory> {
    for number in 0..clauses.list.len() {
        let clause = clauses.list.at(number).as_slice();
        let clash = search.add_given(clause, narrow(number))?;
        if clash.is_some() {
            return Ok(clash);
        }
    }
    Ok(None)
}

/// Searches for bits that satisfy the clauses, and logs what is learned on the way.
pub fn search(
    alloc: Global,
    search: &mut Search,
    clauses: &Clauses,
    log: &mut Log,
    marks: &mut Marks,
) -> Result<End, Memory>
    requires { IsPart clauses.now log.old }
    ensures part { IsPart clauses.now log.new }
    ensures ended { IfOk result (EndsRight clauses.now log.new) }
{
    match take_in(search, clauses)? {
        Some(number) => {
            let end = refute(alloc, search, clauses, log, marks, number)?;
            Ok(end)
        }
        None => {
            let end = run(alloc, search, clauses, log, marks)?;
            Ok(end)
        }
    }
}
