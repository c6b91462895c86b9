// The first call that closes a cycle of functions, by taking away functions that nobody calls.
ghost use Rattle.std.specs.Prelude.{◌≡◌, ◌<◌, OnOk, IfOk, IsTrue, ◌↔◌, MatchOption, length, slice_index};
ghost use Rattle.std.specs.List.{fold, list_any};
ghost use Rattle.c_tree.specs.Cycles.{ClosesCycle, IsCyclic, ExistIn};
ghost use Rattle.c_types.specs.Peeling.{AreRows, AreZeros, IsCounted, IsOwed, is_positive, taken_call};

use c_tree::UserCall;
use mf_list::{Memory, Seq};
use std::alloc::{AllocError, Global};

/// Calls while the functions that nobody calls are taken away with theirs: how many of the calls
/// left each function gets, and the functions that get none, in the order in which that was found.
#[derive(Debug, Drop)]
struct Peeling {
    counts: Seq<usize>,
    uncalled: Seq<usize>,
}

impl Peeling {
    fn take_call(&mut self, callee: usize) -> Result<(), Memory>
        requires within { callee < length self.old.counts }
        requires called { 0 < slice_index self.old.counts callee }
        ensures { OnOk result (self.new ≡ taken_call self.old callee) }
    {
        let count = *self.counts.at(callee) - 1;
        self.counts.set(callee, count);
        if count == 0 {
            self.uncalled.push(callee)?;
        }
        Ok(())
    }

    fn take_calls(&mut self, callees: &[usize]) -> Result<(), Memory>
        requires { IsOwed self.old.counts callees.now }
        ensures { OnOk result (self.new ≡ fold taken_call self.old callees.now) }
    {
        for callee in callees {
            self.take_call(*callee)?;
        }
        Ok(())
    }
}

/// How many calls each function gets.
fn counts_of(alloc: Global, functions: usize, calls: &[UserCall]) -> Result<Seq<usize>, Memory>
    requires { ExistIn functions calls.now }
    ensures { IfOk result (λ counts. IsCounted functions counts calls.now) }
{
    let mut counts = Seq::from_vec(vec![in alloc; 0; functions]?);
    for call in calls {
        let count = *counts.at(call.callee);
        counts.set(call.callee, count + 1);
    }
    Ok(counts)
}

/// The functions without calls.
fn uncalled(alloc: Global, counts: &[usize]) -> Result<Seq<usize>, Memory>
    ensures { IfOk result (λ found. AreZeros counts.now found) }
{
    let mut found = Seq::new(alloc);
    for (function, count) in counts.iter().enumerate() {
        if *count == 0 {
            found.push(function)?;
        }
    }
    Ok(found)
}

/// What each function calls.
fn rows_of(alloc: Global, functions: usize, calls: &[UserCall]) -> Result<Seq<Seq<usize>>, Memory>
    requires { ExistIn functions calls.now }
    ensures { IfOk result (λ rows. AreRows functions rows calls.now) }
{
    let mut rows = Seq::new(alloc);
    for _ in 0..functions {
        rows.push(Seq::new(alloc))?;
    }
    for call in calls {
        rows.at_mut(call.caller).push(call.callee)?;
    }
    Ok(rows)
}

/// Whether a function gets calls.
fn is_any_called(counts: &[usize]) -> bool
    ensures { result ≡ list_any is_positive counts.now }
{
    counts.iter().any(|count| *count > 0)
}

fn is_cyclic(alloc: Global, functions: usize, calls: &[UserCall]) -> Result<bool, Memory>
    requires { ExistIn functions calls.now }
    ensures { IfOk result (λ cyclic. IsTrue cyclic ↔ IsCyclic calls.now) }
{
    let rows = rows_of(alloc, functions, calls)?;
    let counts = counts_of(alloc, functions, calls)?;
    let uncalled = uncalled(alloc, counts.as_slice())?;
    let mut peeling = Peeling { counts, uncalled };
    let mut next = 0;
    while next < peeling.uncalled.len() {
        let caller = *peeling.uncalled.at(next);
        peeling.take_calls(rows.at(caller).as_slice())?;
        next += 1;
    }
    Ok(is_any_called(peeling.counts.as_slice()))
}

/// A number above those of all functions of the calls.
fn bound_of(calls: &[UserCall]) -> Result<usize, Memory>
    ensures { IfOk result (λ n. ExistIn n calls.now) }
{
    let mut last = 0;
    for call in calls {
        last = last.max(call.caller).max(call.callee);
    }
    match last.checked_add(1) {
        Some(bound) => Ok(bound),
        None => Err(AllocError),
    }
}

/// The first call, by its place in the list, such that the calls up to it form a cycle.
pub fn first_cycle(alloc: Global, calls: &[UserCall]) -> Result<Option<usize>, Memory>
    ensures { IfOk result (λ first. MatchOption first (IsCyclic calls.now → ⊥) (ClosesCycle calls.now)) }
{
    let functions = bound_of(calls)?;
    if !is_cyclic(alloc, functions, calls)? {
        return Ok(None);
    }
    let mut open = 0;
    let mut closed = calls.len();
    while open + 1 < closed {
        let middle = open + (closed - open) / 2;
        if is_cyclic(alloc, functions, &calls[..middle])? {
            closed = middle;
        } else {
            open = middle;
        }
    }
    Ok(Some(open))
}
