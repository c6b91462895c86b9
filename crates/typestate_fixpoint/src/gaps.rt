// The candidates of a triple on their way through a gap, the puts that are forbidden there, and the pairs that are made.
ghost use Rattle.std.specs.Prelude.{◌≡◌, ◌<◌, true, map, cond, IfOk, OnOk};
ghost use Rattle.std.specs.List.{All};
ghost use Rattle.indexmap.specs.IndexSet.{insert_all, insert_key};
ghost use Rattle.mf_set.specs.Numbers.{has, with_number};
ghost use Rattle.ts_domain.specs.Puts.{gap_key};
ghost use Rattle.ts_domain.specs.Derived.{forbidden_at, forbids, freed_verdict, gap_at, gathered, joined, may_follow, ordered, pairs_at, pairs_with};
ghost use Rattle.typestate_fixpoint.specs.Gaps.{follows_in, row_at, same_pair, verdict_in, AreBelow, HasMore};

use crate::freed::Puts;
use c_graph::{Graph, NodeKind};
use indexmap::IndexSet;
use mf_list::Memory;
use mf_set::BitSet;
use std::alloc::Global;
use ts_domain::{Mark, Verdict, row, verdict};

fn freed_verdict(mark: &Mark, expression: Option<usize>) -> Verdict
    ensures { result ≡ freed_verdict mark.now expression }
{
    match expression {
        None => Verdict::No,
        Some(expression) => verdict(mark, expression),
    }
}

fn may_follow(mark: &Mark, base: Option<usize>) -> bool
    ensures { result ≡ may_follow mark.now base }
{
    match base {
        None => false,
        Some(variable) => !mark.lacks.contains(variable),
    }
}

fn verdict_in(puts: &Puts, mark: &Mark, put: usize) -> Verdict
    ensures { result ≡ verdict_in puts.now mark.now put }
{
    match puts.freed.get(put) {
        None => Verdict::No,
        Some(freed) => freed_verdict(mark, freed.expression),
    }
}

fn follows_in(puts: &Puts, mark: &Mark, put: usize) -> bool
    ensures { result ≡ follows_in puts.now mark.now put }
{
    match puts.freed.get(put) {
        None => false,
        Some(freed) => may_follow(mark, freed.base),
    }
}

fn join(held: &mut BitSet, verdict: Verdict, put: usize)
    requires { put < held.old.room }
    ensures { held.new ≡ record held.old { items = joined verdict put held.old.items } }
{
    match verdict {
        Verdict::Yes => held.insert(put),
        Verdict::No => {}
        Verdict::Open => {}
    }
}

/// The candidates behind the puts of a gap.
pub fn behind(
    alloc: Global,
    puts: &Puts,
    mark: &Mark,
    row: &[usize],
    held: &BitSet,
) -> Result<BitSet, Memory>
    requires { AreBelow held.now.room row.now }
    ensures { IfOk result (λ s. s ≡ record held.now { items = gathered (verdict_in puts.now mark.now) row.now held.now.items }) }
{
    let mut behind = held.copy(alloc)?;
    for put in row {
        join(&mut behind, verdict_in(puts, mark, *put), *put);
    }
    Ok(behind)
}

fn forbids(verdict: Verdict, already: bool) -> bool
    ensures { result ≡ forbids verdict already }
{
    match verdict {
        Verdict::Yes => already,
        Verdict::No => false,
        Verdict::Open => true,
    }
}

fn forbid_if(forbidden: &mut BitSet, is: bool, put: usize)
    requires { put < forbidden.old.room }
    ensures { forbidden.new ≡ record forbidden.old { items = cond is (with_number forbidden.old.items put) forbidden.old.items } }
{
    if is {
        forbidden.insert(put);
    }
}

/// Forbids what the puts of a gap forbid.
#[tactic(auto, using(crate::proofs::GapLaws::forbid_done))]
pub fn forbid_at(
    alloc: Global,
    puts: &Puts,
    mark: &Mark,
    row: &[usize],
    held: &BitSet,
    forbidden: &mut BitSet,
) -> Result<(), Memory>
    requires below { AreBelow held.now.room row.now }
    requires rooms { forbidden.old.room ≡ held.now.room }
    ensures { OnOk result (HasMore (forbidden_at (verdict_in puts.now mark.now) row.now held.now.items) forbidden.old forbidden.new) }
{
    let mut behind = held.copy(alloc)?;
    for put in row {
        let verdict = verdict_in(puts, mark, *put);
        forbid_if(forbidden, forbids(verdict, behind.contains(*put)), *put);
        join(&mut behind, verdict, *put);
    }
    Ok(())
}

fn ordered(one: usize, other: usize) -> (usize, usize)
    ensures { result ≡ ordered one other }
{
    if other < one {
        (other, one)
    } else {
        (one, other)
    }
}

fn add_pair(pairs: &mut IndexSet<(usize, usize)>, pair: (usize, usize)) -> Result<(), Memory>
    ensures { OnOk result (pairs.new.keys ≡ insert_key same_pair pairs.old.keys pair) }
{
    pairs.insert(pair)?;
    Ok(())
}

fn add_pairs(pairs: &mut IndexSet<(usize, usize)>, put: usize, held: &[usize]) -> Result<(), Memory>
    ensures { OnOk result (pairs.new.keys ≡ insert_all same_pair pairs.old.keys (pairs_with true put held.now)) }
{
    for other in held {
        add_pair(pairs, ordered(*other, put))?;
    }
    Ok(())
}

fn pair_with(
    alloc: Global,
    pairs: &mut IndexSet<(usize, usize)>,
    follows: bool,
    put: usize,
    held: &BitSet,
) -> Result<(), Memory>
    ensures { OnOk result (pairs.new.keys ≡ insert_all same_pair pairs.old.keys (pairs_with follows put held.now.items)) }
{
    if !follows {
        return Ok(());
    }
    let held = held.to_vec(alloc)?;
    add_pairs(pairs, put, held.as_slice())
}

/// Makes the pairs that the puts of a gap make.
pub fn pair_at(
    alloc: Global,
    puts: &Puts,
    mark: &Mark,
    row: &[usize],
    held: &BitSet,
    pairs: &mut IndexSet<(usize, usize)>,
) -> Result<(), Memory>
    requires { AreBelow held.now.room row.now }
    ensures { OnOk result (pairs.new.keys ≡ insert_all same_pair pairs.old.keys (pairs_at (verdict_in puts.now mark.now) (follows_in puts.now mark.now) row.now held.now.items)) }
{
    let mut behind = held.copy(alloc)?;
    for put in row {
        pair_with(alloc, pairs, follows_in(puts, mark, *put), *put, &behind)?;
        join(&mut behind, verdict_in(puts, mark, *put), *put);
    }
    Ok(())
}

fn gap_key(kind: &NodeKind) -> Option<usize>
    ensures { result ≡ gap_key kind.now }
{
    match kind {
        NodeKind::Gap(gap, _) => Some(*gap),
        NodeKind::Act(_) => None,
        NodeKind::Exit(_) => None,
    }
}

fn gap_at(graph: &Graph, node: usize) -> Option<usize>
    ensures { result ≡ gap_at graph.now node }
{
    match graph.nodes.get(node) {
        None => None,
        Some(node) => gap_key(&node.kind),
    }
}

/// The puts of the gap at a node, if one stands there.
pub fn puts_at<'a>(graph: &Graph, puts: &'a Puts, node: usize) -> &'a [usize]
    ensures { result.now ≡ row_at puts.now (gap_at graph.now node) }
{
    match gap_at(graph, node) {
        None => &[],
        Some(gap) => row(puts.rows.as_slice(), gap),
    }
}
