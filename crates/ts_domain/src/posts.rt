// What becomes of marks over an edge, and the marks of new objects.
ghost use Rattle.std.specs.Prelude.{◌≡◌, ◌≢◌, [], ◌∷◌, false, true, map, option_map, Err, IfOk};
ghost use Rattle.std.specs.List.{AllPairs};
ghost use Rattle.ts_domain.specs.Marks.{knowledge, step};
ghost use Rattle.ts_domain.specs.MarkWrites.{birth};
ghost use Rattle.ts_domain.specs.Post.{at_edge, born, deeds_post, first_entry, is_gap, is_wide, is_wide_edge, leaves_gap, made_site, post, step_of};
ghost use Rattle.ts_domain.specs.Deeds.{site_of};
ghost use Rattle.ts_domain.specs.Describing.{BornDescribes, DescribeAfter, TouchWhereMet};

use crate::deed::Deed;
use crate::entry::Entry;
use crate::facts::Facts;
use crate::graph_deeds::deeds_of;
use crate::known::Known;
use crate::marks::{Mark, Step};
use crate::names::Names;
use crate::redraw::copied;
use crate::turns::{last_entries, turns};
use crate::writes::birth;
use c_graph::{Edge, Graph, NodeKind, Way};
use c_tree::{Limit, Refusal};
use mf_list::Memory;
use smallvec::SmallVec;
use std::alloc::Global;

fn steps_of(alloc: Global, entries: &[Entry]) -> Result<SmallVec<Step, 4>, Memory>
    ensures { IfOk result (λ steps. steps.items ≡ map step_of entries.now) }
{
    let mut steps = SmallVec::new(alloc);
    for entry in entries {
        let mark = copied(alloc, &entry.mark)?;
        steps.push(Step {
            mark,
            touched: entry.touched,
        })?;
    }
    Ok(steps)
}

fn single(alloc: Global, mark: &Mark) -> Result<SmallVec<Step, 4>, Memory>
    ensures { IfOk result (λ steps. steps.items ≡ step mark.now false ∷ []) }
{
    let mark = copied(alloc, mark)?;
    let mut steps = SmallVec::new(alloc);
    steps.push(Step {
        mark,
        touched: false,
    })?;
    Ok(steps)
}

/// The marks behind deeds at a node that is no gap, each with whether the object was touched, without repeats.
pub fn deeds_post(
    alloc: Global,
    known: Known,
    deeds: &[Deed],
    mark: &Mark,
) -> Result<SmallVec<Step, 4>, Refusal>
    ensures ok { IfOk result (λ steps. steps.items ≡ deeds_post (knowledge known.entry) deeds.now mark.now) }
    ensures narrow { IfOk result (λ steps. is_wide (knowledge known.entry) deeds.now 0 (first_entry mark.now ∷ []) ≡ false) }
    ensures only { (l : Limit) → result ≡ Err (Refusal.Limit l) → l ≡ Limit.States }
    ensures limit { result ≡ Err (Refusal.Limit Limit.States) → is_wide (knowledge known.entry) deeds.now 0 (first_entry mark.now ∷ []) ≡ true }
{
    let entries = turns(alloc, known, deeds, mark)?;
    let last = last_entries(alloc, known, entries.as_slice())?;
    let steps = steps_of(alloc, last.as_slice())?;
    Ok(steps)
}

fn is_gap(kind: &NodeKind) -> bool
    ensures { result ≡ is_gap kind.now }
{
    match kind {
        NodeKind::Gap(_, _) => true,
        NodeKind::Act(_) => false,
        NodeKind::Exit(_) => false,
    }
}

fn leaves_gap(graph: &Graph, edge: Edge) -> bool
    ensures { result ≡ leaves_gap graph.now edge }
{
    match graph.nodes.get(edge.from) {
        None => false,
        Some(node) => is_gap(&node.kind),
    }
}

/// The marks behind an edge, each with whether the edge touched the object, without repeats. Where the reads of the edge
/// split the mark into more than 4,096, the answer is `Limit(States)`.
pub fn post(
    alloc: Global,
    graph: &Graph,
    names: &Names,
    facts: &Facts,
    mark: &Mark,
    edge: &Edge,
) -> Result<SmallVec<Step, 4>, Refusal>
    ensures ok { IfOk result (λ steps. steps.items ≡ post names.now graph.now facts.now edge.now mark.now) }
    ensures after { IfOk result (λ steps. DescribeAfter names.now graph.now facts.now edge.now mark.now steps.items) }
    ensures met { IfOk result (λ steps. TouchWhereMet names.now graph.now facts.now edge.now mark.now steps.items) }
    ensures once { IfOk result (λ steps. AllPairs (λ s t. s ≢ t) steps.items) }
    ensures narrow { IfOk result (λ steps. is_wide_edge names.now graph.now facts.now edge.now mark.now ≡ false) }
    ensures only { (l : Limit) → result ≡ Err (Refusal.Limit l) → l ≡ Limit.States }
    ensures limit { result ≡ Err (Refusal.Limit Limit.States) → is_wide_edge names.now graph.now facts.now edge.now mark.now ≡ true }
{
    if leaves_gap(graph, *edge) {
        let steps = single(alloc, mark)?;
        return Ok(steps);
    }
    let known = Known {
        names,
        graph,
        facts,
        node: edge.from,
    };
    let deeds = deeds_of(alloc, graph, names, *edge)?;
    deeds_post(alloc, known, deeds.as_slice(), mark)
}

fn site_of(names: &Names, node: usize) -> Option<usize>
    ensures { result ≡ site_of names.now node }
{
    names.sites.as_slice().iter().position(|site| *site == node)
}

fn made_site(names: &Names, node: usize, way: Way) -> Option<usize>
    ensures { result ≡ made_site (site_of names.now node) way }
{
    match way {
        Way::Made => site_of(names, node),
        Way::On => None,
        Way::True => None,
        Way::False => None,
        Way::NotMade => None,
        Way::Enter => None,
        Way::Leave(_) => None,
    }
}

/// The mark of the object that deeds make over such a way on from a node; `None` where they make none.
pub fn deeds_born(
    alloc: Global,
    known: Known,
    deeds: &[Deed],
    way: Way,
) -> Result<Option<Mark>, Memory>
    ensures { IfOk result (λ m. m ≡ option_map (birth (knowledge known.entry) deeds.now) (made_site (site_of known.entry.names.now known.entry.node) way)) }
{
    let Some(site) = made_site(known.names, known.node, way) else {
        return Ok(None);
    };
    let mark = birth(alloc, known, deeds, site)?;
    Ok(Some(mark))
}

/// The mark, behind an edge, of the object that it makes; `None` where it makes none.
pub fn born(
    alloc: Global,
    graph: &Graph,
    names: &Names,
    facts: &Facts,
    edge: &Edge,
) -> Result<Option<Mark>, Memory>
    ensures exact { IfOk result (λ m. m ≡ born names.now graph.now facts.now edge.now) }
    ensures object { IfOk result (BornDescribes names.now graph.now facts.now edge.now) }
{
    let Some(site) = made_site(names, edge.from, edge.way) else {
        return Ok(None);
    };
    let known = Known {
        names,
        graph,
        facts,
        node: edge.from,
    };
    let deeds = deeds_of(alloc, graph, names, *edge)?;
    let mark = birth(alloc, known, deeds.as_slice(), site)?;
    Ok(Some(mark))
}
