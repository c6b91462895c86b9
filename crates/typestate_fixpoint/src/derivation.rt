// The triples of a graph, gone through one by one while they grow.
ghost use Rattle.std.specs.Prelude.{◌≡◌, ◌+◌, ◌<◌, ◌≤◌, Err, Some, length, slice_get, IfOk, OnOk};
ghost use Rattle.std.specs.List.{flat_map};
ghost use Rattle.indexmap.specs.IndexSet.{insert_all};
ghost use Rattle.ts_domain.specs.Deeds.{edge_deeds};
ghost use Rattle.ts_domain.specs.Derived.{AreDerived, HasWideEdge, PassesStates};
ghost use Rattle.typestate_fixpoint.specs.Steps.{born_from, born_over, same_triple, AreTables, HasWide};
ghost use Rattle.typestate_fixpoint.specs.Worklist.{AreAll, Expands, Going};

use crate::edges::over_edges;
use crate::gaps::{behind, forbid_at, pair_at, puts_at};
use crate::steps::{add_triple, copy_of};
use crate::tables::{Tables, tables_of};
use c_graph::{Edge, Graph};
use c_tree::{Limit, Refusal};
use indexmap::IndexSet;
use mf_list::{Memory, Seq};
use mf_set::BitSet;
use std::alloc::Global;
use ts_domain::{Deed, Derived, Facts, Known, Names, Triple, deeds_born, reached, row};

/// The greatest number of triples.
const MOST_TRIPLES: usize = 100000;

/// The triples so far, each once in the order in which they came, and what those that have been gone through forbid and pair.
#[derive(Debug, Drop)]
pub struct Derivation {
    pub triples: IndexSet<Triple>,
    pub forbidden: BitSet,
    pub pairs: IndexSet<(usize, usize)>,
}

/// Adds the triple of the object that an edge makes.
fn add_born(
    alloc: Global,
    graph: &Graph,
    names: &Names,
    facts: &Facts,
    edge: Edge,
    deeds: &[Deed],
    triples: &mut IndexSet<Triple>,
) -> Result<(), Memory>
    requires { deeds.now ≡ edge_deeds names.now graph.now edge }
    ensures { OnOk result (triples.new.keys ≡ insert_all same_triple triples.old.keys (born_over names.now graph.now facts.now edge)) }
{
    let known = Known {
        names,
        graph,
        facts,
        node: edge.from,
    };
    let Some(mark) = deeds_born(alloc, known, deeds, edge.way)? else {
        return Ok(());
    };
    let puts = BitSet::with_room(alloc, names.puts.len())?;
    add_triple(
        triples,
        Triple {
            node: edge.to,
            mark,
            puts,
        },
    )
}

fn add_born_from(
    alloc: Global,
    graph: &Graph,
    names: &Names,
    facts: &Facts,
    nodes: &IndexSet<usize>,
    edge: Edge,
    deeds: &[Deed],
    triples: &mut IndexSet<Triple>,
) -> Result<(), Memory>
    requires { deeds.now ≡ edge_deeds names.now graph.now edge }
    ensures { OnOk result (triples.new.keys ≡ insert_all same_triple triples.old.keys (born_from names.now graph.now facts.now nodes.now.keys edge)) }
{
    if nodes.contains(&edge.from) {
        add_born(alloc, graph, names, facts, edge, deeds, triples)
    } else {
        Ok(())
    }
}

fn add_all_born(
    alloc: Global,
    graph: &Graph,
    names: &Names,
    facts: &Facts,
    tables: &Tables,
    nodes: &IndexSet<usize>,
    triples: &mut IndexSet<Triple>,
) -> Result<(), Memory>
    requires { AreTables names.now graph.now tables.now }
    ensures { OnOk result (triples.new.keys ≡ insert_all same_triple triples.old.keys (flat_map (born_from names.now graph.now facts.now nodes.now.keys) graph.now.edges)) }
{
    for place in 0..graph.edges.len() {
        let edge = *graph.edges.at(place);
        let deeds = tables.deeds.at(place);
        add_born_from(
            alloc,
            graph,
            names,
            facts,
            nodes,
            edge,
            deeds.as_slice(),
            triples,
        )?;
    }
    Ok(())
}

/// The triples of new objects, before any has been gone through.
fn begin(
    alloc: Global,
    graph: &Graph,
    names: &Names,
    facts: &Facts,
    tables: &Tables,
) -> Result<Derivation, Memory>
    requires { AreTables names.now graph.now tables.now }
    ensures { IfOk result (λ s. Going names.now graph.now facts.now 0 s.triples.keys s.forbidden s.pairs.keys) }
{
    let nodes = reached(alloc, graph, tables.outgoing.as_slice())?;
    let mut triples = IndexSet::new(alloc);
    add_all_born(alloc, graph, names, facts, tables, &nodes, &mut triples)?;
    let forbidden = BitSet::with_room(alloc, names.puts.len())?;
    Ok(Derivation {
        triples,
        forbidden,
        pairs: IndexSet::new(alloc),
    })
}

/// Notes what a triple forbids and pairs, and takes it over the edges from its node.
fn expand(
    alloc: Global,
    graph: &Graph,
    names: &Names,
    facts: &Facts,
    tables: &Tables,
    triple: &Triple,
    state: &mut Derivation,
) -> Result<(), Refusal>
    requires tables { AreTables names.now graph.now tables.now }
    requires puts { triple.now.puts.room ≡ length names.now.puts }
    requires forbidden { state.old.forbidden.room ≡ length names.now.puts }
    ensures ok { OnOk result (Expands names.now graph.now facts.now triple.now state.old.triples.keys state.new.triples.keys state.old.forbidden state.new.forbidden state.old.pairs.keys state.new.pairs.keys) }
    ensures only { (l : Limit) → result ≡ Err (Refusal.Limit l) → l ≡ Limit.States }
    ensures limit { result ≡ Err (Refusal.Limit Limit.States) → HasWide names.now graph.now facts.now triple.now }
{
    let puts = puts_at(graph, &tables.puts, triple.node);
    let held = behind(alloc, &tables.puts, &triple.mark, puts, &triple.puts)?;
    forbid_at(
        alloc,
        &tables.puts,
        &triple.mark,
        puts,
        &triple.puts,
        &mut state.forbidden,
    )?;
    pair_at(
        alloc,
        &tables.puts,
        &triple.mark,
        puts,
        &triple.puts,
        &mut state.pairs,
    )?;
    let places = row(tables.outgoing.as_slice(), triple.node);
    over_edges(
        alloc,
        graph,
        names,
        facts,
        tables,
        places,
        triple,
        &held,
        &mut state.triples,
        &mut state.forbidden,
    )?;
    Ok(())
}

fn few(triples: &IndexSet<Triple>) -> Result<(), Refusal>
    ensures ok { OnOk result (length triples.now.keys ≤ 100000) }
    ensures only { (l : Limit) → result ≡ Err (Refusal.Limit l) → l ≡ Limit.States }
    ensures limit { result ≡ Err (Refusal.Limit Limit.States) → 100000 < length triples.now.keys }
{
    if triples.len() > MOST_TRIPLES {
        return Err(Refusal::Limit(Limit::States));
    }
    Ok(())
}

fn triple_at(alloc: Global, triples: &IndexSet<Triple>, at: usize) -> Result<Triple, Memory>
    requires { at < length triples.now.keys }
    ensures { IfOk result (λ t. slice_get triples.now.keys at ≡ Some t) }
{
    copy_of(alloc, &triples.as_slice()[at])
}

/// Goes through the triple of a place.
fn go_through(
    alloc: Global,
    graph: &Graph,
    names: &Names,
    facts: &Facts,
    tables: &Tables,
    done: usize,
    state: &mut Derivation,
) -> Result<(), Refusal>
    requires tables { AreTables names.now graph.now tables.now }
    requires going { Going names.now graph.now facts.now done state.old.triples.keys state.old.forbidden state.old.pairs.keys }
    requires within { done < length state.old.triples.keys }
    ensures ok { OnOk result (Going names.now graph.now facts.now (done + 1) state.new.triples.keys state.new.forbidden state.new.pairs.keys) }
    ensures few { OnOk result (done + 1 ≤ 100000) }
    ensures only { (l : Limit) → result ≡ Err (Refusal.Limit l) → l ≡ Limit.States }
    ensures limit { result ≡ Err (Refusal.Limit Limit.States) → PassesStates names.now graph.now facts.now }
{
    few(&state.triples)?;
    let triple = triple_at(alloc, &state.triples, done)?;
    expand(alloc, graph, names, facts, tables, &triple, state)?;
    Ok(())
}

fn close(
    alloc: Global,
    graph: &Graph,
    names: &Names,
    facts: &Facts,
    tables: &Tables,
    state: &mut Derivation,
) -> Result<(), Refusal>
    requires tables { AreTables names.now graph.now tables.now }
    requires going { Going names.now graph.now facts.now 0 state.old.triples.keys state.old.forbidden state.old.pairs.keys }
    ensures ok { OnOk result (AreAll names.now graph.now facts.now state.new.triples.keys state.new.forbidden state.new.pairs.keys) }
    ensures only { (l : Limit) → result ≡ Err (Refusal.Limit l) → l ≡ Limit.States }
    ensures limit { result ≡ Err (Refusal.Limit Limit.States) → PassesStates names.now graph.now facts.now }
{
    let mut done: usize = 0;
    while done < state.triples.len() {
        go_through(alloc, graph, names, facts, tables, done, state)?;
        done += 1;
    }
    Ok(())
}

/// All triples, with what they forbid and pair.
fn all_derived(
    alloc: Global,
    graph: &Graph,
    names: &Names,
    facts: &Facts,
    tables: &Tables,
) -> Result<Derivation, Refusal>
    requires { AreTables names.now graph.now tables.now }
    ensures ok { IfOk result (λ s. AreAll names.now graph.now facts.now s.triples.keys s.forbidden s.pairs.keys) }
    ensures only { (l : Limit) → result ≡ Err (Refusal.Limit l) → l ≡ Limit.States }
    ensures limit { result ≡ Err (Refusal.Limit Limit.States) → PassesStates names.now graph.now facts.now }
{
    let mut state = begin(alloc, graph, names, facts, tables)?;
    match close(alloc, graph, names, facts, tables, &mut state) {
        Err(refused) => Err(refused),
        Ok(()) => Ok(state),
    }
}

fn copies(alloc: Global, triples: &[Triple]) -> Result<Seq<Triple>, Memory>
    ensures { IfOk result (λ list. list ≡ triples.now) }
{
    let mut list = Seq::new(alloc);
    for triple in triples {
        list.push(copy_of(alloc, triple)?)?;
    }
    Ok(list)
}

fn finished(alloc: Global, state: Derivation) -> Result<Derived, Memory>
    ensures { IfOk result (λ d. d ≡ record { triples = state.triples.keys; forbidden = state.forbidden; pairs = state.pairs.keys }) }
{
    let Derivation {
        triples,
        forbidden,
        pairs,
    } = state;
    let triples = copies(alloc, triples.as_slice())?;
    let pairs = Seq::from_slice(alloc, pairs.as_slice())?;
    Ok(Derived {
        triples,
        forbidden,
        pairs,
    })
}

/// The triples that are derived from a graph, its names and its facts, with the forbidden puts and the pairs of puts that
/// conflict. The answer is `Limit(States)` where there are more than 100,000 triples, or where the reads of an edge split the
/// mark of one into too many. The frees that the gaps of the graph carry are not looked at.
pub fn derive(
    alloc: Global,
    graph: &Graph,
    names: &Names,
    facts: &Facts,
) -> Result<Derived, Refusal>
    ensures derived { IfOk result (AreDerived names.now graph.now facts.now) }
    ensures few { IfOk result (λ d. length d.triples ≤ 100000) }
    ensures narrow { IfOk result (λ d. HasWideEdge names.now graph.now facts.now → ⊥) }
    ensures only { (l : Limit) → result ≡ Err (Refusal.Limit l) → l ≡ Limit.States }
    ensures limit { result ≡ Err (Refusal.Limit Limit.States) → PassesStates names.now graph.now facts.now }
{
    let tables = tables_of(alloc, graph, names)?;
    let state = all_derived(alloc, graph, names, facts, &tables)?;
    let derived = finished(alloc, state)?;
    Ok(derived)
}
