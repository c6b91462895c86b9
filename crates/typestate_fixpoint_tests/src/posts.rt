// Births and posts of triples are the triples that are told, and no others: behind a touch without candidates, and behind a gap
// with its puts whose expressions the mark holds.
use crate::analysis::{Analysis, analysed, derived};
use crate::cases::{BRANCHES, CALLS, Case, OBJECTS};
use crate::field_cases::FIELD_CASES;
use crate::shown::{are_there, are_told, shown};
use c_graph::{Edge, NodeKind};
use c_tree::Put;
use mf_list::Memory;
use std::alloc::Global;
use std::process::Abort;
use std::test::Fail;
use ts_domain::{Names, Triple, born, expression_count, field_place, place_of, post};

/// The number of the expression that a put frees.
fn expression_of(names: &Names, put: Put) -> Option<usize> {
    let place = place_of(names, put.var)?;
    let Some(field) = put.field else {
        return Some(place);
    };
    let behind = field_place(names.fields.as_slice(), place, field)?;
    names.vars.len().checked_add(behind)
}

/// Whether the gap of a number stands at a node.
fn is_gap_at(analysis: &Analysis, node: usize, gap: usize) -> bool {
    match analysis.graph.nodes.get(node) {
        None => false,
        Some(node) => match node.kind {
            NodeKind::Gap(number, _) => number == gap,
            NodeKind::Act(_) => false,
            NodeKind::Exit(_) => false,
        },
    }
}

/// Whether a put joins the candidates of a triple.
fn joins(analysis: &Analysis, triple: &Triple, put: Put) -> bool {
    is_gap_at(analysis, triple.node, put.gap)
        && expression_of(&analysis.names, put).is_some_and(|expression| triple
            .mark
            .holds
            .contains(expression))
}

/// The candidates of a triple behind its node, where nothing is touched.
fn candidates_behind(
    alloc: Global,
    analysis: &Analysis,
    triple: &Triple,
) -> Result<Vec<usize>, Memory> {
    let mut list = Vec::new(alloc);
    for (place, put) in analysis.names.puts.as_slice().iter().enumerate() {
        if triple.puts.contains(place) || joins(analysis, triple, *put) {
            list.push(place)?;
        }
    }
    Ok(list)
}

fn add_posts(
    alloc: Global,
    lines: &mut Vec<String>,
    analysis: &Analysis,
    triple: &Triple,
    edge: &Edge,
) -> Result<(), Fail> {
    let Analysis {
        graph,
        names,
        facts,
    } = analysis;
    let count = expression_count(names);
    let behind = candidates_behind(alloc, analysis, triple)?;
    let steps = post(alloc, graph, names, facts, &triple.mark, edge)?;
    for step in steps.as_slice() {
        let candidates: &[usize] = if step.touched { &[] } else { behind.as_slice() };
        lines.push(shown(alloc, edge.to, &step.mark, count, candidates)?)?;
    }
    Ok(())
}

fn add_births(
    alloc: Global,
    lines: &mut Vec<String>,
    analysis: &Analysis,
    edge: &Edge,
) -> Result<(), Memory> {
    let count = expression_count(&analysis.names);
    let birth = born(
        alloc,
        &analysis.graph,
        &analysis.names,
        &analysis.facts,
        edge,
    )?;
    if let Some(mark) = birth {
        lines.push(shown(alloc, edge.to, &mark, count, &[])?)?;
    }
    Ok(())
}

/// What comes over an edge.
fn add_edge(
    alloc: Global,
    lines: &mut Vec<String>,
    analysis: &Analysis,
    triples: &[Triple],
    edge: &Edge,
) -> Result<(), Fail> {
    add_births(alloc, lines, analysis, edge)?;
    for triple in triples {
        if triple.node == edge.from {
            add_posts(alloc, lines, analysis, triple, edge)?;
        }
    }
    Ok(())
}

fn behind_edges(alloc: Global, analysis: &Analysis) -> Result<Vec<String>, Fail> {
    let derived = derived(alloc, analysis)?;
    let mut lines = Vec::new(alloc);
    for edge in analysis.graph.edges.as_slice() {
        add_edge(
            alloc,
            &mut lines,
            analysis,
            derived.triples.as_slice(),
            edge,
        )?;
    }
    Ok(lines)
}

fn assert_posts(rt: &impl Abort, alloc: Global, case: &Case) -> Result<(), Fail> {
    let analysis = analysed(alloc, case.text)?;
    let lines = behind_edges(alloc, &analysis)?;
    assert!(rt; are_told(lines.as_slice(), case.triples));
    assert!(rt; are_there(lines.as_slice(), case.triples));
    Ok(())
}

fn assert_all(rt: &impl Abort, alloc: Global, cases: &[Case]) -> Result<(), Fail> {
    for case in cases {
        assert_posts(rt, alloc, case)?;
    }
    Ok(())
}

#[test]
fn births_and_posts_of_branches_are_told(rt: HostRuntime) -> Result<(), Fail> {
    assert_all(&rt, rt.alloc(), BRANCHES)
}

#[test]
fn births_and_posts_of_calls_are_told(rt: HostRuntime) -> Result<(), Fail> {
    assert_all(&rt, rt.alloc(), CALLS)
}

#[test]
fn births_and_posts_of_objects_are_told(rt: HostRuntime) -> Result<(), Fail> {
    assert_all(&rt, rt.alloc(), OBJECTS)
}

#[test]
fn births_and_posts_of_fields_are_told(rt: HostRuntime) -> Result<(), Fail> {
    assert_all(&rt, rt.alloc(), FIELD_CASES)
}
