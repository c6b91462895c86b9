// The graphs of worked programs, node by node.
use crate::programs::COURSES;
use crate::shown::shown;
use c_graph::{Edge, Graph};
use c_lexer::lex;
use c_parser::parse;
use c_tree::Program;
use c_types::resolve;
use call_contexts::contexts;
use cfg_lower::lower;
use mf_list::Memory;
use std::alloc::Global;
use std::test::Fail;

pub fn program_of(alloc: Global, text: &[u8]) -> Result<Program, Fail> {
    let tokens = lex(alloc, text)?;
    let tree = parse(alloc, &tokens)?;
    Ok(resolve(alloc, &tree)?)
}

/// The graph of a text in the contexts of its program.
fn graph_of(alloc: Global, text: &[u8]) -> Result<Graph, Fail> {
    let program = program_of(alloc, text)?;
    Ok(lower(alloc, &program, &contexts(alloc, &program)?)?)
}

/// The first line of a graph that is another than told.
fn other_line(alloc: Global, graph: &Graph, told: &[&str]) -> Result<Option<String>, Memory> {
    for (at, (node, line)) in graph.nodes.as_slice().iter().zip(told).enumerate() {
        let found = shown(alloc, at, node, graph.edges.as_slice())?;
        if found.as_str() != *line {
            return Ok(Some(found));
        }
    }
    Ok(None)
}

fn ascend(edges: &[Edge]) -> bool {
    edges
        .iter()
        .zip(edges.iter().skip(1))
        .all(|(a, b)| a.from <= b.from)
}

#[test]
fn graphs_have_the_nodes_and_edges_that_are_told(rt: HostRuntime) -> Result<(), Fail> {
    for course in COURSES {
        let graph = graph_of(rt.alloc(), course.text)?;
        assert_eq!(rt; other_line(rt.alloc(), &graph, course.lines)?, None);
        assert_eq!(rt; graph.nodes.len(), course.lines.len());
        assert_eq!(rt; graph.edges.len(), course.edges);
        assert!(rt; ascend(graph.edges.as_slice()));
    }
    Ok(())
}
