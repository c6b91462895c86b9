// The analyses of the program of a text.
use crate::facts::facts_of;
use c_graph::Graph;
use c_lexer::lex;
use c_parser::parse;
use c_tree::{Program, Refusal};
use c_types::resolve;
use call_contexts::contexts;
use cfg_lower::lower;
use std::alloc::Global;
use std::test::Fail;
use ts_domain::{Derived, Facts, Names, number};
use typestate_fixpoint::derive;

/// A graph with its names and its facts.
#[derive(Drop)]
pub struct Analysis {
    pub graph: Graph,
    pub names: Names,
    pub facts: Facts,
}

fn program_of(alloc: Global, text: &[u8]) -> Result<Program, Fail> {
    let tokens = lex(alloc, text)?;
    let tree = parse(alloc, &tokens)?;
    Ok(resolve(alloc, &tree)?)
}

pub fn analysed(alloc: Global, text: &[u8]) -> Result<Analysis, Fail> {
    let program = program_of(alloc, text)?;
    let graph = lower(alloc, &program, &contexts(alloc, &program)?)?;
    let names = number(alloc, &graph, &program)?;
    let facts = facts_of(alloc, &graph, &names)?;
    Ok(Analysis {
        graph,
        names,
        facts,
    })
}

pub fn derived(alloc: Global, analysis: &Analysis) -> Result<Derived, Refusal> {
    derive(alloc, &analysis.graph, &analysis.names, &analysis.facts)
}
