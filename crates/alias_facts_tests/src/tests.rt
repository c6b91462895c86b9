// What flows where in worked programs.
use crate::programs::FLOWS;
use crate::shown::shown;
use alias_facts::may;
use c_graph::Graph;
use c_lexer::lex;
use c_parser::parse;
use c_tree::Program;
use c_types::resolve;
use call_contexts::contexts;
use cfg_lower::lower;
use mf_list::{Memory, Seq};
use std::alloc::Global;
use std::test::Fail;
use ts_domain::{Names, pointer_vars, pointing_fields, sites_of};

fn program_of(alloc: Global, text: &[u8]) -> Result<Program, Fail> {
    let tokens = lex(alloc, text)?;
    let tree = parse(alloc, &tokens)?;
    Ok(resolve(alloc, &tree)?)
}

/// The names of a program and its graph. Puts play no part in what flows.
fn names_of(alloc: Global, program: Program, graph: &Graph) -> Result<Names, Memory> {
    let Program {
        structs,
        vars: decls,
        ..
    } = program;
    let vars = pointer_vars(alloc, &decls)?;
    let fields = pointing_fields(alloc, &structs, &decls, &vars)?;
    let sites = sites_of(alloc, &graph.nodes)?;
    Ok(Names {
        vars,
        fields,
        sites,
        puts: Seq::new(alloc),
        decls,
        structs,
    })
}

/// What flows where in the program of a text.
fn flows_of(alloc: Global, text: &[u8]) -> Result<String, Fail> {
    let program = program_of(alloc, text)?;
    let graph = lower(alloc, &program, &contexts(alloc, &program)?)?;
    let names = names_of(alloc, program, &graph)?;
    let found = may(alloc, &graph, &names)?;
    Ok(shown(alloc, &found)?)
}

#[test]
fn sites_flow_where_they_are_told_to(rt: HostRuntime) -> Result<(), Fail> {
    for flow in FLOWS {
        let found = flows_of(rt.alloc(), flow.text)?;
        assert_eq!(rt; found.as_str(), flow.flows);
    }
    Ok(())
}
