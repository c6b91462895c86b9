// The facts that hold at the nodes of worked programs.
use crate::programs::HELD;
use crate::shown::shown;
use c_lexer::lex;
use c_parser::parse;
use c_tree::Program;
use c_types::resolve;
use call_contexts::contexts;
use cfg_lower::lower;
use path_facts::path;
use std::alloc::Global;
use std::test::Fail;
use ts_domain::{Path, number};

fn program_of(alloc: Global, text: &[u8]) -> Result<Program, Fail> {
    let tokens = lex(alloc, text)?;
    let tree = parse(alloc, &tokens)?;
    Ok(resolve(alloc, &tree)?)
}

/// The facts at the nodes of the program of a text.
fn path_of(alloc: Global, text: &[u8]) -> Result<Path, Fail> {
    let program = program_of(alloc, text)?;
    let graph = lower(alloc, &program, &contexts(alloc, &program)?)?;
    let names = number(alloc, &graph, &program)?;
    Ok(path(alloc, &graph, &names)?)
}

#[test]
fn facts_hold_where_they_are_told_to(rt: HostRuntime) -> Result<(), Fail> {
    for held in HELD {
        let found = path_of(rt.alloc(), held.text)?;
        assert_eq!(rt; found.at.len(), held.nodes);
        assert_eq!(rt; shown(rt.alloc(), &found)?.as_str(), held.facts);
    }
    Ok(())
}
