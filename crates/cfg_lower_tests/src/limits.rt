// The largest graph, and one with a node too many.
use crate::tests::program_of;
use c_tree::{Limit, Refusal};
use call_contexts::contexts;
use cfg_lower::lower;
use mf_list::Memory;
use std::alloc::Global;
use std::test::Fail;

/// A program that has two nodes for each assignment, and six nodes more than these and those of `last`.
fn text_of(alloc: Global, assignments: usize, last: &str) -> Result<String, Memory> {
    let mut text = String::new(alloc);
    text.push_str("int x; int main(void) { ")?;
    for _ in 0..assignments {
        text.push_str("x = 1; ")?;
    }
    text.push_str(last)?;
    text.push_str("return 0; }")?;
    Ok(text)
}

fn nodes_of(alloc: Global, assignments: usize, last: &str) -> Result<Result<usize, Refusal>, Fail> {
    let text = text_of(alloc, assignments, last)?;
    let program = program_of(alloc, text.as_bytes())?;
    let contexts = contexts(alloc, &program)?;
    match lower(alloc, &program, &contexts) {
        Ok(graph) => Ok(Ok(graph.nodes.len())),
        Err(refusal) => Ok(Err(refusal)),
    }
}

#[test]
fn more_than_10_000_nodes_are_refused(rt: HostRuntime) -> Result<(), Fail> {
    let alloc = rt.alloc();
    assert_eq!(rt; nodes_of(alloc, 4_997, "")?, Ok(10_000));
    assert_eq!(rt; nodes_of(alloc, 4_995, "if (x) { } ")?, Ok(9_999));
    assert_eq!(rt;
        nodes_of(alloc, 4_996, "if (x) { } ")?,
        Err(Refusal::Limit(Limit::Nodes))
    );
    Ok(())
}
