// The counts that are told of three programs: a leak behind a null test, a read in the last return, and two exits that want two
// puts which one triple holds.
use crate::posed::{Posed, pose};
use c_graph::NodeKind;
use cover_clauses::clauses;
use cover_problem::alone;
use mf_list::Memory;
use std::alloc::Global;
use std::test::Fail;
use ts_domain::Derived;
use typestate_fixpoint_tests::programs;

/// What is counted: puts, forbidden puts, pairs, variables, clauses and the literals of the first.
#[derive(Clone, Copy, Debug, PartialEq, Eq)]
struct Counts {
    puts: usize,
    forbidden: usize,
    pairs: usize,
    variables: usize,
    clauses: usize,
    literals: Option<usize>,
}

fn counts_of(alloc: Global, text: &[u8]) -> Result<Counts, Fail> {
    let Posed { problem, .. } = pose(alloc, text)?;
    let clauses = clauses(alloc, &problem)?;
    Ok(Counts {
        puts: problem.names.puts.len(),
        forbidden: problem.derived.forbidden.count(),
        pairs: problem.derived.pairs.len(),
        variables: clauses.vars,
        clauses: clauses.list.len(),
        literals: clauses.list.get(0).map(|clause| clause.len()),
    })
}

/// The nodes of triples, ascending.
fn nodes_of(alloc: Global, derived: &Derived) -> Result<Vec<usize>, Memory> {
    let mut nodes = Vec::new(alloc);
    for triple in derived.triples.as_slice() {
        nodes.push(triple.node)?;
    }
    nodes.sort_unstable();
    Ok(nodes)
}

#[test]
fn the_leak_behind_a_null_test_is_counted(rt: HostRuntime) -> Result<(), Fail> {
    let told = Counts {
        puts: 7,
        forbidden: 3,
        pairs: 0,
        variables: 1,
        clauses: 1,
        literals: Some(1),
    };
    assert_eq!(rt; counts_of(rt.alloc(), programs::BRANCH)?, told);
    let Posed { problem, .. } = pose(rt.alloc(), programs::BRANCH)?;
    let nodes = nodes_of(rt.alloc(), &problem.derived)?;
    assert_eq!(rt;
        nodes.as_slice(),
        [2, 3, 7, 8, 9, 10, 11, 12, 16].as_slice()
    );
    assert_eq!(rt; alone(&problem), None);
    Ok(())
}

const READ_IN_RETURN: &[u8] =
    b"int main(void) { int *p = malloc(sizeof(int)); if (p == NULL) { return 1; } *p = 7; return *p; }";

/// The site that no put can free, and the offset of its exit.
fn stuck(alloc: Global, text: &[u8]) -> Result<Option<(usize, usize)>, Fail> {
    let Posed { graph, problem } = pose(alloc, text)?;
    let Some((site, exit)) = alone(&problem) else {
        return Ok(None);
    };
    let Some(node) = graph.nodes.get(exit) else {
        return Ok(None);
    };
    match node.kind {
        NodeKind::Exit(offset) => Ok(Some((site, offset))),
        NodeKind::Act(_) => Ok(None),
        NodeKind::Gap(_, _) => Ok(None),
    }
}

#[test]
fn what_no_put_can_free_is_found(rt: HostRuntime) -> Result<(), Fail> {
    assert_eq!(rt; stuck(rt.alloc(), READ_IN_RETURN)?, Some((0, 84)));
    assert_eq!(rt; stuck(rt.alloc(), programs::NO_CHOICE)?, None);
    Ok(())
}
