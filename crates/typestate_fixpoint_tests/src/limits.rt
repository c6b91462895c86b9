// How many marks an edge may have behind it.
use crate::analysis::{Analysis, analysed};
use c_graph::{Action, Edge, Graph, NodeKind};
use c_tree::{Limit, Refusal};
use mf_list::Memory;
use mf_set::BitSet;
use std::alloc::Global;
use std::test::Fail;
use ts_domain::{Mark, expression_count, post};

fn repeated(text: &mut String, count: usize, front: &str, behind: &str) -> Result<(), Memory> {
    for number in 0..count {
        write!(text, "{front}{number}{behind}")?;
    }
    Ok(())
}

/// A program that prints what each of so many names of one object points to.
fn printing(alloc: Global, count: usize) -> Result<String, Memory> {
    let mut text = String::new(alloc);
    repeated(&mut text, count, "int *p", "; ")?;
    text.push_str("int main(void) { p0 = malloc(sizeof(int)); ")?;
    repeated(&mut text, count, "p", " = p0; ")?;
    text.push_str("printf(\"")?;
    for _ in 0..count {
        text.push_str("%d ")?;
    }
    text.push_str("\\n\"")?;
    repeated(&mut text, count, ", *p", "")?;
    text.push_str("); return 0; }")?;
    Ok(text)
}

fn prints(graph: &Graph, edge: &Edge) -> bool {
    let Some(node) = graph.nodes.get(edge.from) else {
        return false;
    };
    let NodeKind::Act(Action::Printf(_, _)) = &node.kind else {
        return false;
    };
    true
}

/// How many marks there are behind the edge that prints, of a mark of the first site that decides nothing.
fn posts_of_print(alloc: Global, analysis: &Analysis) -> Result<Option<usize>, Refusal> {
    let Analysis {
        graph,
        names,
        facts,
    } = analysis;
    let count = expression_count(names);
    let mark = Mark {
        site: 0,
        holds: BitSet::with_room(alloc, count)?,
        lacks: BitSet::with_room(alloc, count)?,
    };
    match graph
        .edges
        .as_slice()
        .iter()
        .find(|edge| prints(graph, edge))
    {
        None => Ok(None),
        Some(edge) => {
            let steps = post(alloc, graph, names, facts, &mark, edge)?;
            Ok(Some(steps.len()))
        }
    }
}

/// The same for the program that prints so many.
fn posts_of(alloc: Global, count: usize) -> Result<Result<Option<usize>, Refusal>, Fail> {
    let text = printing(alloc, count)?;
    let analysis = analysed(alloc, text.as_bytes())?;
    Ok(posts_of_print(alloc, &analysis))
}

#[test]
fn an_edge_may_have_4096_marks_behind_it(rt: HostRuntime) -> Result<(), Fail> {
    for (count, marks) in [(1, 2), (12, 4_096)] {
        assert_eq!(rt; posts_of(rt.alloc(), count)?, Ok(Some(marks)));
    }
    Ok(())
}

#[test]
fn an_edge_may_not_have_more(rt: HostRuntime) -> Result<(), Fail> {
    let refused = Err(Refusal::Limit(Limit::States));
    assert_eq!(rt; posts_of(rt.alloc(), 13)?, refused);
    Ok(())
}
