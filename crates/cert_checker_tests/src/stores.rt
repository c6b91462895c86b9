// What a store to a field does to the verdict on the same field of another variable, by what is known of the two.
use crate::certificates::set_of;
use crate::covers::{graph_of, program_of};
use c_graph::Graph;
use mf_list::Memory;
use std::alloc::Global;
use std::test::Fail;
use ts_domain::{Alias, Facts, Mark, Names, Path, Verdict, alias, number, post, verdict};
use typestate_fixpoint_tests::facts::facts_of;

/// Expressions 0 to 4 are `a`, `b`, `v`, `a->d` and `b->d`. Node 11 is the store to `a->d`.
pub const STORE: &[u8] =
    b"struct s { int *d; }; int main(void) { struct s *a = malloc(sizeof(struct s)); struct s *b; int *v; b = a; v = malloc(sizeof(int)); a->d = v; b->d = v; return 0; }";

pub const NODE: usize = 11;

/// The numbers of the facts that `a` and `b` have the same content, and that no object is held by both; and of all facts.
const EQUAL: usize = 8;

const APART: usize = 11;

const FACTS: usize = 14;

/// The facts of the graph with others at the node.
fn facts_with(
    alloc: Global,
    graph: &Graph,
    names: &Names,
    noted: &[usize],
) -> Result<Facts, Memory> {
    let Facts { may, path } = facts_of(alloc, graph, names)?;
    let Path { mut at } = path;
    let set = set_of(alloc, FACTS, noted)?;
    if NODE < at.len() {
        at.set(NODE, set);
    }
    Ok(Facts {
        may,
        path: Path { at },
    })
}

/// Whether `b` is `a`, and the verdicts on `a->d` and `b->d` behind the store, of an object that `v`, `a` and `b` lack and
/// `b->d` holds. `None` where there is not the one mark, untouched.
fn stored(alloc: Global, noted: &[usize]) -> Result<Option<(Alias, Verdict, Verdict)>, Fail> {
    let program = program_of(alloc, STORE)?;
    let graph = graph_of(alloc, &program)?;
    let names = number(alloc, &graph, &program)?;
    let facts = facts_with(alloc, &graph, &names, noted)?;
    let mark = Mark {
        site: 1,
        holds: set_of(alloc, 5, &[4])?,
        lacks: set_of(alloc, 5, &[0, 1, 2])?,
    };
    let edges = graph.edges.as_slice();
    let Some(edge) = edges.iter().find(|edge| edge.from == NODE) else {
        return Ok(None);
    };
    let steps = post(alloc, &graph, &names, &facts, &mark, edge)?;
    let [step] = steps.as_slice() else {
        return Ok(None);
    };
    if step.touched {
        return Ok(None);
    }
    let other = alias(&names, &facts, NODE, &mark, 1, 0);
    Ok(Some((other, verdict(&step.mark, 3), verdict(&step.mark, 4))))
}

const CASES: [(&[usize], Alias, Verdict); 3] = [
    (&[], Alias::Maybe, Verdict::Open),
    (&[APART], Alias::Diff, Verdict::Yes),
    (&[EQUAL], Alias::Same, Verdict::No),
];

fn stores_so(alloc: Global, noted: &[usize], other: Alias, verdict: Verdict) -> Result<bool, Fail> {
    let found = stored(alloc, noted)?;
    Ok(found == Some((other, Verdict::No, verdict)))
}

#[test]
fn a_store_tells_of_the_same_field_elsewhere(rt: HostRuntime) -> Result<(), Fail> {
    for (noted, other, verdict) in &CASES {
        assert!(rt;
            stores_so(rt.alloc(), noted, *other, *verdict)?,
            "of {other:?}"
        );
    }
    Ok(())
}
