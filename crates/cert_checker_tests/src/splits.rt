// What a read splits a mark into: its verdicts on `a->d`, mark by mark.
use crate::certificates::set_of;
use crate::covers::{graph_of, program_of};
use crate::stores::{NODE, STORE};
use std::alloc::Global;
use std::test::Fail;
use ts_domain::{Mark, Read, Verdict, number, split, verdict};
use typestate_fixpoint_tests::facts::facts_of;

/// The verdicts on `a->d` of the marks that a read at the store splits a mark of a site into, which holds `b->d`, lacks `a`, `b`
/// and `v`, and leaves `a->d` undecided.
fn split_by(alloc: Global, site: usize, read: Read) -> Result<Vec<Verdict>, Fail> {
    let program = program_of(alloc, STORE)?;
    let graph = graph_of(alloc, &program)?;
    let names = number(alloc, &graph, &program)?;
    let facts = facts_of(alloc, &graph, &names)?;
    let mark = Mark {
        site,
        holds: set_of(alloc, 5, &[4])?,
        lacks: set_of(alloc, 5, &[0, 1, 2])?,
    };
    let mut verdicts = Vec::new(alloc);
    for mark in split(alloc, &graph, &names, &facts, NODE, &mark, &read)?.as_slice() {
        verdicts.push(verdict(mark, 3))?;
    }
    Ok(verdicts)
}

const CASES: [(usize, Read, &[Verdict]); 6] = [
    (1, Read::Name(3), &[Verdict::Yes, Verdict::No]),
    (0, Read::Name(3), &[Verdict::No]),
    (1, Read::Name(0), &[Verdict::Open]),
    (1, Read::Name(4), &[Verdict::Open]),
    (1, Read::Deep(0, 0), &[Verdict::Open, Verdict::Open]),
    (0, Read::Deep(0, 0), &[Verdict::Open]),
];

fn splits_so(alloc: Global, site: usize, read: Read, told: &[Verdict]) -> Result<bool, Fail> {
    let found = split_by(alloc, site, read)?;
    Ok(found.as_slice() == told)
}

#[test]
fn reads_split_marks(rt: HostRuntime) -> Result<(), Fail> {
    for (site, read, told) in &CASES {
        assert!(rt; splits_so(rt.alloc(), *site, *read, told)?, "of {read:?}");
    }
    Ok(())
}
