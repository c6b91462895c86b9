// What is derived from worked programs: triples, forbidden puts and pairs that conflict.
use crate::analysis::{analysed, derived};
use crate::cases::{BRANCHES, CALLS, Case, OBJECTS};
use crate::field_cases::FIELD_CASES;
use crate::shown::{are_there, are_told, shown, shown_numbers, shown_pairs};
use mf_list::Memory;
use std::alloc::Global;
use std::process::Abort;
use std::test::Fail;
use ts_domain::{Derived, expression_count};

fn triple_lines(alloc: Global, derived: &Derived, count: usize) -> Result<Vec<String>, Memory> {
    let mut lines = Vec::new(alloc);
    for triple in derived.triples.as_slice() {
        let candidates = triple.puts.to_vec(alloc)?;
        let line = shown(
            alloc,
            triple.node,
            &triple.mark,
            count,
            candidates.as_slice(),
        )?;
        lines.push(line)?;
    }
    Ok(lines)
}

fn assert_derived(rt: &impl Abort, alloc: Global, case: &Case) -> Result<(), Fail> {
    let analysis = analysed(alloc, case.text)?;
    let derived = derived(alloc, &analysis)?;
    let lines = triple_lines(alloc, &derived, expression_count(&analysis.names))?;
    assert!(rt; are_told(lines.as_slice(), case.triples));
    assert!(rt; are_there(lines.as_slice(), case.triples));
    assert_eq!(rt; lines.len(), case.triples.len());
    let forbidden = derived.forbidden.to_vec(alloc)?;
    let forbidden = shown_numbers(alloc, forbidden.as_slice())?;
    assert_eq!(rt; forbidden.as_str(), case.forbidden);
    let pairs = shown_pairs(alloc, derived.pairs.as_slice())?;
    assert_eq!(rt; pairs.as_str(), case.pairs);
    Ok(())
}

fn assert_all(rt: &impl Abort, alloc: Global, cases: &[Case]) -> Result<(), Fail> {
    for case in cases {
        assert_derived(rt, alloc, case)?;
    }
    Ok(())
}

#[test]
fn derives_what_is_told_of_branches(rt: HostRuntime) -> Result<(), Fail> {
    assert_all(&rt, rt.alloc(), BRANCHES)
}

#[test]
fn derives_what_is_told_of_calls(rt: HostRuntime) -> Result<(), Fail> {
    assert_all(&rt, rt.alloc(), CALLS)
}

#[test]
fn derives_what_is_told_of_objects(rt: HostRuntime) -> Result<(), Fail> {
    assert_all(&rt, rt.alloc(), OBJECTS)
}

#[test]
fn derives_what_is_told_of_fields(rt: HostRuntime) -> Result<(), Fail> {
    assert_all(&rt, rt.alloc(), FIELD_CASES)
}
