// Contexts of small programs, and of programs at the limit.
use crate::programs::program;
use c_tree::{Limit, Refusal};
use call_contexts::{Ctx, contexts};
use std::alloc::Global;
use std::test::Fail;

fn ctx(fun: usize, home: Option<(usize, usize)>) -> Ctx {
    Ctx { fun, home }
}

#[test]
fn calls_come_depth_first_in_the_order_of_the_text(rt: HostRuntime) -> Result<(), Fail> {
    let alloc = rt.alloc();
    let program = program(alloc, &[&[], &[0, 0], &[1, 0]])?;
    let found = contexts(alloc, &program)?;
    let expected = [
        ctx(2, None),
        ctx(1, Some((0, 2))),
        ctx(0, Some((1, 0))),
        ctx(0, Some((1, 1))),
        ctx(0, Some((0, 3))),
    ];
    assert_eq!(rt; found.list.as_slice(), expected.as_slice());
    Ok(())
}

#[test]
fn callees_and_homes_are_found(rt: HostRuntime) -> Result<(), Fail> {
    let alloc = rt.alloc();
    let program = program(alloc, &[&[], &[0, 0], &[1, 0]])?;
    let found = contexts(alloc, &program)?;
    assert_eq!(rt; found.callee(1, 1), Some(3));
    assert_eq!(rt; found.callee(1, 2), None);
    assert_eq!(rt; found.home(4), Some((0, 3)));
    assert_eq!(rt; found.home(0), None);
    Ok(())
}

/// How many contexts there are where `main` calls a function so often, or the refusal.
fn count(alloc: Global, calls: usize) -> Result<Result<usize, Refusal>, Fail> {
    let callees = vec![in alloc; 0; calls]?;
    let program = program(alloc, &[&[], callees.as_slice()])?;
    match contexts(alloc, &program) {
        Ok(found) => Ok(Ok(found.list.len())),
        Err(refusal) => Ok(Err(refusal)),
    }
}

#[test]
fn more_than_1024_are_refused(rt: HostRuntime) -> Result<(), Fail> {
    let alloc = rt.alloc();
    assert_eq!(rt; count(alloc, 1023)?, Ok(1024));
    assert_eq!(rt; count(alloc, 1024)?, Err(Refusal::Limit(Limit::Contexts)));
    Ok(())
}
