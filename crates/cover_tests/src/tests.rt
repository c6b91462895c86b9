// The cover problems of worked programs, and their clauses.
ghost use Rattle.cover_problem.specs.Problem.{HasRooms};

use crate::cases::{BRANCHES, CALLS, Case, OBJECTS};
use crate::choices::all_puts;
use crate::posed::pose;
use crate::shown::{are_there, are_told, shown_clauses, shown_exits, shown_puts, shown_set};
use cover_clauses::clauses;
use cover_problem::{Problem, alone};
use std::alloc::Global;
use std::process::Abort;
use std::test::Fail;

fn assert_problem(
    rt: &impl Abort,
    alloc: Global,
    case: &Case,
    problem: &Problem,
) -> Result<(), Fail> {
    let allowed = shown_set(alloc, &problem.allowed)?;
    assert_eq!(rt; allowed.as_str(), case.allowed);
    let exits = shown_exits(alloc, problem.exits.as_slice())?;
    assert!(rt; are_told(exits.as_slice(), case.exits));
    assert!(rt; are_there(exits.as_slice(), case.exits));
    assert_eq!(rt; alone(problem), case.alone);
    Ok(())
}

fn assert_clauses(
    rt: &impl Abort,
    alloc: Global,
    case: &Case,
    problem: &Problem,
) -> Result<(), Fail>
    requires { HasRooms problem.now }
{
    let clauses = clauses(alloc, problem)?;
    let lines = shown_clauses(alloc, clauses.list.as_slice())?;
    assert!(rt; are_told(lines.as_slice(), case.clauses));
    assert!(rt; are_there(lines.as_slice(), case.clauses));
    assert_eq!(rt; lines.len(), case.clauses.len());
    let all = all_puts(alloc, problem, &clauses)?;
    let usable = shown_puts(alloc, problem.names.puts.as_slice(), all.puts.as_slice())?;
    assert_eq!(rt; usable.as_str(), case.usable);
    Ok(())
}

fn assert_all(rt: &impl Abort, alloc: Global, cases: &[Case]) -> Result<(), Fail> {
    for case in cases {
        let found = pose(alloc, case.text)?;
        assert_problem(rt, alloc, case, &found.problem)?;
        assert_clauses(rt, alloc, case, &found.problem)?;
    }
    Ok(())
}

#[test]
fn problems_and_clauses_of_branches_are_told(rt: HostRuntime) -> Result<(), Fail> {
    assert_all(&rt, rt.alloc(), BRANCHES)
}

#[test]
fn problems_and_clauses_of_calls_are_told(rt: HostRuntime) -> Result<(), Fail> {
    assert_all(&rt, rt.alloc(), CALLS)
}

#[test]
fn problems_and_clauses_of_objects_are_told(rt: HostRuntime) -> Result<(), Fail> {
    assert_all(&rt, rt.alloc(), OBJECTS)
}
