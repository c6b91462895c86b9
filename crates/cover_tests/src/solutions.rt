// The bits that satisfy the clauses of worked programs are covers; where there is no cover a log says so.
ghost use Rattle.cover_problem.specs.Problem.{HasRooms};

use crate::cases::{BRANCHES, CALLS, Case, OBJECTS};
use crate::choices::{Found, solved};
use crate::posed::pose;
use c_tree::Choice;
use cover_problem::{Problem, is_cover};
use mf_list::Seq;
use sat_log_tests::logs::is_needed_whole;
use std::alloc::Global;
use std::test::Fail;
use typestate_fixpoint_tests::order::ascends;

fn covers(problem: &Problem, choice: &Choice) -> bool
    requires { HasRooms problem.now }
{
    if !ascends(choice.puts.as_slice()) {
        return false;
    }
    is_cover(problem, choice)
}

/// Whether a cover is found where there is one, and else a log that is needed whole. The hint has this bit for each variable.
fn is_solved(alloc: Global, problem: &Problem, hint: bool, has_cover: bool) -> Result<bool, Fail>
    requires { HasRooms problem.now }
{
    match solved(alloc, problem, hint)? {
        Found::Puts(choice) => Ok(has_cover && covers(problem, &choice)),
        Found::Nothing(clauses, log) => {
            let refuted = is_needed_whole(alloc, &clauses, log)?;
            Ok(!has_cover && refuted)
        }
    }
}

/// Whether no free at all is a cover.
fn is_covered_by_none(alloc: Global, problem: &Problem) -> bool
    requires { HasRooms problem.now }
{
    let none = Choice {
        puts: Seq::new(alloc),
    };
    covers(problem, &none)
}

fn is_right(alloc: Global, case: &Case) -> Result<bool, Fail> {
    let found = pose(alloc, case.text)?;
    let first = is_solved(alloc, &found.problem, false, case.has_cover)?;
    let other = is_solved(alloc, &found.problem, true, case.has_cover)?;
    let by_none = is_covered_by_none(alloc, &found.problem);
    Ok(first && other && by_none == case.exits.is_empty())
}

fn are_right(alloc: Global, cases: &[Case]) -> Result<bool, Fail> {
    for case in cases {
        if !is_right(alloc, case)? {
            return Ok(false);
        }
    }
    Ok(true)
}

#[test]
fn solutions_for_branches_are_covers(rt: HostRuntime) -> Result<(), Fail> {
    assert!(rt; are_right(rt.alloc(), BRANCHES)?);
    Ok(())
}

#[test]
fn solutions_for_calls_are_covers(rt: HostRuntime) -> Result<(), Fail> {
    assert!(rt; are_right(rt.alloc(), CALLS)?);
    Ok(())
}

#[test]
fn solutions_for_objects_are_covers(rt: HostRuntime) -> Result<(), Fail> {
    assert!(rt; are_right(rt.alloc(), OBJECTS)?);
    Ok(())
}
