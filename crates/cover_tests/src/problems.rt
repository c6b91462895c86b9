//! The cover problem of a graph.
ghost use Rattle.std.specs.Prelude.{IfOk};
ghost use Rattle.cover_problem.specs.Problem.{HasRooms};

use c_graph::Graph;
use c_tree::Refusal;
use cover_problem::{Problem, problem};
use std::alloc::Global;
use ts_domain::{Facts, Names};
use typestate_fixpoint::derive;

/// What a choice of puts has to meet, of what is derived.
pub fn problem_in(
    alloc: Global,
    graph: &Graph,
    names: &Names,
    facts: &Facts,
) -> Result<Problem, Refusal>
    ensures rooms { IfOk result HasRooms }
{
    let derived = derive(alloc, graph, names, facts)?;
    let problem = problem(alloc, graph, &derived, names, facts)?;
    Ok(problem)
}
