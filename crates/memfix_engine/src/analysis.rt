//! The analyses of a program, from its contexts to the clauses of its cover problem.
ghost use Rattle.std.specs.Prelude.{◌≡◌, ◌≤◌, length, Err, IfErr, IfOk, OnOk};
ghost use Rattle.c_tree.specs.WellFormed.{IsWellFormed};
ghost use Rattle.call_contexts.specs.Contexts.{contexts as contexts_in};
ghost use Rattle.ts_domain.specs.Derived.{PassesStates};
ghost use Rattle.memfix_engine.specs.Analysing.{IsAnalysis, RefusesAnalysis};
ghost use Rattle.memfix_engine.specs.Analysis.{graph_in};
ghost use Rattle.memfix_engine.specs.Parts.{AreFactsOf, IsProblemOf};

use alias_facts::may;
use c_graph::Graph;
use c_tree::{Limit, Program, Refusal};
use call_contexts::contexts;
use cfg_lower::lower;
use cover_clauses::clauses;
use cover_problem::{Problem, problem};
use mf_list::Memory;
use path_facts::path;
use sat_log::Clauses;
use std::alloc::Global;
use ts_domain::{Facts, Names, number};
use typestate_fixpoint::derive;

/// What the analyses find of a program. What is derived stands in the problem.
#[derive(Drop)]
pub(crate) struct Analysis {
    pub(crate) graph: Graph,
    pub(crate) names: Names,
    pub(crate) facts: Facts,
    pub(crate) problem: Problem,
    pub(crate) clauses: Clauses,
}

/// The graph of a program in its contexts.
fn graph_of(alloc: Global, program: &Program) -> Result<Graph, Refusal>
    ensures graph { IfOk result (λ graph. graph ≡ graph_in program.now) }
    ensures contexts { OnOk result (length (contexts_in program.now) ≤ 1024) }
    ensures nodes { OnOk result (length (graph_in program.now).nodes ≤ 10000) }
    ensures refused { IfErr result (RefusesAnalysis program.now) }
{
    let contexts = contexts(alloc, program)?;
    let graph = lower(alloc, program, &contexts)?;
    Ok(graph)
}

/// Which sites flow where, and what holds on every path to a node.
fn facts_of(alloc: Global, graph: &Graph, names: &Names) -> Result<Facts, Memory>
    ensures { IfOk result (AreFactsOf names.now graph.now) }
{
    let may = may(alloc, graph, names)?;
    let path = path(alloc, graph, names)?;
    Ok(Facts { may, path })
}

/// The cover problem of what is derived.
fn problem_of(
    alloc: Global,
    graph: &Graph,
    names: &Names,
    facts: &Facts,
) -> Result<Problem, Refusal>
    ensures problem { IfOk result (IsProblemOf names.now graph.now facts.now) }
    ensures only { (l : Limit) → result ≡ Err (Refusal.Limit l) → l ≡ Limit.States }
    ensures limit { result ≡ Err (Refusal.Limit Limit.States) → PassesStates names.now graph.now facts.now }
{
    let derived = derive(alloc, graph, names, facts)?;
    let problem = problem(alloc, graph, &derived, names, facts)?;
    Ok(problem)
}

/// The analyses of a program.
pub(crate) fn analyse(alloc: Global, program: &Program) -> Result<Analysis, Refusal>
    ensures analysis { IsWellFormed program.now → IfOk result (IsAnalysis program.now) }
    ensures refused { IfErr result (RefusesAnalysis program.now) }
{
    let graph = graph_of(alloc, program)?;
    let names = number(alloc, &graph, program)?;
    let facts = facts_of(alloc, &graph, &names)?;
    let problem = problem_of(alloc, &graph, &names, &facts)?;
    let clauses = clauses(alloc, &problem)?;
    Ok(Analysis {
        graph,
        names,
        facts,
        problem,
        clauses,
    })
}
