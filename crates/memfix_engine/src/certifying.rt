//! The certificate of a cover, checked against the graph of the filled program.
ghost use Rattle.std.specs.Prelude.{◌≡◌, ◌≤◌, length, IfOk};
ghost use Rattle.c_meaning.specs.Safe.{Safe};
ghost use Rattle.c_tree.specs.Fill.{IsAscending, fill};
ghost use Rattle.c_tree.specs.WellFormed.{IsWellFormed};
ghost use Rattle.call_contexts.specs.Contexts.{contexts};
ghost use Rattle.cover_problem.specs.Problem.{IsCoverOf};
ghost use Rattle.memfix_engine.specs.Analysing.{IsAnalysis};
ghost use Rattle.memfix_engine.specs.Analysis.{graph_in};

use crate::analysis::Analysis;
use c_graph::Graph;
use c_tree::{Choice, Program, Refusal, fill};
use call_contexts::contexts;
use cert_checker::{CheckRefusal, check};
use cfg_lower::lower;
use cover_certificate::make;
use mf_list::Memory;
use std::alloc::{AllocError, Global};

/// The graph of a program whose contexts and nodes are known to be few.
fn graph_of(alloc: Global, program: &Program) -> Result<Graph, Memory>
    requires contexts { length (contexts program.now) ≤ 1024 }
    requires nodes { length (graph_in program.now).nodes ≤ 10000 }
    ensures { IfOk result (λ g. g ≡ graph_in program.now) }
{
    let contexts = match contexts(alloc, program) {
        Ok(contexts) => contexts,
        Err(Refusal::Memory) => return Err(AllocError),
        Err(Refusal::Limit(_)) => unreachable!(),
    };
    match lower(alloc, program, &contexts) {
        Ok(graph) => Ok(graph),
        Err(Refusal::Memory) => Err(AllocError),
        Err(Refusal::Limit(_)) => unreachable!(),
    }
}

/// Makes the certificate of the cover and checks it.
pub(crate) fn certify(
    alloc: Global,
    program: &Program,
    analysis: &Analysis,
    choice: &Choice,
) -> Result<(), Memory>
    requires well_formed { IsWellFormed program.now }
    requires analysis { IsAnalysis program.now analysis.now }
    requires ascending { IsAscending choice.now }
    requires cover { IsCoverOf analysis.now.problem choice.now }
    ensures safe { IfOk result (λ _. Safe (fill program.now choice.now)) }
{
    let derived = &analysis.problem.derived;
    let cert = make(
        alloc,
        &analysis.graph,
        derived,
        &analysis.names,
        &analysis.facts,
        choice,
    )?;
    let filled = fill(alloc, program, choice)?;
    let graph = graph_of(alloc, &filled)?;
    match check(alloc, &graph, &analysis.names, &cert) {
        Ok(()) => Ok(()),
        Err(CheckRefusal::Memory) => Err(AllocError),
        Err(CheckRefusal::NotClosed(_, _)) => unreachable!(),
    }
}
