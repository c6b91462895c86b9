//! A cover of an analysed program: its own frees where they are one, else what the solver finds.
ghost use Rattle.std.specs.Prelude.{◌≡◌, List, Bool, length, map, IfErr, IfOk, OnOk, IsTrue};
ghost use Rattle.c_tree.specs.Fill.{ascends};
ghost use Rattle.c_tree.specs.WellFormed.{IsWellFormed};
ghost use Rattle.c_tree.specs.declared.choice.Choice.{Choice as Chosen};
ghost use Rattle.sat_log.specs.Clauses.{AreBelow, Satisfies};
ghost use Rattle.sat_log.specs.Refutation.{IsLog};
ghost use Rattle.ts_domain.specs.Chosen.{has_put};
ghost use Rattle.cover_problem.specs.Problem.{HasRooms};
ghost use Rattle.cover_clauses.specs.Clauses.{AreClauses, bits_of, variables};
ghost use Rattle.memfix_engine.specs.Analysing.{IsAnalysis};
ghost use Rattle.memfix_engine.specs.Analysis.{end_offset, exit_offset, malloc_offset, node_malloc, offset_of_action, site_offset};
ghost use Rattle.memfix_engine.specs.Choosing.{IsChosenFor, RefusesChoice};
ghost use Rattle.memfix_engine.specs.OwnFrees.{AreOwn};
ghost use Rattle.memfix_engine.specs.Covers.{AreOffsets, HasOffset, IsOwnSearched, IsSearched};

use crate::analysis::Analysis;
use crate::own_frees::own_choice;
use crate::refusal::RepairRefusal;
use c_graph::{Action, Graph, NodeKind};
use c_tree::{Choice, Program, Put};
use cover_clauses::choice_of;
use cover_problem::{Problem, alone, is_cover};
use mf_list::Memory;
use sat_core::{Answer, solve};
use sat_log::{Clauses, Log, refutes};
use std::alloc::Global;
use ts_domain::{Names, has_put};

/// The offset of the word `malloc` of an action.
fn offset_of_action(action: &Action) -> Option<usize>
    ensures { result ≡ offset_of_action action.now }
{
    match action {
        Action::Malloc(_, _, at) => Some(*at),
        Action::Unset(_)
        | Action::Assign(_)
        | Action::Getchar(_)
        | Action::Putchar(_)
        | Action::Printf(_, _)
        | Action::Test(_)
        | Action::Call(_, _)
        | Action::Return(_)
        | Action::Close => None,
    }
}

/// The offset of the word `malloc` of what stands at a node.
fn malloc_offset(kind: &NodeKind) -> Option<usize>
    ensures { result ≡ malloc_offset kind.now }
{
    match kind {
        NodeKind::Gap(_, _) => None,
        NodeKind::Act(action) => offset_of_action(action),
        NodeKind::Exit(_) => None,
    }
}

/// The offset at which a run ends there.
fn end_offset(kind: &NodeKind) -> Option<usize>
    ensures { result ≡ end_offset kind.now }
{
    match kind {
        NodeKind::Gap(_, _) => None,
        NodeKind::Act(_) => None,
        NodeKind::Exit(at) => Some(*at),
    }
}

/// That of a node, if there is one of that number.
fn node_malloc(graph: &Graph, node: usize) -> Option<usize>
    ensures { result ≡ node_malloc graph.now node }
{
    match graph.nodes.get(node) {
        None => None,
        Some(node) => malloc_offset(&node.kind),
    }
}

/// The offset of the word `malloc` of a site.
fn site_offset(graph: &Graph, names: &Names, site: usize) -> Option<usize>
    ensures { result ≡ site_offset graph.now names.now site }
{
    match names.sites.get(site) {
        None => None,
        Some(node) => node_malloc(graph, *node),
    }
}

/// The offset of the end of a run at a node.
fn exit_offset(graph: &Graph, node: usize) -> Option<usize>
    ensures { result ≡ exit_offset graph.now node }
{
    match graph.nodes.get(node) {
        None => None,
        Some(node) => end_offset(&node.kind),
    }
}

/// The offsets of a site and an exit.
fn offsets(graph: &Graph, names: &Names, place: (usize, usize)) -> (usize, usize)
    requires site { HasOffset (site_offset graph.now names.now place.0) }
    requires exit { HasOffset (exit_offset graph.now place.1) }
    ensures { AreOffsets graph.now names.now place result }
{
    let Some(site) = site_offset(graph, names, place.0) else {
        unreachable!()
    };
    let Some(exit) = exit_offset(graph, place.1) else {
        unreachable!()
    };
    (site, exit)
}

/// Has a log that refutes clauses checked.
fn check_log(alloc: Global, clauses: &Clauses, log: &Log) -> Result<(), Memory>
    requires below { AreBelow clauses.now.vars clauses.now.list }
    requires log { IsLog clauses.now log.now }
    ensures { OnOk result ((bits : List Bool) → Satisfies bits clauses.now.list → ⊥) }
{
    if refutes(alloc, clauses, log)? {
        Ok(())
    } else {
        unreachable!()
    }
}

/// A cover that the solver finds, or that there is none.
fn solved(
    alloc: Global,
    problem: &Problem,
    clauses: &Clauses,
    hint: &[bool],
) -> Result<Option<Choice>, Memory>
    requires rooms { HasRooms problem.now }
    requires ascending { IsTrue (ascends problem.now.names.puts) }
    requires clauses { AreClauses problem.now clauses.now }
    requires below { AreBelow clauses.now.vars clauses.now.list }
    requires hints { length hint.now ≡ clauses.now.vars }
    ensures { IfOk result (IsSearched problem.now) }
{
    match solve(alloc, clauses, hint)? {
        Answer::Sat(bits) => {
            let choice = choice_of(alloc, problem, bits.as_slice())?;
            Ok(Some(choice))
        }
        Answer::Unsat(log) => {
            check_log(alloc, clauses, &log)?;
            Ok(None)
        }
    }
}

/// Of each put whether it is one of the others.
fn marks(alloc: Global, puts: &[Put], others: &[Put]) -> Result<Vec<bool>, Memory>
    ensures { IfOk result (λ bits. bits.items ≡ map (has_put others.now) puts.now) }
{
    let mut bits = Vec::new(alloc);
    for put in puts {
        bits.push(has_put(others, *put))?;
    }
    Ok(bits)
}

/// Of each variable of the clauses whether its put is one of a choice.
fn bits_of(
    alloc: Global,
    problem: &Problem,
    vars: usize,
    choice: &Choice,
) -> Result<Vec<bool>, Memory>
    requires rooms { HasRooms problem.now }
    requires counted { vars ≡ variables problem.now }
    ensures { IfOk result (λ bits. bits.items ≡ bits_of problem.now choice.now) }
{
    let all = vec![in alloc; true; vars]?;
    let usable = choice_of(alloc, problem, all.as_slice())?;
    let bits = marks(alloc, usable.puts.as_slice(), choice.puts.as_slice())?;
    Ok(bits)
}

/// The bits of the program's own frees; where these are no choice, each is false.
fn hint(
    alloc: Global,
    program: &Program,
    problem: &Problem,
    vars: usize,
) -> Result<Vec<bool>, Memory>
    requires well_formed { IsWellFormed program.now }
    requires rooms { HasRooms problem.now }
    requires counted { vars ≡ variables problem.now }
    ensures counted { IfOk result (λ bits. length bits.items ≡ vars) }
    ensures own { IfOk result (λ bits. (s : Chosen) → AreOwn program.now s → bits.items ≡ bits_of problem.now s) }
{
    let Some(own) = own_choice(alloc, program)? else {
        let unset = vec![in alloc; false; vars]?;
        return Ok(unset);
    };
    let bits = bits_of(alloc, problem, vars, &own)?;
    Ok(bits)
}

/// The program's own frees, if they are a cover.
fn own_cover(alloc: Global, program: &Program, problem: &Problem) -> Result<Option<Choice>, Memory>
    requires well_formed { IsWellFormed program.now }
    requires rooms { HasRooms problem.now }
    ensures { IfOk result (IsOwnSearched program.now problem.now) }
{
    let Some(own) = own_choice(alloc, program)? else {
        return Ok(None);
    };
    if is_cover(problem, &own) {
        Ok(Some(own))
    } else {
        Ok(None)
    }
}

/// The cover with whose frees the gaps are filled.
pub(crate) fn choose(
    alloc: Global,
    program: &Program,
    analysis: &Analysis,
) -> Result<Choice, RepairRefusal>
    requires well_formed { IsWellFormed program.now }
    requires analysis { IsAnalysis program.now analysis.now }
    ensures chosen { IfOk result (IsChosenFor program.now analysis.now.problem) }
    ensures refused { IfErr result (RefusesChoice program.now) }
{
    let problem = &analysis.problem;
    if let Some(own) = own_cover(alloc, program, problem)? {
        return Ok(own);
    }
    if let Some(place) = alone(problem) {
        let (site, exit) = offsets(&analysis.graph, &analysis.names, place);
        return Err(RepairRefusal::Alone(site, exit));
    }
    let hint = hint(alloc, program, problem, analysis.clauses.vars)?;
    match solved(alloc, problem, &analysis.clauses, hint.as_slice())? {
        Some(choice) => Ok(choice),
        None => Err(RepairRefusal::Together),
    }
}
