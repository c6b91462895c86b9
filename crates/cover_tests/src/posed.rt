// The cover problem of the program of a text.
ghost use Rattle.std.specs.Prelude.{IfOk};
ghost use Rattle.cover_problem.specs.Problem.{HasRooms};

use crate::problems::problem_in;
use c_graph::Graph;
use c_lexer::lex;
use c_parser::parse;
use c_tree::Program;
use c_types::resolve;
use call_contexts::contexts;
use cfg_lower::lower;
use cover_problem::Problem;
use std::alloc::Global;
use std::test::Fail;
use ts_domain::number;
use typestate_fixpoint_tests::facts::facts_of;

/// A graph and its cover problem.
#[derive(Drop)]
pub struct Posed {
    pub graph: Graph,
    pub problem: Problem,
}

fn program_of(alloc: Global, text: &[u8]) -> Result<Program, Fail> {
    let tokens = lex(alloc, text)?;
    let tree = parse(alloc, &tokens)?;
    Ok(resolve(alloc, &tree)?)
}

fn graph_of(alloc: Global, program: &Program) -> Result<Graph, Fail> {
    let contexts = contexts(alloc, program)?;
    Ok(lower(alloc, program, &contexts)?)
}

pub fn pose(alloc: Global, text: &[u8]) -> Result<Posed, Fail>
    ensures { IfOk result (λ p. HasRooms p.problem) }
{
    let program = program_of(alloc, text)?;
    let graph = graph_of(alloc, &program)?;
    let names = number(alloc, &graph, &program)?;
    let facts = facts_of(alloc, &graph, &names)?;
    let problem = problem_in(alloc, &graph, &names, &facts)?;
    Ok(Posed { graph, problem })
}
