// The certificate of a cover of the program of a text.
ghost use Rattle.c_tree.specs.Fill.{IsAscending};

use c_graph::Graph;
use c_lexer::lex;
use c_parser::parse;
use c_tree::{Choice, Program, fill};
use c_types::resolve;
use call_contexts::contexts;
use cert_checker::{CheckRefusal, check};
use cfg_lower::lower;
use cover_certificate::{Cert, make};
use cover_tests::choices::{Found, solved};
use cover_tests::problems::problem_in;
use std::alloc::Global;
use std::test::Fail;
use ts_domain::{Names, number};
use typestate_fixpoint::derive;
use typestate_fixpoint_tests::facts::facts_of;
use typestate_fixpoint_tests::order::ascends;

/// A graph with its names and a certificate for it.
#[derive(Drop)]
pub struct Certified {
    pub graph: Graph,
    pub names: Names,
    pub cert: Cert,
}

impl Certified {
    pub fn check(&self, alloc: Global) -> Result<(), CheckRefusal> {
        check(alloc, &self.graph, &self.names, &self.cert)
    }
}

pub fn program_of(alloc: Global, text: &[u8]) -> Result<Program, Fail> {
    let tokens = lex(alloc, text)?;
    let tree = parse(alloc, &tokens)?;
    Ok(resolve(alloc, &tree)?)
}

pub fn graph_of(alloc: Global, program: &Program) -> Result<Graph, Fail> {
    let contexts = contexts(alloc, program)?;
    Ok(lower(alloc, program, &contexts)?)
}

/// What the check says of a certificate for the program of a text.
pub fn check_for(alloc: Global, text: &[u8], cert: Cert) -> Result<Result<(), CheckRefusal>, Fail> {
    let program = program_of(alloc, text)?;
    let graph = graph_of(alloc, &program)?;
    let names = number(alloc, &graph, &program)?;
    let whole = Certified { graph, names, cert };
    Ok(whole.check(alloc))
}

fn cover_of(alloc: Global, program: &Program) -> Result<Found, Fail> {
    let graph = graph_of(alloc, program)?;
    let names = number(alloc, &graph, program)?;
    let facts = facts_of(alloc, &graph, &names)?;
    let problem = problem_in(alloc, &graph, &names, &facts)?;
    Ok(solved(alloc, &problem, false)?)
}

/// The certificate of a cover of a program.
fn made(alloc: Global, program: &Program, choice: &Choice) -> Result<Cert, Fail>
    requires { IsAscending choice.now }
{
    let graph = graph_of(alloc, program)?;
    let names = number(alloc, &graph, program)?;
    let facts = facts_of(alloc, &graph, &names)?;
    let derived = derive(alloc, &graph, &names, &facts)?;
    Ok(make(alloc, &graph, &derived, &names, &facts, choice)?)
}

/// The graph of the program with the frees of a cover, and the certificate of that cover; None where it doesn't ascend.
fn certified_by(
    alloc: Global,
    program: &Program,
    choice: &Choice,
) -> Result<Option<Certified>, Fail> {
    if !ascends(choice.puts.as_slice()) {
        return Ok(None);
    }
    let cert = made(alloc, program, choice)?;
    let filled = fill(alloc, program, choice)?;
    let graph = graph_of(alloc, &filled)?;
    let names = number(alloc, &graph, &filled)?;
    Ok(Some(Certified { graph, names, cert }))
}

/// The same for the program of a text, if it has a cover.
pub fn certify(alloc: Global, text: &[u8]) -> Result<Option<Certified>, Fail> {
    let program = program_of(alloc, text)?;
    match cover_of(alloc, &program)? {
        Found::Nothing(_, _) => Ok(None),
        Found::Puts(choice) => certified_by(alloc, &program, &choice),
    }
}
