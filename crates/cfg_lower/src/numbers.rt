// The numbers of nodes.
ghost use Rattle.std.specs.Prelude.{◌≡◌, ◌+◌, ◌<◌, ◌≤◌, IfOk, length};
ghost use Rattle.c_graph.specs.Nodes.{In, Out, all_placed, number_of};
ghost use Rattle.cfg_lower.specs.Rows.{inside as inside_of, numbers_of, rows_of, size as size_of, tables_of};
ghost use Rattle.cfg_lower.specs.Sources.{IsSource, contexts_of, program_of};

use crate::ranks::rank;
use crate::rows::{exits, rows};
use crate::source::Source;
use crate::tables::{Numbers, Row, Tables};
use c_tree::{Limit, Program, Refusal};
use call_contexts::Contexts;
use mf_list::Seq;
use std::alloc::Global;

/// The greatest number of nodes.
const MOST: usize = 10_000;

/// A count of nodes with more.
fn counted(count: usize, more: usize) -> Result<usize, Refusal>
    requires { count ≤ 10000 }
    ensures ok { IfOk result (λ sum. sum ≡ count + more) }
    ensures within { IfOk result (λ sum. sum ≤ 10000) }
    ensures only { (l : Limit) → result ≡ Err (Refusal.Limit l) → l ≡ Limit.Nodes }
    ensures limit { result ≡ Err (Refusal.Limit Limit.Nodes) → 10000 < count + more }
{
    if more > MOST - count {
        return Err(Refusal::Limit(Limit::Nodes));
    }
    Ok(count + more)
}

/// How many nodes a function has in one context.
fn size(program: &Program, rows: &Seq<Row>, fun: usize) -> usize
    requires { rows.now ≡ rows_of program.now }
    ensures { result ≡ size_of program.now fun }
{
    match rows.get(fun) {
        None => 0,
        Some(row) => row.places.len(),
    }
}

/// The numbers of the first nodes of contexts, and how many nodes all have.
fn numbers(
    alloc: Global,
    program: &Program,
    contexts: &Contexts,
    rows: &Seq<Row>,
) -> Result<Numbers, Refusal>
    requires { rows.now ≡ rows_of program.now }
    ensures ok { IfOk result (λ made. made ≡ numbers_of program.now contexts.now.list) }
    ensures within { IfOk result (λ made. made.inside ≤ 10000) }
    ensures only { (l : Limit) → result ≡ Err (Refusal.Limit l) → l ≡ Limit.Nodes }
    ensures limit { result ≡ Err (Refusal.Limit Limit.Nodes) → 10000 < inside_of program.now contexts.now.list }
{
    let mut firsts = Seq::new(alloc);
    let mut inside = 0;
    let list = contexts.list.as_slice();
    for context in list {
        firsts.push(inside)?;
        inside = counted(inside, size(program, rows, context.fun))?;
    }
    Ok(Numbers { firsts, inside })
}

/// What is computed of a program and its contexts before their graph is made.
pub fn tables(alloc: Global, program: &Program, contexts: &Contexts) -> Result<Tables, Refusal>
    ensures ok { IfOk result (λ made. made ≡ tables_of program.now contexts.now.list) }
    ensures within { IfOk result (λ made. length (all_placed program.now contexts.now.list) ≤ 10000) }
    ensures only { (l : Limit) → result ≡ Err (Refusal.Limit l) → l ≡ Limit.Nodes }
    ensures limit { result ≡ Err (Refusal.Limit Limit.Nodes) → 10000 < length (all_placed program.now contexts.now.list) }
{
    let rows = rows(alloc, program)?;
    let Numbers { firsts, inside } = numbers(alloc, program, contexts, &rows)?;
    let exits = exits(alloc, program, &rows)?;
    let count = counted(inside, exits.len())?;
    Ok(Tables {
        rows,
        firsts,
        inside,
        exits,
        count,
    })
}

/// The number of what stands at a path in a context; past all nodes where nothing stands.
pub fn place_number(source: Source, ctx: usize, path: &[usize]) -> usize
    requires { IsSource source }
    ensures { result ≡ number_of (program_of source.entry) (contexts_of source.entry) (In ctx path.now) }
{
    let tables = source.tables;
    let Some(context) = source.contexts.list.get(ctx) else {
        return tables.count;
    };
    let Some(row) = tables.rows.get(context.fun) else {
        return tables.count;
    };
    match rank(row.places.as_slice(), path) {
        None => tables.count,
        Some(rank) => *tables.firsts.at(ctx) + rank,
    }
}

/// The number of the exit behind a place of `main`.
pub fn exit_number(source: Source, path: &[usize]) -> usize
    requires { IsSource source }
    ensures { result ≡ number_of (program_of source.entry) (contexts_of source.entry) (Out path.now) }
{
    let tables = source.tables;
    match rank(tables.exits.as_slice(), path) {
        None => tables.count,
        Some(rank) => tables.inside + rank,
    }
}
