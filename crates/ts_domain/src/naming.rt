// The numbers of variables, fields, sites and puts.
ghost use Rattle.std.specs.Prelude.{◌≡◌, ◌<◌, ◌≤◌, ◌++◌, length, None, Some, IfOk, IsTrue, OnOk};
ghost use Rattle.c_tree.specs.Fill.{ascends};
ghost use Rattle.c_tree.specs.WellFormed.{IsWellFormed};
ghost use Rattle.ts_domain.specs.Numbering.{pointing_fields};
ghost use Rattle.ts_domain.specs.Puts.{names_of, passed};

use crate::names::Names;
use crate::numbering::{add_pairs, pointer_vars, sites_of, var_fields};
use crate::puts::{puts_of, within};
use c_graph::Graph;
use c_tree::{Duplicate, Limit, Program, Refusal, StructDef, VarDef};
use mf_list::Seq;
use std::alloc::Global;

/// The greatest number of pointer variables.
const MOST_VARIABLES: usize = 256;

/// The greatest number of pointing expressions.
const MOST_EXPRESSIONS: usize = 1024;

/// The greatest number of sites.
const MOST_SITES: usize = 1024;

/// The fields of pointer variables, if there are at most so many.
fn fields_within(
    alloc: Global,
    structs: &Seq<StructDef>,
    decls: &Seq<VarDef>,
    vars: &Seq<usize>,
    most: usize,
) -> Result<Seq<(usize, usize)>, Refusal>
    ensures ok { IfOk result (λ list. list ≡ pointing_fields structs.now decls.now vars.now) }
    ensures within { IfOk result (λ list. length list ≤ most) }
    ensures only { (l : Limit) → result ≡ Err (Refusal.Limit l) → l ≡ Limit.Expressions }
    ensures passed { (l : Limit) → result ≡ Err (Refusal.Limit l) → most < length (pointing_fields structs.now decls.now vars.now) }
{
    let mut list = Seq::new(alloc);
    for place in 0..vars.len() {
        let fields = var_fields(alloc, structs, decls, *vars.at(place))?;
        add_pairs(&mut list, place, fields.as_slice())?;
        within(list.len(), most, Limit::Expressions)?;
    }
    Ok(list)
}

/// The names of a program's graph.
///
/// # Errors
/// The first limit that a count passes: `Variables` (256), `Expressions` (1,024 variables and
/// fields), `Sites` (1,024) or `Frees` (8,192 puts).
pub fn number(alloc: Global, graph: &Graph, program: &Program) -> Result<Names, Refusal>
    ensures ok { IfOk result (λ n. n ≡ names_of graph.now program.now) }
    ensures ascending { IsWellFormed program.now → IfOk result (λ n. IsTrue (ascends n.puts)) }
    ensures within { IfOk result (λ n. passed n ≡ None) }
    ensures limit { (l : Limit) → result ≡ Err (Refusal.Limit l) → passed (names_of graph.now program.now) ≡ Some l }
{
    let vars = pointer_vars(alloc, &program.vars)?;
    within(vars.len(), MOST_VARIABLES, Limit::Variables)?;
    let room = MOST_EXPRESSIONS - vars.len();
    let fields = fields_within(alloc, &program.structs, &program.vars, &vars, room)?;
    let sites = sites_of(alloc, &graph.nodes)?;
    within(sites.len(), MOST_SITES, Limit::Sites)?;
    let puts = puts_of(alloc, graph, program)?;
    Ok(Names {
        vars,
        fields,
        sites,
        puts,
        decls: program.vars.duplicate(alloc)?,
        structs: program.structs.duplicate(alloc)?,
    })
}
