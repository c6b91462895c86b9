// The places for `free` statements: the gaps of reached functions, with what points to objects there.
ghost use Rattle.std.specs.Prelude.{◌≡◌, ◌<◌, ◌≤◌, ◌++◌, [], map, length, slice_get, IfOk, IsTrue, OnOk};
ghost use Rattle.std.specs.List.{flat_map};
ghost use Rattle.std.specs.Option.{option_and_then};
ghost use Rattle.c_tree.specs.Fill.{ascends};
ghost use Rattle.c_tree.specs.Typing.{is_behind};
ghost use Rattle.c_tree.specs.WellFormed.{IsWellFormed};
ghost use Rattle.c_tree.specs.declared.program.StructDef.{StructDef};
ghost use Rattle.c_graph.specs.declared.graph.Node.{Node};
ghost use Rattle.c_scopes.specs.Turns.{row_at, rows_from, scope_of};
ghost use Rattle.ts_domain.specs.Puts.{any_puts, body_of, called_by, context_in, field_puts, field_rows, fields_by, function_in, gap_key, gap_puts, has_any, known_in, name_offset, no_pointers, offset_in, puts_in, puts_of, reached_by, var_put};
ghost use Rattle.ts_domain.specs.Rows.{row};

use crate::numbering::{type_at, var_fields};
use crate::pointers::is_pointer;
use crate::rows::{first, row, rows_of};
use crate::tables::{callee_by, ctx_at, entered_keys};
use c_graph::{Graph, Node, NodeKind};
use c_scopes::{InScope, Turn, turns};
use c_tree::{Limit, Program, Put, Refusal, StructDef, Ty, VarDef};
use mf_list::{Memory, Seq};
use std::alloc::Global;

/// The greatest number of puts.
const MOST_PUTS: usize = 8192;

/// The nodes of each gap, the pointer fields of each variable, and the edges that lead into each
/// context.
#[derive(Debug, Drop)]
pub struct Lookups {
    pub nodes: Seq<Seq<usize>>,
    pub fields: Seq<Seq<usize>>,
    pub entering: Seq<Seq<usize>>,
}

/// Refuses a count above its limit.
pub fn within(count: usize, most: usize, limit: Limit) -> Result<(), Refusal>
    ensures ok { OnOk result (count ≤ most) }
    ensures only { (l : Limit) → result ≡ Err (Refusal.Limit l) → l ≡ limit }
    ensures passed { (l : Limit) → result ≡ Err (Refusal.Limit l) → most < count }
{
    if most < count {
        return Err(Refusal::Limit(limit));
    }
    Ok(())
}

fn gap_key(kind: &NodeKind) -> Option<usize>
    ensures { result ≡ gap_key kind.now }
{
    match kind {
        NodeKind::Gap(gap, _) => Some(*gap),
        NodeKind::Act(_) => None,
        NodeKind::Exit(_) => None,
    }
}

fn gap_keys(alloc: Global, nodes: &[Node]) -> Result<Seq<Option<usize>>, Memory>
    ensures { IfOk result (λ keys. keys ≡ map (λ (v : Node). gap_key v.kind) nodes.now) }
{
    let mut keys = Seq::new(alloc);
    for node in nodes {
        keys.push(gap_key(&node.kind))?;
    }
    Ok(keys)
}

/// By its number, whether a variable is none.
fn no_pointers(alloc: Global, decls: &[VarDef]) -> Result<Seq<bool>, Memory>
    ensures { IfOk result (λ marks. marks ≡ no_pointers decls.now) }
{
    let mut marks = Seq::new(alloc);
    for decl in decls {
        marks.push(!is_pointer(decl.ty))?;
    }
    Ok(marks)
}

/// The pointer fields of each variable.
fn field_rows(
    alloc: Global,
    structs: &Seq<StructDef>,
    decls: &Seq<VarDef>,
) -> Result<Seq<Seq<usize>>, Memory>
    ensures { IfOk result (λ rows. rows ≡ field_rows structs.now decls.now) }
{
    let mut rows = Seq::new(alloc);
    for variable in 0..decls.len() {
        rows.push(var_fields(alloc, structs, decls, variable)?)?;
    }
    Ok(rows)
}

fn has_any(nodes: &[usize]) -> bool
    ensures { result ≡ has_any nodes.now }
{
    match nodes {
        [] => false,
        [_, ..] => true,
    }
}

fn add_field_puts(
    puts: &mut Seq<Put>,
    gap: usize,
    var: usize,
    fields: &[usize],
) -> Result<(), Memory>
    ensures { OnOk result (puts.new ≡ puts.old ++ field_puts gap var fields.now) }
{
    for field in fields {
        puts.push(Put {
            gap,
            var,
            field: Some(*field),
        })?;
    }
    Ok(())
}

fn struct_body(structs: &Seq<StructDef>, of: usize) -> Option<usize>
    ensures { result ≡ option_and_then (λ (d : StructDef). d.body) (slice_get structs.now of) }
{
    match structs.get(of) {
        None => None,
        Some(definition) => definition.body,
    }
}

/// The offset of the body of the struct that a variable points to.
fn body_of(structs: &Seq<StructDef>, decls: &Seq<VarDef>, variable: usize) -> Option<usize>
    ensures { result ≡ body_of structs.now decls.now variable }
{
    match type_at(decls, variable) {
        None => None,
        Some(Ty::Int) => None,
        Some(Ty::IntPtr) => None,
        Some(Ty::StructPtr(of)) => struct_body(structs, of),
    }
}

fn is_behind(at: usize, body: Option<usize>) -> bool
    ensures { result ≡ is_behind at body }
{
    match body {
        None => false,
        Some(body) => body < at,
    }
}

fn add_known(
    puts: &mut Seq<Put>,
    program: &Program,
    fields: &[Seq<usize>],
    at: usize,
    gap: usize,
    var: usize,
) -> Result<(), Memory>
    ensures { OnOk result (puts.new ≡ puts.old ++ field_puts gap var (known_in program.now.structs program.now.vars (row fields.now) at var)) }
{
    if is_behind(at, body_of(&program.structs, &program.vars, var)) {
        add_field_puts(puts, gap, var, row(fields, var))
    } else {
        Ok(())
    }
}

fn add_fields(
    puts: &mut Seq<Put>,
    program: &Program,
    fields: &[Seq<usize>],
    at: usize,
    gap: usize,
    vars: &[usize],
) -> Result<(), Memory>
    ensures { OnOk result (puts.new ≡ puts.old ++ flat_map (λ x. field_puts gap x (known_in program.now.structs program.now.vars (row fields.now) at x)) vars.now) }
{
    for var in vars {
        add_known(puts, program, fields, at, gap, *var)?;
    }
    Ok(())
}

fn add_vars(puts: &mut Seq<Put>, gap: usize, vars: &[usize]) -> Result<(), Memory>
    ensures { OnOk result (puts.new ≡ puts.old ++ map (var_put gap) vars.now) }
{
    for var in vars {
        puts.push(Put {
            gap,
            var: *var,
            field: None,
        })?;
    }
    Ok(())
}

/// Of the function whose name stands at `at`.
fn add_gap(
    puts: &mut Seq<Put>,
    program: &Program,
    fields: &[Seq<usize>],
    at: usize,
    gap: usize,
    vars: &[usize],
) -> Result<(), Memory>
    ensures { OnOk result (puts.new ≡ puts.old ++ any_puts (known_in program.now.structs program.now.vars (row fields.now) at) gap vars.now) }
{
    add_fields(puts, program, fields, at, gap, vars)?;
    add_vars(puts, gap, vars)
}

fn function_in(
    graph: &Graph,
    program: &Program,
    entering: &[Seq<usize>],
    context: usize,
) -> Option<usize>
    ensures { result ≡ function_in (called_by graph.now entering.now) program.now context }
{
    if context == 0 {
        Some(program.main)
    } else {
        callee_by(graph, first(entering, context))
    }
}

fn context_in(graph: &Graph, nodes: &[usize]) -> Option<usize>
    ensures { result ≡ context_in graph.now nodes.now }
{
    match nodes.get(0) {
        None => None,
        Some(node) => ctx_at(graph, *node),
    }
}

fn name_offset(program: &Program, function: usize) -> Option<usize>
    ensures { result ≡ name_offset program.now function }
{
    match program.funs.get(function) {
        None => None,
        Some(definition) => Some(definition.at),
    }
}

/// The offset of the name of the function of the nodes of a gap.
fn gap_offset(graph: &Graph, program: &Program, entering: &[Seq<usize>], nodes: &[usize]) -> usize
    ensures { result ≡ offset_in (called_by graph.now entering.now) graph.now program.now nodes.now }
{
    let Some(context) = context_in(graph, nodes) else {
        return 0;
    };
    let Some(function) = function_in(graph, program, entering, context) else {
        return 0;
    };
    name_offset(program, function).unwrap_or(0)
}

fn add_reached(
    puts: &mut Seq<Put>,
    graph: &Graph,
    program: &Program,
    lookups: &Lookups,
    gap: usize,
    vars: &Seq<usize>,
) -> Result<(), Memory>
    ensures { OnOk result (puts.new ≡ puts.old ++ gap_puts (reached_by lookups.now) (fields_by graph.now program.now lookups.now) (record { gap = gap; vars = vars.now })) }
{
    let nodes = row(lookups.nodes.as_slice(), gap);
    if has_any(nodes) {
        let at = gap_offset(graph, program, lookups.entering.as_slice(), nodes);
        add_gap(
            puts,
            program,
            lookups.fields.as_slice(),
            at,
            gap,
            vars.as_slice(),
        )
    } else {
        Ok(())
    }
}

fn add_at(
    puts: &mut Seq<Put>,
    graph: &Graph,
    program: &Program,
    lookups: &Lookups,
    turn: Turn,
    scope: &InScope,
) -> Result<(), Memory>
    ensures { OnOk result (puts.new ≡ puts.old ++ puts_in (reached_by lookups.now) (fields_by graph.now program.now lookups.now) (row_at turn scope.now)) }
{
    match turn {
        Turn::Gap(gap) => add_reached(puts, graph, program, lookups, gap, &scope.vars),
        Turn::Open => Ok(()),
        Turn::See(_) => Ok(()),
        Turn::Close => Ok(()),
    }
}

fn all_puts(
    alloc: Global,
    graph: &Graph,
    program: &Program,
    lookups: &Lookups,
    turns: &[Turn],
) -> Result<Seq<Put>, Refusal>
    ensures ok { IfOk result (λ puts. puts ≡ puts_in (reached_by lookups.now) (fields_by graph.now program.now lookups.now) (rows_from (scope_of [] []) turns.now)) }
    ensures within { IfOk result (λ puts. length puts ≤ 8192) }
    ensures only { (l : Limit) → result ≡ Err (Refusal.Limit l) → l ≡ Limit.Frees }
    ensures passed { (l : Limit) → result ≡ Err (Refusal.Limit l) → 8192 < length (puts_in (reached_by lookups.now) (fields_by graph.now program.now lookups.now) (rows_from (scope_of [] []) turns.now)) }
{
    let mut puts = Seq::new(alloc);
    let mut scope = InScope::new(alloc);
    for turn in turns {
        add_at(&mut puts, graph, program, lookups, *turn, &scope)?;
        within(puts.len(), MOST_PUTS, Limit::Frees)?;
        scope.turn(*turn)?;
    }
    Ok(puts)
}

/// The puts of a program over its graph: by gap, in a gap fields before variables, each by number.
/// It stops at the first gap with which there are too many.
pub fn puts_of(alloc: Global, graph: &Graph, program: &Program) -> Result<Seq<Put>, Refusal>
    ensures ok { IfOk result (λ puts. puts ≡ puts_of graph.now program.now) }
    ensures ascending { IsWellFormed program.now → IfOk result (λ puts. IsTrue (ascends puts)) }
    ensures within { IfOk result (λ puts. length puts ≤ 8192) }
    ensures only { (l : Limit) → result ≡ Err (Refusal.Limit l) → l ≡ Limit.Frees }
    ensures passed { (l : Limit) → result ≡ Err (Refusal.Limit l) → 8192 < length (puts_of graph.now program.now) }
{
    let keys = gap_keys(alloc, graph.nodes.as_slice())?;
    let entered = entered_keys(alloc, graph, graph.edges.as_slice())?;
    let lookups = Lookups {
        nodes: rows_of(alloc, &keys)?,
        fields: field_rows(alloc, &program.structs, &program.vars)?,
        entering: rows_of(alloc, &entered)?,
    };
    let hidden = no_pointers(alloc, program.vars.as_slice())?;
    let turns = turns(alloc, program, hidden.as_slice())?;
    all_puts(alloc, graph, program, &lookups, turns.as_slice())
}
