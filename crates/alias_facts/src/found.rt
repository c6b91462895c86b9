// The sites that a table has for what a read finds and for what a write takes.
ghost use Rattle.std.specs.Prelude.{◌≡◌, ◌++◌, [], ◌∷◌, ◌<◌, length, slice_get, cond, IfOk, OnOk};
ghost use Rattle.std.specs.Option.{option_and_then, option_copied};
ghost use Rattle.mf_set.specs.Numbers.{has};
ghost use Rattle.c_graph.specs.declared.graph.Node.{Node};
ghost use Rattle.ts_domain.specs.May.{read_of, struct_of, struct_of_action, struct_of_kind, struct_of_size};
ghost use Rattle.alias_facts.specs.Flow.{cell_at, cell_items, in_cells, in_field, in_found, in_source, is_of_struct, sites_of_struct, var_items};
ghost use Rattle.ts_domain.specs.Ranges.{SourceFits};
ghost use Rattle.alias_facts.specs.Growth.{Adds, IsFound, IsSized};

use crate::table::Table;
use c_graph::{Action, Graph, NodeKind};
use c_tree::Size;
use mf_list::{Memory, Seq};
use mf_set::BitSet;
use std::alloc::Global;
use ts_domain::{Looked, Names, Read, Source};

fn struct_of_size(size: &Size) -> Option<usize>
    ensures { result ≡ struct_of_size size.now }
{
    match size {
        Size::Fields(of) => Some(*of),
        Size::Ints(_) => None,
    }
}

fn struct_made(action: &Action) -> Option<usize>
    ensures { result ≡ struct_of_action action.now }
{
    match action {
        Action::Malloc(_, size, _) => struct_of_size(size),
        Action::Unset(_)
        | Action::Assign(_)
        | Action::Getchar(_)
        | Action::Putchar(_)
        | Action::Printf(_, _)
        | Action::Test(_)
        | Action::Call(_, _)
        | Action::Return(_)
        | Action::Close => None,
    }
}

fn struct_of_kind(kind: &NodeKind) -> Option<usize>
    ensures { result ≡ struct_of_kind kind.now }
{
    match kind {
        NodeKind::Gap(_, _) => None,
        NodeKind::Act(action) => struct_made(action),
        NodeKind::Exit(_) => None,
    }
}

fn struct_at(graph: &Graph, node: usize) -> Option<usize>
    ensures { result ≡ option_and_then (λ (v : Node). struct_of_kind v.kind) (slice_get graph.now.nodes node) }
{
    match graph.nodes.get(node) {
        None => None,
        Some(node) => struct_of_kind(&node.kind),
    }
}

/// The struct of the objects of a site.
fn struct_of(graph: &Graph, names: &Names, site: usize) -> Option<usize>
    ensures { result ≡ struct_of names.now graph.now site }
{
    match names.sites.get(site) {
        None => None,
        Some(node) => struct_at(graph, *node),
    }
}

/// Whether a site makes objects of a struct.
pub fn is_of_struct(graph: &Graph, names: &Names, of: usize, site: usize) -> bool
    ensures { result ≡ is_of_struct names.now graph.now of site }
{
    match struct_of(graph, names, site) {
        None => false,
        Some(made) => made == of,
    }
}

fn cell_at(table: &Table, site: usize, field: usize) -> Option<&BitSet>
    ensures { option_copied result ≡ cell_at table.now site field }
{
    match table.cells.get(site) {
        None => None,
        Some(row) => row.get(field),
    }
}

fn add_cell(set: &mut BitSet, table: &Table, site: usize, field: usize)
    requires sized { IsSized table.now }
    requires room { set.old.room ≡ table.now.bounds.sites }
    ensures { Adds (cell_items table.now site field) set.old set.new }
{
    if let Some(cell) = cell_at(table, site, field) {
        set.union_with(cell);
    }
}

/// The sites that flow to a field of one of these sites.
fn in_cells(alloc: Global, table: &Table, sites: &[usize], field: usize) -> Result<BitSet, Memory>
    requires { IsSized table.now }
    ensures { IfOk result (IsFound table.now.bounds.sites (in_cells table.now field sites.now)) }
{
    let mut set = BitSet::with_room(alloc, table.bounds.sites)?;
    for site in sites {
        add_cell(&mut set, table, *site, field);
    }
    Ok(set)
}

fn push_if(list: &mut Seq<usize>, passes: bool, item: usize) -> Result<(), Memory>
    ensures { OnOk result (list.new ≡ list.old ++ cond passes (item ∷ []) []) }
{
    if passes { list.push(item) } else { Ok(()) }
}

/// The sites that make objects of a struct.
fn sites_of_struct(
    alloc: Global,
    graph: &Graph,
    names: &Names,
    of: usize,
) -> Result<Seq<usize>, Memory>
    ensures { IfOk result (λ list. list ≡ sites_of_struct names.now graph.now of) }
{
    let mut list = Seq::new(alloc);
    for site in 0..names.sites.len() {
        push_if(&mut list, is_of_struct(graph, names, of, site), site)?;
    }
    Ok(list)
}

fn empty(alloc: Global, table: &Table) -> Result<BitSet, Memory>
    ensures { IfOk result (λ x. x ≡ record { items = []; room = table.now.bounds.sites }) }
{
    BitSet::with_room(alloc, table.bounds.sites)
}

fn in_var(alloc: Global, table: &Table, variable: usize) -> Result<BitSet, Memory>
    requires { IsSized table.now }
    ensures { IfOk result (IsFound table.now.bounds.sites (has (var_items table.now variable))) }
{
    match table.vars.get(variable) {
        None => empty(alloc, table),
        Some(set) => set.copy(alloc),
    }
}

fn sites_of_var(alloc: Global, table: &Table, variable: usize) -> Result<Seq<usize>, Memory>
    ensures { IfOk result (λ list. list ≡ var_items table.now variable) }
{
    match table.vars.get(variable) {
        None => Ok(Seq::new(alloc)),
        Some(set) => Ok(Seq::from_vec(set.to_vec(alloc)?)),
    }
}

fn in_field(alloc: Global, table: &Table, field: Option<(usize, usize)>) -> Result<BitSet, Memory>
    requires { IsSized table.now }
    ensures { IfOk result (IsFound table.now.bounds.sites (in_field table.now field)) }
{
    match field {
        None => empty(alloc, table),
        Some((variable, field)) => {
            let sites = sites_of_var(alloc, table, variable)?;
            in_cells(alloc, table, sites.as_slice(), field)
        }
    }
}

fn in_struct(
    alloc: Global,
    graph: &Graph,
    names: &Names,
    table: &Table,
    of: usize,
    field: usize,
) -> Result<BitSet, Memory>
    requires { IsSized table.now }
    ensures { IfOk result (IsFound table.now.bounds.sites (in_cells table.now field (sites_of_struct names.now graph.now of))) }
{
    let sites = sites_of_struct(alloc, graph, names, of)?;
    in_cells(alloc, table, sites.as_slice(), field)
}

fn field_at(names: &Names, place: usize) -> Option<(usize, usize)>
    ensures { result ≡ slice_get names.now.fields place }
{
    names.fields.as_slice().get(place).copied()
}

fn in_name(
    alloc: Global,
    graph: &Graph,
    names: &Names,
    table: &Table,
    name: usize,
) -> Result<BitSet, Memory>
    requires { IsSized table.now }
    ensures { IfOk result (IsFound table.now.bounds.sites (in_found names.now graph.now table.now (Read.Name name))) }
{
    let vars = names.vars.len();
    if name < vars {
        in_var(alloc, table, name)
    } else {
        in_field(alloc, table, field_at(names, name - vars))
    }
}

/// The sites that flow to what a read finds.
pub fn in_found(
    alloc: Global,
    graph: &Graph,
    names: &Names,
    table: &Table,
    read: Read,
) -> Result<BitSet, Memory>
    requires { IsSized table.now }
    ensures { IfOk result (IsFound table.now.bounds.sites (in_found names.now graph.now table.now read)) }
{
    match read {
        Read::Name(name) => in_name(alloc, graph, names, table, name),
        Read::Deep(of, field) => in_struct(alloc, graph, names, table, of, field),
    }
}

pub fn read_of(looked: Looked) -> Read
    ensures { result ≡ read_of looked }
{
    match looked {
        Looked::Name(name) => Read::Name(name),
        Looked::Deep(of, field, _) => Read::Deep(of, field),
    }
}

fn only(alloc: Global, table: &Table, site: usize) -> Result<BitSet, Memory>
    requires { site < table.now.bounds.sites }
    ensures { IfOk result (λ x. x ≡ record { items = site ∷ []; room = table.now.bounds.sites }) }
{
    let mut set = empty(alloc, table)?;
    set.insert(site);
    Ok(set)
}

/// The sites that flow to what a write takes.
pub fn in_source(
    alloc: Global,
    graph: &Graph,
    names: &Names,
    table: &Table,
    source: Source,
) -> Result<BitSet, Memory>
    requires sized { IsSized table.now }
    requires fits { SourceFits table.now.bounds.sites source }
    ensures { IfOk result (IsFound table.now.bounds.sites (in_source names.now graph.now table.now source)) }
{
    match source {
        Source::Content(looked) => in_found(alloc, graph, names, table, read_of(looked)),
        Source::Null => empty(alloc, table),
        Source::New(site) => only(alloc, table, site),
        Source::Undef => empty(alloc, table),
    }
}
