// Writes that are applied to a table, one by one and until none of them changes it.
ghost use Rattle.std.specs.Prelude.{◌≡◌, [], ◌∷◌, ◌<◌, ◌≤◌, length, IfOk, OnOk};
ghost use Rattle.std.specs.List.{All};
ghost use Rattle.ts_domain.specs.May.{IsDone};
ghost use Rattle.ts_domain.specs.Ranges.{SourceFits};
ghost use Rattle.alias_facts.specs.Growth.{IsSized};
ghost use Rattle.alias_facts.specs.Writing.{Applies, DeedFits, Rounds, Settles, TargetsSet};

use crate::following::follow;
use crate::found::{in_found, in_source, is_of_struct};
use crate::table::{Table, join_cell, join_var};
use c_graph::Graph;
use mf_list::Memory;
use mf_set::BitSet;
use std::alloc::Global;
use ts_domain::{Deed, Names, Read, Source};

fn set_var(
    alloc: Global,
    graph: &Graph,
    names: &Names,
    table: &mut Table,
    variable: usize,
    source: Source,
) -> Result<bool, Memory>
    requires sized { IsSized table.old }
    requires variable { variable < table.old.bounds.vars }
    requires fits { SourceFits table.old.bounds.sites source }
    ensures { IfOk result (λ changed. Applies names.now graph.now (Deed.Sets variable source) changed table.old table.new) }
{
    let more = in_source(alloc, graph, names, table, source)?;
    Ok(join_var(table, variable, &more))
}

fn set_target(
    graph: &Graph,
    names: &Names,
    table: &mut Table,
    site: usize,
    of: usize,
    field: usize,
    more: &BitSet,
) -> bool
    requires sized { IsSized table.old }
    requires sites { length names.now.sites ≤ table.old.bounds.sites }
    requires field { field < table.old.bounds.fields }
    requires room { more.now.room ≡ table.old.bounds.sites }
    ensures { TargetsSet names.now graph.now (site ∷ []) of field more.now.items result table.old table.new }
{
    if is_of_struct(graph, names, of, site) {
        join_cell(table, site, field, more)
    } else {
        false
    }
}

fn set_targets(
    graph: &Graph,
    names: &Names,
    table: &mut Table,
    sites: &[usize],
    of: usize,
    field: usize,
    more: &BitSet,
) -> bool
    requires sized { IsSized table.old }
    requires sites { length names.now.sites ≤ table.old.bounds.sites }
    requires field { field < table.old.bounds.fields }
    requires room { more.now.room ≡ table.old.bounds.sites }
    ensures { TargetsSet names.now graph.now sites.now of field more.now.items result table.old table.new }
{
    let mut changed = false;
    for site in sites {
        changed |= set_target(graph, names, table, *site, of, field, more);
    }
    changed
}

fn set_field(
    alloc: Global,
    graph: &Graph,
    names: &Names,
    table: &mut Table,
    base: Read,
    of: usize,
    field: usize,
    source: Source,
) -> Result<bool, Memory>
    requires sized { IsSized table.old }
    requires sites { length names.now.sites ≤ table.old.bounds.sites }
    requires field { field < table.old.bounds.fields }
    requires fits { SourceFits table.old.bounds.sites source }
    ensures { IfOk result (λ changed. Applies names.now graph.now (Deed.SetsField base of field source) changed table.old table.new) }
{
    let found = in_found(alloc, graph, names, table, base)?;
    let more = in_source(alloc, graph, names, table, source)?;
    let sites = found.to_vec(alloc)?;
    Ok(set_targets(graph, names, table, sites.as_slice(), of, field, &more))
}

/// Adds what a deed writes, and says whether that is new.
pub fn apply(
    alloc: Global,
    graph: &Graph,
    names: &Names,
    table: &mut Table,
    deed: &Deed,
) -> Result<bool, Memory>
    requires sized { IsSized table.old }
    requires sites { length names.now.sites ≤ table.old.bounds.sites }
    requires fits { DeedFits table.old.bounds deed.now }
    ensures { IfOk result (λ changed. Applies names.now graph.now deed.now changed table.old table.new) }
{
    match *deed {
        Deed::Sets(variable, source) => set_var(alloc, graph, names, table, variable, source),
        Deed::SetsField(base, of, field, source) => {
            set_field(alloc, graph, names, table, base, of, field, source)
        }
        Deed::Reads(_, _) => Ok(false),
        Deed::Follows(_) => Ok(false),
        Deed::Says(_) => Ok(false),
    }
}

/// Applies all writes once, and says whether one of them changed the table.
fn round(
    alloc: Global,
    graph: &Graph,
    names: &Names,
    table: &mut Table,
    writes: &[Deed],
) -> Result<bool, Memory>
    requires sized { IsSized table.old }
    requires sites { length names.now.sites ≤ table.old.bounds.sites }
    requires fits { All (DeedFits table.old.bounds) writes.now }
    requires done { All (IsDone names.now graph.now) writes.now }
    ensures { IfOk result (λ changed. Rounds names.now graph.now writes.now changed table.old table.new) }
{
    let mut changed = false;
    for write in writes {
        changed |= apply(alloc, graph, names, table, write)?;
    }
    Ok(changed)
}

/// Applies all writes until none of them changes the table.
pub fn settle(
    alloc: Global,
    graph: &Graph,
    names: &Names,
    table: &mut Table,
    writes: &[Deed],
) -> Result<(), Memory>
    requires sized { IsSized table.old }
    requires sites { length names.now.sites ≤ table.old.bounds.sites }
    requires fits { All (DeedFits table.old.bounds) writes.now }
    requires done { All (IsDone names.now graph.now) writes.now }
    ensures { OnOk result (Settles names.now graph.now writes.now table.old table.new) }
{
    follow(alloc, graph, names, table, writes)?;
    while round(alloc, graph, names, table, writes)? {}
    Ok(())
}
