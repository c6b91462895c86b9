// All that flows, by the writes of all edges.
ghost use Rattle.std.specs.Prelude.{◌≡◌, IfOk};
ghost use Rattle.std.specs.List.{All};
ghost use Rattle.ts_domain.specs.Holding.{IsMayOfRuns};
ghost use Rattle.ts_domain.specs.May.{IsDone, IsMay};
ghost use Rattle.alias_facts.specs.Writes.{all_writes};
ghost use Rattle.alias_facts.specs.Writing.{Ended};

use crate::answers::answer;
use crate::start::empty_table;
use crate::table::Table;
use crate::writes::{bounds_of, writes_of};
use crate::writing::settle;
use c_graph::Graph;
use mf_list::{Memory, Seq};
use std::alloc::Global;
use ts_domain::{Deed, May, Names, all_deeds};

fn table_of(alloc: Global, graph: &Graph, names: &Names, writes: &[Deed]) -> Result<Table, Memory>
    requires { All (IsDone names.now graph.now) writes.now }
    ensures { IfOk result (Ended names.now graph.now writes.now) }
{
    let bounds = bounds_of(names, writes)?;
    let mut table = empty_table(alloc, bounds)?;
    settle(alloc, graph, names, &mut table, writes)?;
    Ok(table)
}

/// The writes of all edges.
fn all_writes(alloc: Global, graph: &Graph, names: &Names) -> Result<Seq<Deed>, Memory>
    ensures { IfOk result (λ list. list ≡ all_writes names.now graph.now) }
{
    let all = all_deeds(alloc, graph, names)?;
    writes_of(alloc, all.as_slice())
}

/// The sites that flow to each pointer variable and to each field of a site; fields to which none flows are left out.
pub fn may(alloc: Global, graph: &Graph, names: &Names) -> Result<May, Memory>
    ensures exact { IfOk result (IsMay names.now graph.now) }
    ensures runs { IfOk result (IsMayOfRuns names.now graph.now) }
{
    let writes = all_writes(alloc, graph, names)?;
    let table = table_of(alloc, graph, names, writes.as_slice())?;
    let found = answer(alloc, &table, names.vars.len())?;
    Ok(found)
}
