// Writes that are applied by changes: one is looked at again only where something that it reads has grown.
ghost use Rattle.std.specs.Prelude.{◌≡◌, ◌<◌, ◌≤◌, length, IfSome, OnOk};
ghost use Rattle.std.specs.List.{All};
ghost use Rattle.ts_domain.specs.May.{IsDone};
ghost use Rattle.alias_facts.specs.Growth.{IsSized};
ghost use Rattle.alias_facts.specs.Writing.{DeedFits, Settling};

use crate::readers::{Readers, readers_behind, readers_of};
use crate::table::Table;
use crate::writing::apply;
use c_graph::Graph;
use mf_list::Memory;
use mf_set::BitSet;
use std::alloc::Global;
use ts_domain::{Deed, Names};

fn all_pending(alloc: Global, count: usize) -> Result<BitSet, Memory> {
    let mut pending = BitSet::with_room(alloc, count)?;
    for write in 0..count {
        pending.insert(write);
    }
    Ok(pending)
}

/// The next pending write from one on, or the first where there is none behind.
fn next_pending(pending: &BitSet, from: usize) -> Option<usize>
    ensures { IfSome result (λ write. write < pending.now.room) }
{
    match pending.next_from(from) {
        Some(write) => Some(write),
        None => pending.next_from(0),
    }
}

fn wake(pending: &mut BitSet, writes: &[usize]) {
    for write in writes {
        if *write < pending.room() {
            pending.insert(*write);
        }
    }
}

/// Applies a write, and where that changed the table those that read what it wrote are pending.
fn turn(
    alloc: Global,
    graph: &Graph,
    names: &Names,
    readers: &Readers,
    table: &mut Table,
    pending: &mut BitSet,
    write: &Deed,
) -> Result<(), Memory>
    requires sized { IsSized table.old }
    requires sites { length names.now.sites ≤ table.old.bounds.sites }
    requires fits { DeedFits table.old.bounds write.now }
    requires done { IsDone names.now graph.now write.now }
    ensures { OnOk result (Settling names.now graph.now table.old table.new) }
{
    if apply(alloc, graph, names, table, write)? {
        wake(pending, readers_behind(readers, *write));
    }
    Ok(())
}

/// Applies all writes, and then those that read what has grown, until none is pending.
pub fn follow(
    alloc: Global,
    graph: &Graph,
    names: &Names,
    table: &mut Table,
    writes: &[Deed],
) -> Result<(), Memory>
    requires sized { IsSized table.old }
    requires sites { length names.now.sites ≤ table.old.bounds.sites }
    requires fits { All (DeedFits table.old.bounds) writes.now }
    requires done { All (IsDone names.now graph.now) writes.now }
    ensures { OnOk result (Settling names.now graph.now table.old table.new) }
{
    let readers = readers_of(alloc, names, writes)?;
    let mut pending = all_pending(alloc, writes.len())?;
    let mut at = 0;
    for _ in 0..u64::MAX {
        let Some(next) = next_pending(&pending, at) else {
            break;
        };
        let Some(write) = writes.get(next) else {
            break;
        };
        pending.remove(next);
        turn(alloc, graph, names, &readers, table, &mut pending, write)?;
        at = next;
    }
    Ok(())
}
