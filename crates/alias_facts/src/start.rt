// The table before any write.
ghost use Rattle.std.specs.Prelude.{◌≡◌, replicate, IfOk};
ghost use Rattle.alias_facts.specs.Answer.{empty_row, empty_set, empty_table};

use crate::bounds::Bounds;
use crate::table::Table;
use mf_list::{Memory, Seq};
use mf_set::BitSet;
use std::alloc::Global;

fn empty_row(alloc: Global, count: usize, room: usize) -> Result<Seq<BitSet>, Memory>
    ensures { IfOk result (λ row. row ≡ empty_row count room) }
{
    let mut row = Seq::new(alloc);
    for _ in 0..count {
        row.push(BitSet::with_room(alloc, room)?)?;
    }
    Ok(row)
}

fn empty_rows(alloc: Global, bounds: Bounds) -> Result<Seq<Seq<BitSet>>, Memory>
    ensures { IfOk result (λ rows. rows ≡ replicate bounds.sites (empty_row bounds.fields bounds.sites)) }
{
    let mut rows = Seq::new(alloc);
    for _ in 0..bounds.sites {
        rows.push(empty_row(alloc, bounds.fields, bounds.sites)?)?;
    }
    Ok(rows)
}

/// The table that has nothing.
pub fn empty_table(alloc: Global, bounds: Bounds) -> Result<Table, Memory>
    ensures { IfOk result (λ m. m ≡ empty_table bounds) }
{
    let vars = empty_row(alloc, bounds.vars, bounds.sites)?;
    let cells = empty_rows(alloc, bounds)?;
    Ok(Table {
        bounds,
        vars,
        cells,
    })
}
