// The answer that a table gives.
ghost use Rattle.std.specs.Prelude.{◌≡◌, ◌++◌, ◌≤◌, length, take, IfOk, OnOk};
ghost use Rattle.alias_facts.specs.Answer.{answer, noted, noted_row, noted_rows};

use crate::table::Table;
use mf_list::{Memory, Seq};
use mf_set::BitSet;
use std::alloc::Global;
use ts_domain::May;

fn vars_of(alloc: Global, sets: &Seq<BitSet>, count: usize) -> Result<Seq<BitSet>, Memory>
    requires { count ≤ length sets.now }
    ensures { IfOk result (λ list. list ≡ take count sets.now) }
{
    let mut list = Seq::new(alloc);
    for variable in 0..count {
        list.push(sets.at(variable).copy(alloc)?)?;
    }
    Ok(list)
}

fn add_field(
    alloc: Global,
    list: &mut Seq<(usize, usize, BitSet)>,
    site: usize,
    field: usize,
    set: &BitSet,
) -> Result<(), Memory>
    ensures { OnOk result (list.new ≡ list.old ++ noted site field set.now) }
{
    if set.is_empty() {
        return Ok(());
    }
    list.push((site, field, set.copy(alloc)?))
}

fn add_fields(
    alloc: Global,
    list: &mut Seq<(usize, usize, BitSet)>,
    site: usize,
    row: &Seq<BitSet>,
) -> Result<(), Memory>
    ensures { OnOk result (list.new ≡ list.old ++ noted_row site 0 row.now) }
{
    for field in 0..row.len() {
        add_field(alloc, list, site, field, row.at(field))?;
    }
    Ok(())
}

fn fields_of(alloc: Global, rows: &Seq<Seq<BitSet>>) -> Result<Seq<(usize, usize, BitSet)>, Memory>
    ensures { IfOk result (λ list. list ≡ noted_rows 0 rows.now) }
{
    let mut list = Seq::new(alloc);
    for site in 0..rows.len() {
        add_fields(alloc, &mut list, site, rows.at(site))?;
    }
    Ok(list)
}

/// The sets of the first variables, and those of fields that aren't empty, by site and field.
pub fn answer(alloc: Global, table: &Table, count: usize) -> Result<May, Memory>
    requires { count ≤ length table.now.vars }
    ensures { IfOk result (λ m. m ≡ answer count table.now) }
{
    let vars = vars_of(alloc, &table.vars, count)?;
    let fields = fields_of(alloc, &table.cells)?;
    Ok(May { vars, fields })
}
