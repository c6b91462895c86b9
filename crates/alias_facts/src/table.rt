// The sites that are known so far to flow to variables and to fields of sites.
ghost use Rattle.std.specs.Prelude.{◌≡◌, ◌<◌, length};
ghost use Rattle.alias_facts.specs.Growth.{AreRooms, CellJoins, IsSized, Joins, VarJoins};

use crate::bounds::Bounds;
use mf_list::Seq;
use mf_set::BitSet;

/// A set for each variable, and for each site one by field.
#[derive(Debug, Drop)]
pub struct Table {
    pub bounds: Bounds,
    pub vars: Seq<BitSet>,
    pub cells: Seq<Seq<BitSet>>,
}

/// Adds numbers to the set at a place, and says whether one of them is new.
fn join(sets: &mut Seq<BitSet>, at: usize, more: &BitSet) -> bool
    requires within { at < length sets.old }
    requires rooms { AreRooms more.now.room sets.old }
    ensures { Joins more.now.room at more.now.items result sets.old sets.new }
{
    sets.at_mut(at).union_with(more)
}

/// Adds sites to those of a variable.
pub fn join_var(table: &mut Table, variable: usize, more: &BitSet) -> bool
    requires sized { IsSized table.old }
    requires within { variable < table.old.bounds.vars }
    requires room { more.now.room ≡ table.old.bounds.sites }
    ensures { VarJoins variable more.now.items result table.old table.new }
{
    join(&mut table.vars, variable, more)
}

/// Adds sites to those of a field of a site.
pub fn join_cell(table: &mut Table, site: usize, field: usize, more: &BitSet) -> bool
    requires sized { IsSized table.old }
    requires site { site < table.old.bounds.sites }
    requires field { field < table.old.bounds.fields }
    requires room { more.now.room ≡ table.old.bounds.sites }
    ensures { CellJoins site field more.now.items result table.old table.new }
{
    join(table.cells.at_mut(site), field, more)
}
