// The writes of all edges, and bounds for what they speak of.
ghost use Rattle.std.specs.Prelude.{◌≡◌, ◌++◌, ◌<◌, IfOk, OnOk};
ghost use Rattle.std.specs.List.{All, flat_map};
ghost use Rattle.alias_facts.specs.Writes.{FieldFits, IsBound, written, writes_in, writes_of};
ghost use Rattle.ts_domain.specs.Ranges.{IsInRange};

use crate::bounds::Bounds;
use mf_list::{Memory, Seq};
use std::alloc::{AllocError, Global};
use ts_domain::{Deed, Names};

fn add_write(list: &mut Seq<Deed>, deed: Deed) -> Result<(), Memory>
    ensures { OnOk result (list.new ≡ list.old ++ written deed) }
{
    match deed {
        Deed::Sets(_, _) => list.push(deed),
        Deed::SetsField(_, _, _, _) => list.push(deed),
        Deed::Reads(_, _) => Ok(()),
        Deed::Follows(_) => Ok(()),
        Deed::Says(_) => Ok(()),
    }
}

fn add_writes(list: &mut Seq<Deed>, deeds: &[Deed]) -> Result<(), Memory>
    ensures { OnOk result (list.new ≡ list.old ++ writes_in deeds.now) }
{
    for deed in deeds {
        add_write(list, *deed)?;
    }
    Ok(())
}

/// The writes among the deeds of all edges.
pub fn writes_of(alloc: Global, all: &[Seq<Deed>]) -> Result<Seq<Deed>, Memory>
    ensures { IfOk result (λ list. list ≡ writes_of all.now) }
{
    let mut list = Seq::new(alloc);
    for deeds in all {
        add_writes(&mut list, deeds.as_slice())?;
    }
    Ok(list)
}

fn behind(number: usize) -> Result<usize, Memory>
    ensures { IfOk result (λ bound. number < bound) }
{
    match number.checked_add(1) {
        None => Err(AllocError),
        Some(next) => Ok(next),
    }
}

fn behind_field(write: Deed) -> Result<usize, Memory>
    ensures { IfOk result (λ bound. FieldFits bound write) }
{
    match write {
        Deed::SetsField(_, _, field, _) => behind(field),
        Deed::Sets(_, _) => Ok(0),
        Deed::Reads(_, _) => Ok(0),
        Deed::Follows(_) => Ok(0),
        Deed::Says(_) => Ok(0),
    }
}

/// A number that the fields of all writes are below.
fn field_bound(writes: &[Deed]) -> Result<usize, Memory>
    ensures { IfOk result (λ bound. All (FieldFits bound) writes.now) }
{
    let mut bound = 0;
    for write in writes {
        let needed = behind_field(*write)?;
        bound = bound.max(needed);
    }
    Ok(bound)
}

/// Bounds for all writes: as many variables and sites as there are.
pub fn bounds_of(names: &Names, writes: &[Deed]) -> Result<Bounds, Memory>
    requires { All (IsInRange names.now) writes.now }
    ensures { IfOk result (IsBound names.now writes.now) }
{
    let fields = field_bound(writes)?;
    Ok(Bounds {
        vars: names.vars.len(),
        sites: names.sites.len(),
        fields,
    })
}
