// What deeds make of the facts that hold before them.
ghost use Rattle.std.specs.Prelude.{◌≡◌, IfOk, OnOk};
ghost use Rattle.ts_domain.specs.Facts.{before_deed, before_deeds};
ghost use Rattle.path_facts.specs.Corrections.{Carries};
ghost use Rattle.path_facts.specs.Numbering.{IsNumbering, room_of};

use crate::before::{given, is_itself};
use crate::corrections::correct_all;
use crate::numbering::Numbering;
use crate::shows::{show_followed, show_read, show_said, show_stored};
use mf_list::Memory;
use mf_set::BitSet;
use std::alloc::Global;
use ts_domain::{Deed, Names, Source};

/// A set of facts over a write to a variable. This alone needs a copy of the set before it, since all other deeds only show
/// facts.
fn over_write(
    alloc: Global,
    names: &Names,
    numbering: &Numbering,
    set: &mut BitSet,
    variable: usize,
    value: Source,
) -> Result<(), Memory>
    requires numbering { IsNumbering names.now numbering.now }
    requires room { set.old.room ≡ room_of names.now }
    ensures { OnOk result (Carries names.now (before_deed names.now (Deed.Sets variable value)) set.old set.new) }
{
    if is_itself(variable, given(names, value)) {
        return Ok(());
    }
    let source = set.copy(alloc)?;
    correct_all(names, numbering, variable, value, &source, set);
    Ok(())
}

/// A set of facts over a deed.
fn over_deed(
    alloc: Global,
    names: &Names,
    numbering: &Numbering,
    deed: &Deed,
    set: &mut BitSet,
) -> Result<(), Memory>
    requires numbering { IsNumbering names.now numbering.now }
    requires room { set.old.room ≡ room_of names.now }
    ensures { OnOk result (Carries names.now (before_deed names.now deed.now) set.old set.new) }
{
    match *deed {
        Deed::Reads(read, _) => {
            show_read(names, numbering, set, read);
            Ok(())
        }
        Deed::Follows(variable) => {
            show_followed(names, numbering, set, variable);
            Ok(())
        }
        Deed::Says(saying) => {
            show_said(names, numbering, set, saying);
            Ok(())
        }
        Deed::Sets(variable, value) => {
            over_write(alloc, names, numbering, set, variable, value)?;
            Ok(())
        }
        Deed::SetsField(base, _, number, _) => {
            show_stored(names, numbering, set, base, number);
            Ok(())
        }
    }
}

/// A set of facts over deeds in turn.
pub fn over_deeds(
    alloc: Global,
    names: &Names,
    numbering: &Numbering,
    deeds: &[Deed],
    set: &BitSet,
) -> Result<BitSet, Memory>
    requires numbering { IsNumbering names.now numbering.now }
    requires room { set.now.room ≡ room_of names.now }
    ensures { IfOk result (Carries names.now (before_deeds names.now deeds.now) set.now) }
{
    let mut carried = set.copy(alloc)?;
    for deed in deeds {
        over_deed(alloc, names, numbering, deed, &mut carried)?;
    }
    Ok(carried)
}
