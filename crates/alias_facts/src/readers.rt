// The writes that read a thing, so that they are looked at again when it has grown. Nothing is claimed of them: where one
// were missing, the rounds behind would find what is left.

use crate::found::read_of;
use c_tree::{StructDef, Ty};
use mf_list::{Memory, Seq};
use std::alloc::Global;
use ts_domain::{Deed, Names, Read, Source};

/// The writes that read each variable, and each field of a struct, by their places.
#[derive(Debug, Drop)]
pub struct Readers {
    vars: Seq<Seq<usize>>,
    fields: Seq<Seq<Seq<usize>>>,
}

fn empty_lists(alloc: Global, count: usize) -> Result<Seq<Seq<usize>>, Memory> {
    let mut lists = Seq::new(alloc);
    for _ in 0..count {
        lists.push(Seq::new(alloc))?;
    }
    Ok(lists)
}

fn lists_by_field(alloc: Global, structs: &[StructDef]) -> Result<Seq<Seq<Seq<usize>>>, Memory> {
    let mut lists = Seq::new(alloc);
    for of in structs {
        lists.push(empty_lists(alloc, of.fields.len())?)?;
    }
    Ok(lists)
}

fn add(lists: &mut Seq<Seq<usize>>, place: usize, write: usize) -> Result<(), Memory> {
    if place < lists.len() {
        lists.at_mut(place).push(write)?;
    }
    Ok(())
}

fn add_field(
    lists: &mut Seq<Seq<Seq<usize>>>,
    of: usize,
    field: usize,
    write: usize,
) -> Result<(), Memory> {
    if of < lists.len() {
        add(lists.at_mut(of), field, write)?;
    }
    Ok(())
}

/// The struct that a pointer variable leads to.
fn struct_behind(names: &Names, variable: usize) -> Option<usize> {
    let number = names.vars.get(variable)?;
    match names.decls.get(*number)?.ty {
        Ty::StructPtr(of) => Some(of),
        Ty::Int | Ty::IntPtr => None,
    }
}

/// A field of a variable is read: what the variable points to, and that field of its struct.
fn add_pair(
    names: &Names,
    readers: &mut Readers,
    variable: usize,
    field: usize,
    write: usize,
) -> Result<(), Memory> {
    add(&mut readers.vars, variable, write)?;
    match struct_behind(names, variable) {
        None => Ok(()),
        Some(of) => add_field(&mut readers.fields, of, field, write),
    }
}

fn add_name(names: &Names, readers: &mut Readers, name: usize, write: usize) -> Result<(), Memory> {
    let vars = names.vars.len();
    if name < vars {
        return add(&mut readers.vars, name, write);
    }
    match names.fields.get(name - vars) {
        None => Ok(()),
        Some((variable, field)) => add_pair(names, readers, *variable, *field, write),
    }
}

fn add_read(names: &Names, readers: &mut Readers, read: Read, write: usize) -> Result<(), Memory> {
    match read {
        Read::Name(name) => add_name(names, readers, name, write),
        Read::Deep(of, field) => add_field(&mut readers.fields, of, field, write),
    }
}

fn add_source(
    names: &Names,
    readers: &mut Readers,
    source: Source,
    write: usize,
) -> Result<(), Memory> {
    match source {
        Source::Content(looked) => add_read(names, readers, read_of(looked), write),
        Source::Null | Source::New(_) | Source::Undef => Ok(()),
    }
}

fn add_write(names: &Names, readers: &mut Readers, deed: Deed, write: usize) -> Result<(), Memory> {
    match deed {
        Deed::Sets(_, source) => add_source(names, readers, source, write),
        Deed::SetsField(base, _, _, source) => {
            add_read(names, readers, base, write)?;
            add_source(names, readers, source, write)
        }
        Deed::Reads(_, _) | Deed::Follows(_) | Deed::Says(_) => Ok(()),
    }
}

/// The readers among some writes.
pub fn readers_of(alloc: Global, names: &Names, writes: &[Deed]) -> Result<Readers, Memory> {
    let vars = empty_lists(alloc, names.vars.len())?;
    let fields = lists_by_field(alloc, names.structs.as_slice())?;
    let mut readers = Readers { vars, fields };
    for (write, deed) in writes.iter().enumerate() {
        add_write(names, &mut readers, *deed, write)?;
    }
    Ok(readers)
}

/// The writes that read what a write writes.
pub fn readers_behind(readers: &Readers, deed: Deed) -> &[usize] {
    match deed {
        Deed::Sets(variable, _) => row(&readers.vars, variable),
        Deed::SetsField(_, of, field, _) => match readers.fields.get(of) {
            None => &[],
            Some(lists) => row(lists, field),
        },
        Deed::Reads(_, _) | Deed::Follows(_) | Deed::Says(_) => &[],
    }
}

fn row(lists: &Seq<Seq<usize>>, place: usize) -> &[usize] {
    match lists.get(place) {
        None => &[],
        Some(list) => list.as_slice(),
    }
}
