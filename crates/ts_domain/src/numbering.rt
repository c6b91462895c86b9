// The pointer variables, the pointer fields of structs and the sites, in order.
ghost use Rattle.std.specs.Prelude.{◌≡◌, ◌++◌, [], ◌∷◌, cond, map, option_map, slice_get, IfOk, OnOk};
ghost use Rattle.ts_domain.specs.Numbering.{defined_fields, makes, pointer_fields, pointer_vars, pointing_fields, sites_of, var_fields};

use crate::pointers::is_pointer;
use c_graph::{Action, Node, NodeKind};
use c_tree::{FieldDef, StructDef, Ty, VarDef};
use mf_list::{Memory, Seq};
use std::alloc::Global;

fn push_if(list: &mut Seq<usize>, passes: bool, place: usize) -> Result<(), Memory>
    ensures { OnOk result (list.new ≡ list.old ++ cond passes (place ∷ []) []) }
{
    if passes { list.push(place) } else { Ok(()) }
}

/// The pointer variables, nameless slots of results among them.
pub fn pointer_vars(alloc: Global, decls: &Seq<VarDef>) -> Result<Seq<usize>, Memory>
    ensures { IfOk result (λ list. list ≡ pointer_vars decls.now) }
{
    let mut list = Seq::new(alloc);
    for place in 0..decls.len() {
        push_if(&mut list, is_pointer(decls.at(place).ty), place)?;
    }
    Ok(list)
}

/// The pointer fields of a struct.
pub fn pointer_fields(alloc: Global, fields: &Seq<FieldDef>) -> Result<Seq<usize>, Memory>
    ensures { IfOk result (λ list. list ≡ pointer_fields fields.now) }
{
    let mut list = Seq::new(alloc);
    for place in 0..fields.len() {
        push_if(&mut list, is_pointer(fields.at(place).ty), place)?;
    }
    Ok(list)
}

fn makes(kind: &NodeKind) -> bool
    ensures { result ≡ makes kind.now }
{
    match kind {
        NodeKind::Act(Action::Malloc(_, _, _)) => true,
        _ => false,
    }
}

/// The nodes that make objects.
pub fn sites_of(alloc: Global, nodes: &Seq<Node>) -> Result<Seq<usize>, Memory>
    ensures { IfOk result (λ list. list ≡ sites_of nodes.now) }
{
    let mut list = Seq::new(alloc);
    for place in 0..nodes.len() {
        push_if(&mut list, makes(&nodes.at(place).kind), place)?;
    }
    Ok(list)
}

fn defined_fields(alloc: Global, structs: &Seq<StructDef>, of: usize) -> Result<Seq<usize>, Memory>
    ensures { IfOk result (λ list. list ≡ defined_fields (slice_get structs.now of)) }
{
    match structs.get(of) {
        None => Ok(Seq::new(alloc)),
        Some(definition) => pointer_fields(alloc, &definition.fields),
    }
}

/// The type of a variable.
pub fn type_at(decls: &Seq<VarDef>, variable: usize) -> Option<Ty>
    ensures { result ≡ option_map (λ (v : VarDef). v.ty) (slice_get decls.now variable) }
{
    match decls.get(variable) {
        None => None,
        Some(decl) => Some(decl.ty),
    }
}

pub fn var_fields(
    alloc: Global,
    structs: &Seq<StructDef>,
    decls: &Seq<VarDef>,
    variable: usize,
) -> Result<Seq<usize>, Memory>
    ensures { IfOk result (λ list. list ≡ var_fields structs.now decls.now variable) }
{
    match type_at(decls, variable) {
        None => Ok(Seq::new(alloc)),
        Some(Ty::Int) => Ok(Seq::new(alloc)),
        Some(Ty::IntPtr) => Ok(Seq::new(alloc)),
        Some(Ty::StructPtr(of)) => defined_fields(alloc, structs, of),
    }
}

pub fn add_pairs(
    list: &mut Seq<(usize, usize)>,
    place: usize,
    fields: &[usize],
) -> Result<(), Memory>
    ensures { OnOk result (list.new ≡ list.old ++ map (λ f. (place, f)) fields.now) }
{
    for field in fields {
        list.push((place, *field))?;
    }
    Ok(())
}

/// The fields of pointer variables, each by the place of its variable; by variable and then by field.
pub fn pointing_fields(
    alloc: Global,
    structs: &Seq<StructDef>,
    decls: &Seq<VarDef>,
    vars: &Seq<usize>,
) -> Result<Seq<(usize, usize)>, Memory>
    ensures { IfOk result (λ list. list ≡ pointing_fields structs.now decls.now vars.now) }
{
    let mut list = Seq::new(alloc);
    for place in 0..vars.len() {
        let fields = var_fields(alloc, structs, decls, *vars.at(place))?;
        add_pairs(&mut list, place, fields.as_slice())?;
    }
    Ok(list)
}
