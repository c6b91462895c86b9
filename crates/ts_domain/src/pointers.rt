// Which expressions are pointers, and their numbers.
ghost use Rattle.std.specs.Prelude.{◌≡◌, ◌<◌, length, IfSome};
ghost use Rattle.ts_domain.specs.Pointers.{field_of_struct, field_place, field_pointer, field_read, field_type, is_pointer, numbered, place_of, type_of, var_pointer};

use crate::names::{Names, Read};
use c_tree::Ty;

/// An expression that a pointer is read from: its type, and what a read of it names.
#[derive(Clone, Copy, Debug, PartialEq, Eq)]
pub struct Pointer {
    pub ty: Ty,
    pub read: Read,
}

/// Whether a type is one of pointers.
pub fn is_pointer(ty: Ty) -> bool
    ensures { result ≡ is_pointer ty }
{
    match ty {
        Ty::Int => false,
        Ty::IntPtr => true,
        Ty::StructPtr(_) => true,
    }
}

/// The place of a variable among the pointer variables.
pub fn place_of(names: &Names, variable: usize) -> Option<usize>
    ensures first { result ≡ place_of names.now variable }
    ensures below { IfSome result (λ at. at < length names.now.vars) }
{
    names.vars.as_slice().iter().position(|x| *x == variable)
}

pub fn type_of(names: &Names, variable: usize) -> Option<Ty>
    ensures { result ≡ type_of names.now variable }
{
    match names.decls.get(variable) {
        None => None,
        Some(decl) => Some(decl.ty),
    }
}

/// The type of a field of a struct.
pub fn field_type(names: &Names, of: usize, field: usize) -> Option<Ty>
    ensures { result ≡ field_type names.now of field }
{
    match names.structs.get(of) {
        None => None,
        Some(definition) => match definition.fields.get(field) {
            None => None,
            Some(field) => Some(field.ty),
        },
    }
}

/// A variable, if it is a pointer.
pub fn var_pointer(names: &Names, variable: usize) -> Option<Pointer>
    ensures { result ≡ var_pointer names.now variable }
{
    match type_of(names, variable) {
        None => None,
        Some(ty) => match place_of(names, variable) {
            None => None,
            Some(place) => Some(Pointer {
                ty,
                read: Read::Name(place),
            }),
        },
    }
}

/// The place of a field of a variable among the fields.
pub fn field_place(fields: &[(usize, usize)], place: usize, field: usize) -> Option<usize>
    ensures first { result ≡ field_place fields.now place field }
    ensures below { IfSome result (λ at. at < length fields.now) }
{
    fields.iter().position(|x| x.0 == place && x.1 == field)
}

/// The number of a field of a variable, which comes behind those of the variables.
fn numbered(names: &Names, place: usize, field: usize) -> Option<Read>
    ensures { result ≡ numbered names.now place field }
{
    let vars = names.vars.as_slice();
    let fields = names.fields.as_slice();
    match field_place(fields, place, field) {
        None => None,
        Some(at) => Some(Read::Name(vars.len() + at)),
    }
}

fn chained(names: &Names, place: usize, of: usize, field: usize) -> Option<Read>
    ensures { result ≡ field_read names.now (Read.Name place) of field }
{
    if place < names.vars.len() {
        numbered(names, place, field)
    } else {
        Some(Read::Deep(of, field))
    }
}

fn field_read(names: &Names, base: Read, of: usize, field: usize) -> Option<Read>
    ensures { result ≡ field_read names.now base of field }
{
    match base {
        Read::Name(place) => chained(names, place, of, field),
        Read::Deep(_, _) => Some(Read::Deep(of, field)),
    }
}

fn field_of_struct(names: &Names, base: Read, of: usize, field: usize) -> Option<Pointer>
    ensures { result ≡ field_of_struct names.now base of field }
{
    match field_type(names, of, field) {
        None => None,
        Some(ty) => {
            if !is_pointer(ty) {
                return None;
            }
            match field_read(names, base, of, field) {
                None => None,
                Some(read) => Some(Pointer { ty, read }),
            }
        }
    }
}

/// Field `field` behind a pointer, if it is one itself.
pub fn field_pointer(names: &Names, field: usize, base: Pointer) -> Option<Pointer>
    ensures { result ≡ field_pointer names.now field base }
{
    match base.ty {
        Ty::Int => None,
        Ty::IntPtr => None,
        Ty::StructPtr(of) => field_of_struct(names, base.read, of, field),
    }
}
