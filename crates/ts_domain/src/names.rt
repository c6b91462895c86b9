// The numbers of variables, pointing expressions, sites and puts, and what a read names.
use c_tree::{Put, StructDef, VarDef};
use mf_list::Seq;

/// What the numbers of the analyses stand for. `vars` are the pointer variables by their numbers in the program; `fields`
/// are pairs of a place in `vars` and a pointer field of that variable's struct; `sites` are the nodes that make objects;
/// `puts` ascend, fields before variables in a gap. `decls` and `structs` are the program's own.
#[derive(Debug, Drop)]
pub struct Names {
    pub vars: Seq<usize>,
    pub fields: Seq<(usize, usize)>,
    pub sites: Seq<usize>,
    pub puts: Seq<Put>,
    pub decls: Seq<VarDef>,
    pub structs: Seq<StructDef>,
}

/// A read of a pointer: of an expression by its number, which is its place among the variables and then the fields; or of
/// a field that a longer chain leads to, by the struct and the field.
#[derive(Clone, Copy, Debug, PartialEq, Eq)]
pub enum Read {
    Name(usize),
    Deep(usize, usize),
}
