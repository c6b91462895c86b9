// What is declared at a place of a text, and where that place is nested.
use crate::faults::Fault;
use crate::names::NameTable;
use c_tree::{FunDef, Ty, VarDef};
use mf_list::Seq;

/// What the base of a type names.
#[derive(Clone, Copy)]
pub enum BaseType {
    Void,
    Int,
    Struct(usize),
    Bad(Fault),
}

/// A written type of values, or the fault for which it is none.
#[derive(Clone, Copy)]
pub enum Written {
    Good(Ty),
    Bad(Fault),
}

/// A written type of results.
#[derive(Clone, Copy)]
pub enum Returned {
    Nothing,
    Value(Ty),
    Bad(Fault),
}

/// What a name stands for: a variable by its number, a typedef name by its struct, a function by its place among the
/// declared ones, or nothing, where its declaration broke a rule.
#[derive(Clone, Copy)]
pub enum Meaning {
    Variable(usize, Ty),
    Alias(usize),
    Function(usize),
    Bad(Fault),
}

/// What a visible name stands for, and how many scopes are around its declaration.
#[derive(Clone, Copy)]
pub struct Entry {
    pub meaning: Meaning,
    pub depth: usize,
}

/// A struct so far: its fields, and the offset of its body's `{` where that has come.
#[derive(Drop)]
pub struct StructRow {
    pub fields: NameTable<Written>,
    pub body: Option<usize>,
}

/// What is visible at a place: names, and the structs by number with their tags.
#[derive(Drop)]
pub struct Scope {
    pub names: NameTable<Entry>,
    pub tags: NameTable<usize>,
    pub structs: Seq<StructRow>,
}

/// The types of a function that is declared, and whether its body has come.
#[derive(Drop)]
pub struct Signature {
    pub result: Option<Ty>,
    pub params: Seq<Ty>,
    pub has_body: bool,
}

/// Where a statement is nested: in which function, what that returns, how many scopes are around it, and whether a loop is.
#[derive(Clone, Copy)]
pub struct Nesting {
    pub function: usize,
    pub returns: Returned,
    pub depth: usize,
    pub in_loop: bool,
}

/// The way through a text: what is declared so far, the functions that the file defines, by number with the offsets of
/// their names, what has been numbered and made so far, and the rules that have been broken.
#[derive(Drop)]
pub struct Walk {
    pub scope: Scope,
    pub definitions: NameTable<usize>,
    pub signatures: Seq<Signature>,
    pub vars: Seq<VarDef>,
    pub funs: Seq<FunDef>,
    pub gaps: usize,
    pub calls: usize,
    pub faults: Seq<Fault>,
}

/// The types of a declaration of a function, or the fault of the first one that is none.
#[derive(Drop)]
pub enum Heading {
    Good(Signature),
    Bad(Fault),
}
