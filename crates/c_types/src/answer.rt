// The walk through a file, the program that it makes, and the answer (C99 6.9).
ghost use Rattle.std.specs.Prelude.{◌≡◌, IfOk, OnOk, map};
ghost use Rattle.c_tree.specs.WellFormed.{IsWellFormed};
ghost use Rattle.c_types.specs.Offsets.{FitsText};
ghost use Rattle.c_types.specs.Program.{IsAnswer, IsSettled, definition_named, definitions, field_def, made_program, start, struct_def, walked, walked_from, walked_top, with_top};
ghost use Rattle.c_types.specs.Tables.{place_of};

use crate::cycles::first_cycle;
use crate::declaring::or_int;
use crate::faults::least;
use crate::functions_called::user_calls;
use crate::names::NameTable;
use crate::refusal::TypeRefusal;
use crate::scope::{Scope, StructRow, Walk, Written};
use c_tree::tree::{Top, Tree, Word};
use c_tree::{FieldDef, Program, StructDef};
use mf_list::{Memory, Seq};
use std::alloc::Global;

fn add_name(alloc: Global, rows: &mut NameTable<usize>, name: &Option<Word>) -> Result<(), Memory>
    ensures { OnOk result (rows.new ≡ definition_named rows.old name.now) }
{
    match name {
        None => Ok(()),
        Some(word) => match rows.find(word.text.as_slice()).copied() {
            None => rows.declare(alloc, word.text.as_slice(), word.at),
            Some(_) => Ok(()),
        },
    }
}

fn add_top(alloc: Global, rows: &mut NameTable<usize>, top: &Top) -> Result<(), Memory>
    ensures { OnOk result (rows.new ≡ with_top rows.old top.now) }
{
    match top {
        Top::Fun(head, _) => add_name(alloc, rows, &head.result.name),
        Top::Proto(_) => Ok(()),
        Top::Globals(_) => Ok(()),
        Top::Struct(_, _, _) => Ok(()),
    }
}

/// The functions that a file defines, each once.
fn definitions(alloc: Global, tops: &[Top]) -> Result<NameTable<usize>, Memory>
    ensures { IfOk result (λ rows. rows ≡ definitions tops.now) }
{
    let mut rows = NameTable::new(alloc);
    for top in tops {
        add_top(alloc, &mut rows, top)?;
    }
    Ok(rows)
}

fn start(alloc: Global, definitions: NameTable<usize>) -> Walk
    ensures { result ≡ start definitions }
{
    Walk {
        scope: Scope {
            names: NameTable::new(alloc),
            tags: NameTable::new(alloc),
            structs: Seq::new(alloc),
        },
        definitions,
        signatures: Seq::new(alloc),
        vars: Seq::new(alloc),
        funs: Seq::new(alloc),
        gaps: 0,
        calls: 0,
        faults: Seq::new(alloc),
    }
}

impl Walk {
    fn top(&mut self, alloc: Global, top: &Top) -> Result<(), Memory>
        ensures { OnOk result (self.new ≡ walked_top self.old top.now) }
    {
        match top {
            Top::Struct(tag, body, alias) => self.structure(alloc, tag, body, alias),
            Top::Globals(globals) => self.globals(alloc, globals.as_slice()),
            Top::Proto(head) => self.prototype(alloc, head),
            Top::Fun(head, body) => self.function(alloc, head, body),
        }
    }

    fn tops(&mut self, alloc: Global, tops: &[Top]) -> Result<(), Memory>
        ensures { OnOk result (self.new ≡ walked_from self.old tops.now) }
    {
        for top in tops {
            self.top(alloc, top)?;
        }
        Ok(())
    }
}

fn field_def(alloc: Global, row: &(Seq<u8>, Written)) -> Result<FieldDef, Memory>
    ensures { IfOk result (λ d. d ≡ field_def row.now) }
{
    let (name, written) = row;
    Ok(FieldDef {
        name: Seq::from_slice(alloc, name.as_slice())?,
        ty: or_int(*written),
    })
}

fn field_defs(alloc: Global, rows: &[(Seq<u8>, Written)]) -> Result<Seq<FieldDef>, Memory>
    ensures { IfOk result (λ made. made ≡ map field_def rows.now) }
{
    let mut made = Seq::new(alloc);
    for row in rows {
        made.push(field_def(alloc, row)?)?;
    }
    Ok(made)
}

fn struct_def(alloc: Global, row: &StructRow) -> Result<StructDef, Memory>
    ensures { IfOk result (λ d. d ≡ struct_def row.now) }
{
    Ok(StructDef {
        fields: field_defs(alloc, row.fields.as_slice())?,
        body: row.body,
    })
}

fn struct_defs(alloc: Global, rows: &[StructRow]) -> Result<Seq<StructDef>, Memory>
    ensures { IfOk result (λ made. made ≡ map struct_def rows.now) }
{
    let mut made = Seq::new(alloc);
    for row in rows {
        made.push(struct_def(alloc, row)?)?;
    }
    Ok(made)
}

fn made_program(alloc: Global, walk: Walk, main: usize) -> Result<Program, Memory>
    ensures { IfOk result (λ p. p ≡ made_program walk main) }
{
    let structs = struct_defs(alloc, walk.scope.structs.as_slice())?;
    Ok(Program {
        structs,
        vars: walk.vars,
        funs: walk.funs,
        main,
        gaps: walk.gaps,
        calls: walk.calls,
    })
}

/// The program, where its functions don't call each other in a cycle.
fn settled(alloc: Global, program: Program) -> Result<Program, TypeRefusal>
    ensures { IsSettled program result }
{
    let calls = user_calls(alloc, &program)?;
    match first_cycle(alloc, calls.as_slice())? {
        None => Ok(program),
        Some(call) => Err(TypeRefusal::Recursion(calls.at(call).at)),
    }
}

// what `resolve` answers
fn answered(alloc: Global, tree: &Tree) -> Result<Program, TypeRefusal>
    ensures { IsAnswer tree.now result }
{
    let definitions = definitions(alloc, tree.tops.as_slice())?;
    let main = definitions.place(b"main");
    let mut walk = start(alloc, definitions);
    walk.tops(alloc, tree.tops.as_slice())?;
    if let Some(fault) = least(walk.faults.as_slice()) {
        return Err(fault.refusal());
    }
    match main {
        None => Err(TypeRefusal::NoMain),
        Some(main) => settled(alloc, made_program(alloc, walk, main)?),
    }
}

/// The program of a tree, where the tree breaks no rule of names and types (C99 6.2 to 6.9). Of the broken rules the one
/// with the least offset is answered, and at one offset the one that comes first in `Rule`. The program of a text's tree is
/// well formed.
pub fn resolve(alloc: Global, tree: &Tree) -> Result<Program, TypeRefusal>
    ensures answers { IsAnswer tree.now result }
    ensures well_formed { FitsText tree.now → IfOk result IsWellFormed }
{
    answered(alloc, tree)
}
