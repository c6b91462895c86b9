// Structs with their tags, fields and typedef names, and the variables of the file (C99 6.7.2.1, 6.7.7, 6.7.8).
ghost use Rattle.std.specs.Prelude.{◌≡◌, IfOk, OnOk, slice_get};
ghost use Rattle.std.specs.Option.{option_copied};
ghost use Rattle.c_types.specs.Scopes.{in_scope, noted};
ghost use Rattle.c_types.specs.Structs.{alias_if, body_if, constant, field_more, numbered, row_again, start_faults, start_noted, start_number, walked_body, walked_field, walked_fields, walked_global, walked_globals, walked_struct, with_row};
ghost use Rattle.c_types.specs.Tables.{found};

use crate::declaring::type_faults;
use crate::faults::{Fault, Rule};
use crate::fits::{one_fault, unless};
use crate::judged::{Judged, Value};
use crate::names::NameTable;
use crate::scope::{Entry, Meaning, Scope, StructRow, Walk, Written};
use c_tree::tree::{Body, Expr, GlobalDecl, Spec, Word};
use c_tree::{Home, Sign};
use mf_list::{Memory, Seq};
use std::alloc::Global;

/// Whether a tag's body comes again.
fn row_again(
    alloc: Global,
    row: Option<&StructRow>,
    tag: &Option<Word>,
) -> Result<Seq<Fault>, Memory>
    ensures { IfOk result (λ fs. fs ≡ row_again (option_copied row.entry) tag.now) }
{
    match (row, tag) {
        (None, _) => Ok(Seq::new(alloc)),
        (Some(_), None) => Ok(Seq::new(alloc)),
        (Some(row), Some(tag)) => unless(alloc, row.body.is_none(), Rule::Twice, tag.at),
    }
}

/// The number of a constant, 0 for a null pointer.
fn constant(expr: &Expr) -> Option<i32>
    ensures { result ≡ constant expr.now }
{
    match expr {
        Expr::Const(number, _) => Some(*number),
        Expr::Null(_) => Some(0),
        Expr::Unary(Sign::Minus, of, _) => constant(of.get())?.checked_neg(),
        Expr::Unary(Sign::Not, _, _) => None,
        Expr::Var(_) => None,
        Expr::Field(_, _, _) => None,
        Expr::Deref(_, _) => None,
        Expr::Index(_, _, _) => None,
        Expr::Binary(_, _, _, _) => None,
    }
}

fn start_number(value: &Option<Expr>) -> i32
    ensures { result ≡ start_number value.now }
{
    match value {
        None => 0,
        Some(value) => constant(value).unwrap_or(0),
    }
}

fn start_faults(
    alloc: Global,
    written: Written,
    at: usize,
    number: Option<i32>,
    value: Judged<Value>,
) -> Result<Seq<Fault>, Memory>
    ensures { IfOk result (λ fs. fs ≡ start_faults written at number value) }
{
    match (written, value) {
        (_, Judged::Broken(faults)) => Ok(faults),
        (Written::Bad(_), Judged::Typed(_)) => Ok(Seq::new(alloc)),
        (Written::Good(ty), Judged::Typed(value)) => match number {
            None => one_fault(alloc, Rule::TypesDiffer, at),
            Some(_) => unless(alloc, value.fits(ty), Rule::TypesDiffer, at),
        },
    }
}

impl Scope {
    fn numbered(&mut self, alloc: Global, tag: &Option<Word>) -> Result<usize, Memory>
        ensures { IfOk result (λ n. (self.new, n) ≡ numbered tag.now self.old) }
    {
        match tag {
            None => self.add_struct(alloc),
            Some(tag) => self.tagged(alloc, tag),
        }
    }
}

impl Walk {
    fn field(
        &mut self,
        alloc: Global,
        fields: &mut NameTable<Written>,
        spec: &Spec,
    ) -> Result<(), Memory>
        ensures { OnOk result ((self.new, fields.new) ≡ walked_field spec.now fields.old self.old) }
    {
        let written = self.spec_written(alloc, spec)?;
        let faults = type_faults(alloc, written)?;
        self.note(faults)?;
        match &spec.name {
            None => self.note_one(alloc, Rule::Nameless, spec.at),
            Some(word) => self.field_more(alloc, fields, word, written),
        }
    }

    fn field_more(
        &mut self,
        alloc: Global,
        fields: &mut NameTable<Written>,
        word: &Word,
        written: Written,
    ) -> Result<(), Memory>
        ensures { OnOk result ((self.new, fields.new) ≡ field_more word.now written fields.old (found fields.old word.now.text) self.old) }
    {
        match fields.find(word.text.as_slice()).copied() {
            None => fields.declare(alloc, word.text.as_slice(), written),
            Some(_) => self.note_one(alloc, Rule::Twice, word.at),
        }
    }

    fn fields(&mut self, alloc: Global, specs: &[Spec]) -> Result<NameTable<Written>, Memory>
        ensures { IfOk result (λ fields. (self.new, fields) ≡ walked_fields specs.now self.old) }
    {
        let mut fields = NameTable::new(alloc);
        for spec in specs {
            self.field(alloc, &mut fields, spec)?;
        }
        Ok(fields)
    }

    fn set_row(&mut self, number: usize, row: StructRow)
        ensures { self.new ≡ with_row number row self.old }
    {
        if number < self.scope.structs.len() {
            self.scope.structs.set(number, row);
        }
    }

    fn note_row(&mut self, alloc: Global, tag: &Option<Word>, number: usize) -> Result<(), Memory>
        ensures { OnOk result (self.new ≡ noted (row_again (slice_get self.old.scope.structs number) tag.now) self.old) }
    {
        let faults = row_again(alloc, self.scope.structs.get(number), tag)?;
        self.note(faults)
    }

    fn body(
        &mut self,
        alloc: Global,
        tag: &Option<Word>,
        number: usize,
        body: &Body,
    ) -> Result<(), Memory>
        ensures { OnOk result (self.new ≡ walked_body tag.now number body.now self.old) }
    {
        self.note_row(alloc, tag, number)?;
        let fields = self.fields(alloc, body.fields.as_slice())?;
        let row = StructRow {
            fields,
            body: Some(body.at),
        };
        self.set_row(number, row);
        Ok(())
    }

    fn any_body(
        &mut self,
        alloc: Global,
        tag: &Option<Word>,
        number: usize,
        body: &Option<Body>,
    ) -> Result<(), Memory>
        ensures { OnOk result (self.new ≡ body_if tag.now number body.now self.old) }
    {
        match body {
            None => Ok(()),
            Some(body) => self.body(alloc, tag, number, body),
        }
    }

    fn any_alias(
        &mut self,
        alloc: Global,
        number: usize,
        alias: &Option<Word>,
    ) -> Result<(), Memory>
        ensures { OnOk result (self.new ≡ alias_if number alias.now self.old) }
    {
        match alias {
            None => Ok(()),
            Some(alias) => {
                let meaning = Meaning::Alias(number);
                self.name(alloc, alias, Entry { meaning, depth: 0 })
            }
        }
    }

    fn struct_number(&mut self, alloc: Global, tag: &Option<Word>) -> Result<usize, Memory>
        ensures { IfOk result (λ n. (self.new, n) ≡ in_scope (numbered tag.now) self.old) }
    {
        self.scope.numbered(alloc, tag)
    }

    /// A struct with its tag, its body and its typedef name, each where it is written.
    pub(crate) fn structure(
        &mut self,
        alloc: Global,
        tag: &Option<Word>,
        body: &Option<Body>,
        alias: &Option<Word>,
    ) -> Result<(), Memory>
        ensures { OnOk result (self.new ≡ walked_struct tag.now body.now alias.now self.old) }
    {
        let number = self.struct_number(alloc, tag)?;
        self.any_body(alloc, tag, number, body)?;
        self.any_alias(alloc, number, alias)
    }

    fn start_value(
        &mut self,
        alloc: Global,
        at: usize,
        value: &Option<Expr>,
        written: Written,
    ) -> Result<(), Memory>
        ensures { OnOk result (self.new ≡ start_noted at value.now (self.old, written)) }
    {
        match value {
            None => Ok(()),
            Some(value) => {
                let number = constant(value);
                let value = self.scope.judged(alloc, value, false)?;
                let faults = start_faults(alloc, written, at, number, value)?;
                self.note(faults)
            }
        }
    }

    /// A variable of the file.
    pub(crate) fn global(&mut self, alloc: Global, global: &GlobalDecl) -> Result<(), Memory>
        ensures { OnOk result (self.new ≡ walked_global global.now self.old) }
    {
        let home = Home::Global(start_number(&global.value));
        let written = self.declare(alloc, &global.spec, home, 0)?;
        self.start_value(alloc, global.at, &global.value, written)
    }

    pub(crate) fn globals(&mut self, alloc: Global, globals: &[GlobalDecl]) -> Result<(), Memory>
        ensures { OnOk result (self.new ≡ walked_globals self.old globals.now) }
    {
        for global in globals {
            self.global(alloc, global)?;
        }
        Ok(())
    }
}
