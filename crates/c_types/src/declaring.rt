// Types as they are written, tags, and the declaration of names (C99 6.2.1, 6.7.2.3).
ghost use Rattle.std.specs.Prelude.{◌≡◌, false, None, IfOk, OnOk};
ghost use Rattle.c_types.specs.Fits.{unless};
ghost use Rattle.c_types.specs.InTurn.{each};
ghost use Rattle.c_types.specs.Scopes.{alias_as, alias_by, based, clash, closed, declared, in_scope, naming, named, named_any, new_struct, noted, or_int, result_of, result_type, spec_type, tagged, text_or_none, type_faults, untagged, value_or_bad, value_type, var_of, variable_meaning, variable_named, with_name, with_var, word_or, written};
ghost use Rattle.c_types.specs.Tables.{found};

use crate::faults::{Fault, Rule};
use crate::fits::one_fault;
use crate::names::NameTable;
use crate::scope::{BaseType, Entry, Meaning, Returned, Scope, StructRow, Walk, Written};
use c_tree::tree::{Base, Spec, Word};
use c_tree::{Home, Ty, VarDef};
use mf_list::{Memory, Seq};
use std::alloc::Global;

fn new_struct(alloc: Global) -> StructRow
    ensures { result ≡ new_struct }
{
    StructRow {
        fields: NameTable::new(alloc),
        body: None,
    }
}

fn alias_as(word: &Word, meaning: Meaning) -> BaseType
    ensures { result ≡ alias_as word.now meaning }
{
    let unknown = Fault {
        at: word.at,
        rule: Rule::Unknown,
    };
    match meaning {
        Meaning::Alias(number) => BaseType::Struct(number),
        Meaning::Bad(fault) => BaseType::Bad(fault),
        Meaning::Variable(_, _) => BaseType::Bad(unknown),
        Meaning::Function(_) => BaseType::Bad(unknown),
    }
}

fn alias_by(word: &Word, entry: Option<Entry>) -> BaseType
    ensures { result ≡ alias_by word.now entry }
{
    match entry {
        None => BaseType::Bad(Fault {
            at: word.at,
            rule: Rule::Unknown,
        }),
        Some(entry) => alias_as(word, entry.meaning),
    }
}

fn value_type(base: BaseType, stars: usize) -> Option<Ty>
    ensures { result ≡ value_type base stars }
{
    match base {
        BaseType::Int => {
            if stars == 0 {
                Some(Ty::Int)
            } else if stars == 1 {
                Some(Ty::IntPtr)
            } else {
                None
            }
        }
        BaseType::Struct(number) => {
            if stars == 1 {
                Some(Ty::StructPtr(number))
            } else {
                None
            }
        }
        BaseType::Void => None,
        BaseType::Bad(_) => None,
    }
}

/// The offset of a declared name, or of its type's first token where it has none.
pub(crate) fn naming(spec: &Spec) -> usize
    ensures { result ≡ naming spec.now }
{
    match &spec.name {
        None => spec.at,
        Some(word) => word.at,
    }
}

fn written(spec: &Spec, base: BaseType) -> Written
    ensures { result ≡ written spec.now base }
{
    if let BaseType::Bad(fault) = base {
        return Written::Bad(fault);
    }
    match value_type(base, spec.stars) {
        Some(ty) => Written::Good(ty),
        None => Written::Bad(Fault {
            at: naming(spec),
            rule: Rule::NoValues,
        }),
    }
}

fn value_or_bad(written: Written) -> Returned
    ensures { result ≡ value_or_bad written }
{
    match written {
        Written::Good(ty) => Returned::Value(ty),
        Written::Bad(fault) => Returned::Bad(fault),
    }
}

fn result_of(spec: &Spec, base: BaseType) -> Returned
    ensures { result ≡ result_of spec.now base }
{
    match base {
        BaseType::Void => {
            if spec.stars == 0 {
                Returned::Nothing
            } else {
                Returned::Bad(Fault {
                    at: naming(spec),
                    rule: Rule::NoValues,
                })
            }
        }
        BaseType::Int => value_or_bad(written(spec, BaseType::Int)),
        BaseType::Struct(number) => value_or_bad(written(spec, BaseType::Struct(number))),
        BaseType::Bad(fault) => value_or_bad(written(spec, BaseType::Bad(fault))),
    }
}

impl Scope {
    /// What a visible name stands for.
    pub(crate) fn entry(&self, word: &Word) -> Option<Entry>
        ensures { result ≡ found self.now.names word.now.text }
    {
        self.names.find(word.text.as_slice()).copied()
    }

    /// A struct without a tag; its number.
    pub(crate) fn add_struct(&mut self, alloc: Global) -> Result<usize, Memory>
        ensures { IfOk result (λ n. (self.new, n) ≡ untagged self.old) }
    {
        let number = self.structs.len();
        self.structs.push(new_struct(alloc))?;
        Ok(number)
    }

    /// The number of a tag's struct, a new one where the tag is new.
    pub(crate) fn tagged(&mut self, alloc: Global, tag: &Word) -> Result<usize, Memory>
        ensures { IfOk result (λ n. (self.new, n) ≡ tagged tag.now self.old) }
    {
        match self.tags.find(tag.text.as_slice()).copied() {
            Some(number) => Ok(number),
            None => {
                let Scope { tags, structs, .. } = self;
                let number = structs.len();
                tags.declare(alloc, tag.text.as_slice(), number)?;
                structs.push(new_struct(alloc))?;
                Ok(number)
            }
        }
    }

    /// What the base of a type names.
    pub(crate) fn based(&mut self, alloc: Global, base: &Base) -> Result<BaseType, Memory>
        ensures { IfOk result (λ t. (self.new, t) ≡ based base.now self.old) }
    {
        match base {
            Base::Void => Ok(BaseType::Void),
            Base::Int => Ok(BaseType::Int),
            Base::Tag(tag) => Ok(BaseType::Struct(self.tagged(alloc, tag)?)),
            Base::Alias(name) => Ok(alias_by(name, self.entry(name))),
        }
    }

    /// The type that is written in a declaration.
    pub(crate) fn spec_type(&mut self, alloc: Global, spec: &Spec) -> Result<Written, Memory>
        ensures { IfOk result (λ t. (self.new, t) ≡ spec_type spec.now self.old) }
    {
        let base = self.based(alloc, &spec.base)?;
        Ok(written(spec, base))
    }

    pub(crate) fn spec_types(
        &mut self,
        alloc: Global,
        specs: &[Spec],
    ) -> Result<Seq<Written>, Memory>
        ensures { IfOk result (λ made. (self.new, made) ≡ each spec_type specs.now self.old) }
    {
        let mut made = Seq::new(alloc);
        for spec in specs {
            made.push(self.spec_type(alloc, spec)?)?;
        }
        Ok(made)
    }

    pub(crate) fn result_type(&mut self, alloc: Global, spec: &Spec) -> Result<Returned, Memory>
        ensures { IfOk result (λ t. (self.new, t) ≡ result_type spec.now self.old) }
    {
        let base = self.based(alloc, &spec.base)?;
        Ok(result_of(spec, base))
    }
}

/// The fault of a type.
pub(crate) fn type_faults(alloc: Global, written: Written) -> Result<Seq<Fault>, Memory>
    ensures { IfOk result (λ fs. fs ≡ type_faults written) }
{
    match written {
        Written::Good(_) => Ok(Seq::new(alloc)),
        Written::Bad(fault) => {
            let mut faults = Seq::new(alloc);
            faults.push(fault)?;
            Ok(faults)
        }
    }
}

fn clash(depth: usize, entry: Entry) -> Rule
    ensures { result ≡ clash depth entry }
{
    if entry.depth == depth {
        Rule::Twice
    } else {
        Rule::Hidden
    }
}

/// The text of a name.
pub(crate) fn text_of(alloc: Global, name: &Option<Word>) -> Result<Seq<u8>, Memory>
    ensures { IfOk result (λ text. text ≡ text_or_none name.now) }
{
    match name {
        None => Ok(Seq::new(alloc)),
        Some(word) => Seq::from_slice(alloc, word.text.as_slice()),
    }
}

pub(crate) fn or_int(written: Written) -> Ty
    ensures { result ≡ or_int written }
{
    match written {
        Written::Good(ty) => ty,
        Written::Bad(_) => Ty::Int,
    }
}

fn variable_meaning(number: usize, written: Written) -> Meaning
    ensures { result ≡ variable_meaning number written }
{
    match written {
        Written::Good(ty) => Meaning::Variable(number, ty),
        Written::Bad(fault) => Meaning::Bad(fault),
    }
}

fn var_of(alloc: Global, spec: &Spec, written: Written, home: Home) -> Result<VarDef, Memory>
    ensures { IfOk result (λ v. v ≡ var_of spec.now written home) }
{
    Ok(VarDef {
        name: text_of(alloc, &spec.name)?,
        ty: or_int(written),
        home,
        at: naming(spec),
    })
}

impl Walk {
    pub(crate) fn note(&mut self, faults: Seq<Fault>) -> Result<(), Memory>
        ensures { OnOk result (self.new ≡ noted faults self.old) }
    {
        let Walk { faults: noted, .. } = self;
        noted.append(faults)
    }

    pub(crate) fn note_one(&mut self, alloc: Global, rule: Rule, at: usize) -> Result<(), Memory>
        ensures { OnOk result (self.new ≡ noted (unless false rule at) self.old) }
    {
        let faults = one_fault(alloc, rule, at)?;
        self.note(faults)
    }

    /// A name that isn't visible so far.
    pub(crate) fn add_name(
        &mut self,
        alloc: Global,
        word: &Word,
        entry: Entry,
    ) -> Result<(), Memory>
        requires { found self.old.scope.names word.now.text ≡ None }
        ensures { OnOk result (self.new ≡ with_name word.now entry self.old) }
    {
        self.scope.names.declare(alloc, word.text.as_slice(), entry)
    }

    /// The declaration of a name.
    pub(crate) fn name(&mut self, alloc: Global, word: &Word, entry: Entry) -> Result<(), Memory>
        ensures { OnOk result (self.new ≡ named word.now entry self.old) }
    {
        match self.scope.entry(word) {
            None => self.add_name(alloc, word, entry),
            Some(older) => self.note_one(alloc, clash(entry.depth, older), word.at),
        }
    }

    fn name_any(&mut self, alloc: Global, spec: &Spec, entry: Entry) -> Result<(), Memory>
        ensures { OnOk result (self.new ≡ named_any spec.now entry self.old) }
    {
        match &spec.name {
            None => self.note_one(alloc, Rule::Nameless, spec.at),
            Some(word) => self.name(alloc, word, entry),
        }
    }

    pub(crate) fn push_var(&mut self, var: VarDef) -> Result<(), Memory>
        ensures { OnOk result (self.new ≡ with_var var self.old) }
    {
        self.vars.push(var)
    }

    /// The type that is written in a declaration.
    pub(crate) fn spec_written(&mut self, alloc: Global, spec: &Spec) -> Result<Written, Memory>
        ensures { IfOk result (λ t. (self.new, t) ≡ in_scope (spec_type spec.now) self.old) }
    {
        self.scope.spec_type(alloc, spec)
    }

    fn declare_typed(
        &mut self,
        alloc: Global,
        spec: &Spec,
        depth: usize,
        number: usize,
        written: Written,
    ) -> Result<(), Memory>
        ensures { OnOk result (self.new ≡ variable_named spec.now depth written number self.old) }
    {
        let faults = type_faults(alloc, written)?;
        self.note(faults)?;
        let meaning = variable_meaning(number, written);
        self.name_any(alloc, spec, Entry { meaning, depth })
    }

    /// The declaration of a variable; its type.
    pub(crate) fn declare(
        &mut self,
        alloc: Global,
        spec: &Spec,
        home: Home,
        depth: usize,
    ) -> Result<Written, Memory>
        ensures { IfOk result (λ t. (self.new, t) ≡ declared spec.now home depth self.old) }
    {
        let number = self.vars.len();
        let written = self.spec_written(alloc, spec)?;
        let var = var_of(alloc, spec, written, home)?;
        self.push_var(var)?;
        self.declare_typed(alloc, spec, depth, number, written)?;
        Ok(written)
    }

    /// Forgets the names behind the first n.
    pub(crate) fn close(&mut self, names: usize)
        ensures { self.new ≡ closed names self.old }
    {
        self.scope.names.truncate(names)
    }
}
