// Declarations and definitions of functions (C99 6.7.5.3, 6.9.1).
ghost use Rattle.std.specs.Prelude.{◌≡◌, ◌++◌, [], None, IfOk, OnOk, slice_get};
ghost use Rattle.std.specs.List.{flat_map};
ghost use Rattle.std.specs.Cmp.Lexicographic.{pointwise};
ghost use Rattle.c_tree.specs.AlikeTest.{option_alike, same_ty};
ghost use Rattle.c_types.specs.Functions.{again_faults, brace_of, differs, ended, fun_of, function_as, function_by, function_named, heading_of, heading_params, is_int_base, is_main_head, main_faults, new_function, no_value, noted_again, result_faults, result_or_none, same_types, walked_fun, walked_heading, walked_param, walked_proto, with_body, with_fun, with_signature, with_slot};
ghost use Rattle.c_types.specs.InTurn.{each};
ghost use Rattle.c_types.specs.Scopes.{in_scope, noted, result_type, spec_type, type_faults};
ghost use Rattle.c_types.specs.Tables.{found};

use crate::calls::is_main;
use crate::declaring::{naming, text_of};
use crate::faults::{Fault, Rule};
use crate::fits::{same_ty, unless};
use crate::flow::flow_of;
use crate::scope::{Entry, Heading, Meaning, Nesting, Returned, Signature, Walk, Written};
use c_tree::tree::{Base, Head, Spec, Word};
use c_tree::{Block, Flow, FunDef, Home, Ty, VarDef, tree};
use mf_list::{Memory, Seq};
use std::alloc::Global;

/// The types of a function, or the fault of the first one that is none.
fn heading_params(alloc: Global, of: Option<Ty>, written: &[Written]) -> Result<Heading, Memory>
    ensures { IfOk result (λ h. h ≡ heading_params of [] written.now) }
{
    let mut params = Seq::new(alloc);
    for ty in written {
        match *ty {
            Written::Good(ty) => params.push(ty)?,
            Written::Bad(fault) => return Ok(Heading::Bad(fault)),
        }
    }
    Ok(Heading::Good(Signature {
        result: of,
        params,
        has_body: false,
    }))
}

fn heading_of(alloc: Global, returns: Returned, written: &[Written]) -> Result<Heading, Memory>
    ensures { IfOk result (λ h. h ≡ heading_of returns written.now) }
{
    match returns {
        Returned::Nothing => heading_params(alloc, None, written),
        Returned::Value(ty) => heading_params(alloc, Some(ty), written),
        Returned::Bad(fault) => Ok(Heading::Bad(fault)),
    }
}

fn result_faults(alloc: Global, returns: Returned) -> Result<Seq<Fault>, Memory>
    ensures { IfOk result (λ fs. fs ≡ result_faults returns) }
{
    match returns {
        Returned::Nothing => Ok(Seq::new(alloc)),
        Returned::Value(_) => Ok(Seq::new(alloc)),
        Returned::Bad(fault) => {
            let mut faults = Seq::new(alloc);
            faults.push(fault)?;
            Ok(faults)
        }
    }
}

fn all_faults(alloc: Global, written: &[Written]) -> Result<Seq<Fault>, Memory>
    ensures { IfOk result (λ fs. fs ≡ flat_map type_faults written.now) }
{
    let mut faults = Seq::new(alloc);
    for ty in written {
        if let Written::Bad(fault) = *ty {
            faults.push(fault)?;
        }
    }
    Ok(faults)
}

fn same_results(left: Option<Ty>, right: Option<Ty>) -> bool
    ensures { result ≡ option_alike same_ty left right }
{
    match (left, right) {
        (None, None) => true,
        (Some(left), Some(right)) => same_ty(left, right),
        (None, Some(_)) => false,
        (Some(_), None) => false,
    }
}

fn same_params(left: &[Ty], right: &[Ty]) -> bool
    ensures { result ≡ pointwise same_ty left.now right.now }
{
    if left.len() != right.len() {
        return false;
    }
    for i in 0..left.len() {
        if !same_ty(left[i], right[i]) {
            return false;
        }
    }
    true
}

impl Signature {
    fn same_types(&self, other: &Signature) -> bool
        ensures { result ≡ same_types self.now other.now }
    {
        same_results(self.result, other.result)
            && same_params(self.params.as_slice(), other.params.as_slice())
    }
}

impl Heading {
    /// The rule on declarations of one function.
    fn differs(&self, alloc: Global, older: &Signature, at: usize) -> Result<Seq<Fault>, Memory>
        ensures { IfOk result (λ fs. fs ≡ differs self.now older.now at) }
    {
        match self {
            Heading::Bad(_) => Ok(Seq::new(alloc)),
            Heading::Good(signature) => {
                let same = signature.same_types(older);
                unless(alloc, same, Rule::DeclarationsDiffer, at)
            }
        }
    }
}

fn is_int_base(base: &Base) -> bool
    ensures { result ≡ is_int_base base.now }
{
    match base {
        Base::Int => true,
        Base::Void => false,
        Base::Tag(_) => false,
        Base::Alias(_) => false,
    }
}

fn is_main_head(head: &Head) -> bool
    ensures { result ≡ is_main_head head.now }
{
    is_int_base(&head.result.base) && head.result.stars == 0 && head.params.len() == 0
}

fn main_faults(alloc: Global, head: &Head, word: &Word) -> Result<Seq<Fault>, Memory>
    ensures { IfOk result (λ fs. fs ≡ main_faults head.now word.now) }
{
    let good = !is_main(word.text.as_slice()) || is_main_head(head);
    unless(alloc, good, Rule::Main, word.at)
}

/// The faults of a function that is declared again.
fn again_faults(
    alloc: Global,
    has_body: bool,
    heading: &Heading,
    older: &Signature,
    at: usize,
) -> Result<Seq<Fault>, Memory>
    ensures { IfOk result (λ fs. fs ≡ again_faults has_body heading.now older.now at) }
{
    let once = !(has_body && older.has_body);
    let mut faults = unless(alloc, once, Rule::Twice, at)?;
    let more = heading.differs(alloc, older, at)?;
    faults.append(more)?;
    Ok(faults)
}

fn no_value(
    alloc: Global,
    returns: Returned,
    of_main: bool,
    flow: Flow,
    at: usize,
) -> Result<Seq<Fault>, Memory>
    ensures { IfOk result (λ fs. fs ≡ no_value returns of_main flow at) }
{
    match returns {
        Returned::Nothing => Ok(Seq::new(alloc)),
        Returned::Value(_) => unless(alloc, of_main || !flow.ends, Rule::NoValue, at),
        Returned::Bad(_) => Ok(Seq::new(alloc)),
    }
}

fn result_or_none(returns: Returned) -> Option<Ty>
    ensures { result ≡ result_or_none returns }
{
    match returns {
        Returned::Nothing => None,
        Returned::Value(ty) => Some(ty),
        Returned::Bad(_) => None,
    }
}

/// The offset of a body's closing brace.
fn brace_of(body: &tree::Block) -> usize
    ensures { result ≡ brace_of body.now }
{
    body.end.saturating_sub(1)
}

fn fun_of(
    alloc: Global,
    head: &Head,
    returns: Returned,
    params: Seq<usize>,
    body: Block,
) -> Result<FunDef, Memory>
    ensures { IfOk result (λ d. d ≡ fun_of head.now returns params body) }
{
    Ok(FunDef {
        name: text_of(alloc, &head.result.name)?,
        result: result_or_none(returns),
        params,
        body,
        at: naming(&head.result),
    })
}

impl Walk {
    /// The first declaration of a function.
    fn new_function(
        &mut self,
        alloc: Global,
        word: &Word,
        has_body: bool,
        heading: Heading,
    ) -> Result<(), Memory>
        requires { found self.old.scope.names word.now.text ≡ None }
        ensures { OnOk result (self.new ≡ new_function word.now has_body heading self.old) }
    {
        match heading {
            Heading::Bad(fault) => {
                let meaning = Meaning::Bad(fault);
                self.add_name(alloc, word, Entry { meaning, depth: 0 })
            }
            Heading::Good(signature) => {
                let number = self.signatures.len();
                self.push_signature(Signature {
                    result: signature.result,
                    params: signature.params,
                    has_body,
                })?;
                let meaning = Meaning::Function(number);
                self.add_name(alloc, word, Entry { meaning, depth: 0 })
            }
        }
    }

    fn push_signature(&mut self, signature: Signature) -> Result<(), Memory>
        ensures { OnOk result (self.new ≡ with_signature signature self.old) }
    {
        self.signatures.push(signature)
    }

    fn note_again(
        &mut self,
        alloc: Global,
        word: &Word,
        has_body: bool,
        heading: &Heading,
        declared: usize,
    ) -> Result<(), Memory>
        ensures { OnOk result (self.new ≡ noted_again word.now has_body heading.now (slice_get self.old.signatures declared) self.old) }
    {
        match self.signatures.get(declared) {
            None => Ok(()),
            Some(older) => {
                let faults = again_faults(alloc, has_body, heading, older, word.at)?;
                self.note(faults)
            }
        }
    }

    /// The body of a function has come.
    fn set_body(&mut self, has_body: bool, declared: usize)
        ensures { self.new ≡ with_body has_body declared self.old }
    {
        if has_body && self.signatures.get(declared).is_some() {
            self.signatures.at_mut(declared).has_body = true;
        }
    }

    fn function_as(
        &mut self,
        alloc: Global,
        word: &Word,
        has_body: bool,
        heading: &Heading,
        meaning: Meaning,
    ) -> Result<(), Memory>
        ensures { OnOk result (self.new ≡ function_as word.now has_body heading.now meaning self.old) }
    {
        match meaning {
            Meaning::Function(declared) => {
                self.note_again(alloc, word, has_body, heading, declared)?;
                self.set_body(has_body, declared);
                Ok(())
            }
            Meaning::Bad(_) => Ok(()),
            Meaning::Variable(_, _) => self.note_one(alloc, Rule::Twice, word.at),
            Meaning::Alias(_) => self.note_one(alloc, Rule::Twice, word.at),
        }
    }

    fn function_by(
        &mut self,
        alloc: Global,
        word: &Word,
        has_body: bool,
        heading: Heading,
    ) -> Result<(), Memory>
        ensures { OnOk result (self.new ≡ function_by word.now has_body heading (found self.old.scope.names word.now.text) self.old) }
    {
        match self.scope.entry(word) {
            None => self.new_function(alloc, word, has_body, heading),
            Some(entry) => self.function_as(alloc, word, has_body, &heading, entry.meaning),
        }
    }

    fn function_named(
        &mut self,
        alloc: Global,
        head: &Head,
        has_body: bool,
        heading: Heading,
    ) -> Result<(), Memory>
        ensures { OnOk result (self.new ≡ function_named head.now has_body heading head.now.result.name self.old) }
    {
        match &head.result.name {
            None => self.note_one(alloc, Rule::Nameless, head.result.at),
            Some(word) => {
                let faults = main_faults(alloc, head, word)?;
                self.note(faults)?;
                self.function_by(alloc, word, has_body, heading)
            }
        }
    }

    fn result_written(&mut self, alloc: Global, spec: &Spec) -> Result<Returned, Memory>
        ensures { IfOk result (λ t. (self.new, t) ≡ in_scope (result_type spec.now) self.old) }
    {
        self.scope.result_type(alloc, spec)
    }

    fn params_written(&mut self, alloc: Global, specs: &[Spec]) -> Result<Seq<Written>, Memory>
        ensures { IfOk result (λ made. (self.new, made) ≡ in_scope (each spec_type specs.now) self.old) }
    {
        self.scope.spec_types(alloc, specs)
    }

    fn note_types(
        &mut self,
        alloc: Global,
        returns: Returned,
        written: &[Written],
    ) -> Result<(), Memory>
        ensures { OnOk result (self.new ≡ noted (result_faults returns ++ flat_map type_faults written.now) self.old) }
    {
        let mut faults = result_faults(alloc, returns)?;
        let more = all_faults(alloc, written)?;
        faults.append(more)?;
        self.note(faults)
    }

    /// A declaration of a function, with or without its body; what it returns.
    fn heading(&mut self, alloc: Global, head: &Head, has_body: bool) -> Result<Returned, Memory>
        ensures { IfOk result (λ t. (self.new, t) ≡ walked_heading head.now has_body self.old) }
    {
        let returns = self.result_written(alloc, &head.result)?;
        let written = self.params_written(alloc, head.params.as_slice())?;
        self.note_types(alloc, returns, written.as_slice())?;
        let heading = heading_of(alloc, returns, written.as_slice())?;
        self.function_named(alloc, head, has_body, heading)?;
        Ok(returns)
    }

    pub(crate) fn prototype(&mut self, alloc: Global, head: &Head) -> Result<(), Memory>
        ensures { OnOk result (self.new ≡ walked_proto head.now self.old) }
    {
        self.heading(alloc, head, false)?;
        Ok(())
    }

    fn param(&mut self, alloc: Global, function: usize, spec: &Spec) -> Result<usize, Memory>
        ensures { IfOk result (λ n. (self.new, n) ≡ walked_param function spec.now self.old) }
    {
        let number = self.vars.len();
        self.declare(alloc, spec, Home::Param(function), 1)?;
        Ok(number)
    }

    fn params(
        &mut self,
        alloc: Global,
        function: usize,
        specs: &[Spec],
    ) -> Result<Seq<usize>, Memory>
        ensures { IfOk result (λ made. (self.new, made) ≡ each (walked_param function) specs.now self.old) }
    {
        let mut made = Seq::new(alloc);
        for spec in specs {
            made.push(self.param(alloc, function, spec)?)?;
        }
        Ok(made)
    }

    fn slot(
        &mut self,
        alloc: Global,
        returns: Returned,
        function: usize,
        at: usize,
    ) -> Result<(), Memory>
        ensures { OnOk result (self.new ≡ with_slot returns function at self.old) }
    {
        match returns {
            Returned::Nothing => Ok(()),
            Returned::Value(ty) => self.push_var(VarDef {
                name: Seq::new(alloc),
                ty,
                home: Home::Result(function),
                at,
            }),
            Returned::Bad(_) => Ok(()),
        }
    }

    fn push_fun(&mut self, fun: FunDef) -> Result<(), Memory>
        ensures { OnOk result (self.new ≡ with_fun fun self.old) }
    {
        self.funs.push(fun)
    }

    /// What comes behind a body.
    fn end_body(
        &mut self,
        alloc: Global,
        body: &tree::Block,
        returns: Returned,
        names: usize,
        function: usize,
        fun: FunDef,
    ) -> Result<(), Memory>
        ensures { OnOk result (self.new ≡ ended body.now returns names function fun self.old) }
    {
        self.close(names);
        let at = brace_of(body);
        self.slot(alloc, returns, function, at)?;
        let of_main = is_main(fun.name.as_slice());
        let faults = no_value(alloc, returns, of_main, flow_of(&fun.body), at)?;
        self.note(faults)?;
        self.push_fun(fun)
    }

    /// A definition of a function.
    pub(crate) fn function(
        &mut self,
        alloc: Global,
        head: &Head,
        body: &tree::Block,
    ) -> Result<(), Memory>
        ensures { OnOk result (self.new ≡ walked_fun head.now body.now self.old) }
    {
        let function = self.funs.len();
        let returns = self.heading(alloc, head, true)?;
        let names = self.scope.names.len();
        let params = self.params(alloc, function, head.params.as_slice())?;
        let nesting = Nesting {
            function,
            returns,
            depth: 1,
            in_loop: false,
        };
        let made = self.block(alloc, nesting, body)?;
        let fun = fun_of(alloc, head, returns, params, made)?;
        self.end_body(alloc, body, returns, names, function, fun)?;
        Ok(())
    }
}
