// Calls (C99 6.5.2.2, 7.19.6.3).
ghost use Rattle.std.specs.Prelude.{◌≡◌, length, replicate, IfOk, OnOk};
ghost use Rattle.c_tree.specs.declared.program.Ty.TheVariants as ty;
ghost use Rattle.c_types.specs.Calls.{arguments, asked_for, callee_as, callee_defined, callee_of, counted, directives, is_main, next_directive, printed, printed_args, put_char, refused_call, result_or_nothing, user_by, user_call, user_called, walked_call, word_call};
ghost use Rattle.c_types.specs.Calls.{requested};
ghost use Rattle.c_types.specs.Scopes.{in_scope};

use crate::arguments::miscounted;
use crate::faults::{Fault, Rule};
use crate::judged::{Called, Callee, Checked, Directives, Gives, Judged};
use crate::scope::{Meaning, Scope, Signature, Walk};
use crate::untyped::unless_broken;
use c_tree::tree::{Arg, Spec, Word};
use c_tree::{Call, Expr, Ty, tree};
use mf_list::{Memory, Seq};
use std::alloc::{AllocError, Global};

pub(crate) fn is_main(name: &[u8]) -> bool
    ensures { result ≡ is_main name.now }
{
    name == b"main".as_slice()
}

fn result_or_nothing(of: Option<Ty>) -> Gives
    ensures { result ≡ result_or_nothing of }
{
    match of {
        None => Gives::Nothing,
        Some(ty) => Gives::Result(ty),
    }
}

/// What a call of a declared function calls, by the number of its definition.
fn callee_defined(word: &Word, declared: usize, number: Option<usize>) -> Callee
    ensures { result ≡ callee_defined word.now declared number }
{
    match number {
        None => Callee::Refused(Fault {
            at: word.at,
            rule: Rule::Unknown,
        }),
        Some(number) => {
            if is_main(word.text.as_slice()) {
                Callee::Refused(Fault {
                    at: word.at,
                    rule: Rule::Main,
                })
            } else {
                Callee::Defined(number, declared)
            }
        }
    }
}

/// A byte of the text of a `printf`.
fn next_directive(so_far: Directives, byte: u8) -> Result<Directives, Memory>
    ensures { IfOk result (λ d. d ≡ next_directive so_far byte) }
{
    match so_far {
        Directives::Plain(count) => {
            if byte == b'%' {
                Ok(Directives::Open(count))
            } else {
                Ok(Directives::Plain(count))
            }
        }
        Directives::Open(count) => {
            if byte == b'd' {
                match count.checked_add(1) {
                    Some(more) => Ok(Directives::Plain(more)),
                    None => Err(AllocError),
                }
            } else if byte == b'%' {
                Ok(Directives::Plain(count))
            } else {
                Ok(Directives::Other)
            }
        }
        Directives::Other => Ok(Directives::Other),
    }
}

fn asked_for(directives: Directives) -> Option<usize>
    ensures { result ≡ asked_for directives }
{
    match directives {
        Directives::Plain(count) => Some(count),
        Directives::Open(_) => None,
        Directives::Other => None,
    }
}

/// How many values the text of a `printf` asks for, where it has no other directive.
fn directives(text: &[u8]) -> Result<Option<usize>, Memory>
    ensures { IfOk result (λ n. n ≡ directives text.now) }
{
    let mut so_far = Directives::Plain(0);
    for byte in text {
        so_far = next_directive(so_far, *byte)?;
    }
    Ok(asked_for(so_far))
}

fn word_call(call: Call, at: usize, faults: Seq<Fault>) -> Judged<Called>
    ensures { result ≡ word_call call at faults }
{
    let gives = Gives::Nothing;
    unless_broken(Called { call, gives, at }, faults)
}

fn put_char(at: usize, value: Checked<Expr>) -> Judged<Called>
    ensures { result ≡ put_char at value }
{
    word_call(Call::Putchar(value.made, at), at, value.faults)
}

impl Scope {
    /// A call that is refused whatever its arguments are.
    fn refused_call(
        &self,
        alloc: Global,
        fault: Fault,
        args: &[Arg],
    ) -> Result<Judged<Called>, Memory>
        ensures { IfOk result (λ j. j ≡ refused_call self.now fault args.now) }
    {
        let Checked { faults: more, .. } = self.arguments(alloc, &[], args)?;
        let mut faults = Seq::new(alloc);
        faults.push(fault)?;
        faults.append(more)?;
        Ok(Judged::Broken(faults))
    }

    fn printed_args(
        &self,
        alloc: Global,
        text: &[u8],
        args: &[Arg],
        at: usize,
        close: usize,
        wanted: usize,
    ) -> Result<Judged<Called>, Memory>
        ensures { IfOk result (λ j. j ≡ printed_args text.now at close wanted (length args.now) (arguments self.now (replicate wanted ty.Int) args.now)) }
    {
        let params = vec![in alloc; Ty::Int; wanted]?;
        let Checked { made, faults } = self.arguments(alloc, params.as_slice(), args)?;
        let faults = miscounted(alloc, faults, wanted, args.len(), close)?;
        let text = Seq::from_slice(alloc, text)?;
        Ok(word_call(Call::Printf(text, made, at), at, faults))
    }

    /// A call of `printf`.
    fn printed(
        &self,
        alloc: Global,
        text: &[u8],
        text_at: usize,
        args: &[Arg],
        at: usize,
        close: usize,
    ) -> Result<Judged<Called>, Memory>
        ensures { IfOk result (λ j. j ≡ printed self.now text.now text_at args.now at close) }
    {
        match directives(text)? {
            None => {
                let fault = Fault {
                    at: text_at,
                    rule: Rule::Directive,
                };
                self.refused_call(alloc, fault, args)
            }
            Some(wanted) => self.printed_args(alloc, text, args, at, close, wanted),
        }
    }
}

impl Walk {
    fn callee_as(&self, word: &Word, meaning: Meaning) -> Callee
        ensures { result ≡ callee_as self.now word.now meaning }
    {
        let unknown = Fault {
            at: word.at,
            rule: Rule::Unknown,
        };
        match meaning {
            Meaning::Function(declared) => {
                let number = self.definitions.place(word.text.as_slice());
                callee_defined(word, declared, number)
            }
            Meaning::Bad(fault) => Callee::Refused(fault),
            Meaning::Variable(_, _) => Callee::Refused(unknown),
            Meaning::Alias(_) => Callee::Refused(unknown),
        }
    }

    /// What a call calls.
    fn callee_of(&self, word: &Word) -> Callee
        ensures { result ≡ callee_of self.now word.now }
    {
        match self.scope.entry(word) {
            None => Callee::Refused(Fault {
                at: word.at,
                rule: Rule::Unknown,
            }),
            Some(entry) => self.callee_as(word, entry.meaning),
        }
    }

    fn user_called(
        &self,
        alloc: Global,
        word: &Word,
        number: usize,
        signature: &Signature,
        args: &[Arg],
        close: usize,
    ) -> Result<Judged<Called>, Memory>
        ensures { IfOk result (λ j. j ≡ user_called self.now word.now number signature.now args.now close (arguments self.now.scope signature.now.params args.now)) }
    {
        let params = signature.params.as_slice();
        let Checked { made, faults } = self.scope.arguments(alloc, params, args)?;
        let faults = miscounted(alloc, faults, params.len(), args.len(), close)?;
        let called = Called {
            call: Call::User(self.calls, number, made, word.at),
            gives: result_or_nothing(signature.result),
            at: word.at,
        };
        Ok(unless_broken(called, faults))
    }

    fn user_by(
        &self,
        alloc: Global,
        word: &Word,
        args: &[Arg],
        close: usize,
        callee: Callee,
    ) -> Result<Judged<Called>, Memory>
        ensures { IfOk result (λ j. j ≡ user_by self.now word.now args.now close callee) }
    {
        match callee {
            Callee::Refused(fault) => self.scope.refused_call(alloc, fault, args),
            Callee::Defined(number, declared) => match self.signatures.get(declared) {
                None => {
                    let fault = Fault {
                        at: word.at,
                        rule: Rule::Unknown,
                    };
                    self.scope.refused_call(alloc, fault, args)
                }
                Some(signature) => self.user_called(alloc, word, number, signature, args, close),
            },
        }
    }

    fn user_call(
        &self,
        alloc: Global,
        word: &Word,
        args: &[Arg],
        close: usize,
    ) -> Result<Judged<Called>, Memory>
        ensures { IfOk result (λ j. j ≡ user_call self.now word.now args.now close) }
    {
        self.user_by(alloc, word, args, close, self.callee_of(word))
    }

    /// A good call takes the next number.
    fn count(&mut self, called: &Judged<Called>) -> Result<(), Memory>
        ensures { OnOk result (self.new ≡ counted called.now self.old) }
    {
        match called {
            Judged::Broken(_) => Ok(()),
            Judged::Typed(_) => match self.calls.checked_add(1) {
                None => Err(AllocError),
                Some(next) => {
                    self.calls = next;
                    Ok(())
                }
            },
        }
    }

    fn requested(
        &mut self,
        alloc: Global,
        cast: &Option<Spec>,
        size: &tree::Size,
        at: usize,
    ) -> Result<Judged<Called>, Memory>
        ensures { IfOk result (λ j. (self.new, j) ≡ in_scope (requested cast.now size.now at) self.old) }
    {
        self.scope.requested(alloc, cast, size, at)
    }

    /// A call with what it gives; a good call of a user's function takes the next number.
    pub(crate) fn call(
        &mut self,
        alloc: Global,
        call: &tree::Call,
    ) -> Result<Judged<Called>, Memory>
        ensures { IfOk result (λ j. (self.new, j) ≡ walked_call call.now self.old) }
    {
        match call {
            tree::Call::User(word, args, close) => {
                let called = self.user_call(alloc, word, args.as_slice(), *close)?;
                self.count(&called)?;
                Ok(called)
            }
            tree::Call::Malloc(cast, size, at) => self.requested(alloc, cast, size, *at),
            tree::Call::Getchar(at) => Ok(Judged::Typed(Called {
                call: Call::Getchar(*at),
                gives: Gives::Result(Ty::Int),
                at: *at,
            })),
            tree::Call::Putchar(arg, at) => {
                let value = self.scope.argument(alloc, Some(Ty::Int), arg)?;
                Ok(put_char(*at, value))
            }
            tree::Call::Printf(text, text_at, args, at, close) => {
                let text = text.as_slice();
                self.scope
                    .printed(alloc, text, *text_at, args.as_slice(), *at, *close)
            }
        }
    }
}
