// The measure of nesting, and the first token that is too deep.
ghost use Rattle.std.specs.Prelude.{◌≡◌, ◌+◌, ◌<◌, ◌≤◌, ◌^◌, false, sum, IfOk, OnOk, IsTrue};
ghost use Rattle.c_lexer.specs.Nest.{Nesting, at_first, nest, without_last, with_last, nesting_after, deepest, first_deep};

use crate::Token;
use crate::role::{Role, else_next, is_else, role_of};
use mf_list::{Memory, Seq};
use std::alloc::Global;
use std::marker::Model;

/// The nest at which a text is still read.
const DEEPEST: usize = 256;

/// The measure of nesting, with the sum of its outer counts.
#[derive(Debug, Drop)]
struct Nest {
    outer: Seq<usize>,
    outer_sum: usize,
    last: usize,
    brackets: usize,
    parts: usize,
}

impl Model for Nest {
    ghost Value = { Nesting };

    ghost view = { λ n. record { outer = n.outer; last = n.last; brackets = n.brackets; parts = n.parts } };

    ghost invariant = { λ n. n.outer_sum ≡ sum n.outer };
}

impl Nest {
    fn new(alloc: Global) -> Nest
        ensures { result ≡ at_first }
    {
        Nest {
            outer: Seq::new(alloc),
            outer_sum: 0,
            last: 0,
            brackets: 0,
            parts: 0,
        }
    }

    fn depth(&self) -> usize
        requires { nest self.now < 2 ^ 64 }
        ensures { result ≡ nest self.now }
    {
        self.outer.len() + (self.outer_sum + self.last) + self.parts
    }

    /// A count 0 more.
    fn open(&mut self) -> Result<(), Memory>
        requires { nest self.old < 2 ^ 64 }
        ensures { OnOk result (self.new ≡ nesting_after Role.Opens false self.old) }
    {
        self.outer.push(self.last)?;
        self.outer_sum += self.last;
        self.last = 0;
        self.brackets = 0;
        self.parts = 0;
        Ok(())
    }

    /// The last count taken off, unless it is the only one.
    fn take_last(&mut self)
        ensures { self.new ≡ without_last self.old }
    {
        if let Some(last) = self.outer.pop() {
            self.outer_sum -= last;
            self.last = last;
        }
    }

    fn set_last(&mut self, stays: bool)
        ensures { self.new ≡ with_last stays self.old }
    {
        if !stays {
            self.last = 0;
        }
    }

    /// Goes past a token with this role, directly before `else` or not.
    fn apply(&mut self, role: Role, before_else: bool) -> Result<(), Memory>
        requires shallow { nest self.old ≤ deepest }
        requires few { self.old.brackets < 2 ^ 63 }
        ensures { OnOk result (self.new ≡ nesting_after role before_else self.old) }
    {
        match role {
            Role::Opens => self.open()?,
            Role::Closes => {
                self.take_last();
                self.brackets = 0;
                self.parts = 0;
                self.set_last(before_else);
            }
            Role::Ends => {
                let stays = before_else || self.brackets != 0;
                self.parts = 0;
                self.set_last(stays);
            }
            Role::Counts => self.last += 1,
            Role::Bracket => {
                self.brackets += 1;
                self.parts += 1;
            }
            Role::CloseBracket => self.brackets = self.brackets.saturating_sub(1),
            Role::Part => self.parts += 1,
            Role::Nothing => {}
        }
        Ok(())
    }
}

/// The start of the first token whose nest is above the greatest.
pub fn first_deep(alloc: Global, tokens: &[Token]) -> Result<Option<usize>, Memory>
    ensures { IfOk result (λ deep. deep ≡ first_deep false at_first tokens.now) }
{
    let mut nest = Nest::new(alloc);
    let mut after_else = false;
    let mut left = tokens;
    while let [token, rest @ ..] = left {
        nest.apply(role_of(after_else, &token.kind, rest), else_next(rest))?;
        if nest.depth() > DEEPEST {
            return Ok(Some(token.start));
        }
        after_else = is_else(&token.kind);
        left = rest;
    }
    Ok(None)
}
