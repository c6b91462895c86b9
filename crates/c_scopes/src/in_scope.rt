// The variables in scope at a place of the text, and the scopes around it.
ghost use Rattle.std.specs.Prelude.{◌≡◌, [], take, OnOk};
ghost use Rattle.c_scopes.specs.Turns.{scope_of, turned};

use crate::walk::Turn;
use mf_list::{Memory, Seq};
use std::alloc::Global;

/// The variables in scope, the innermost last, and of each scope how many were visible before it.
#[derive(Debug, Drop)]
pub struct InScope {
    pub vars: Seq<usize>,
    pub outer: Seq<usize>,
}

fn forget(vars: &mut Seq<usize>, n: usize)
    ensures { vars.new ≡ take n vars.old }
{
    while n < vars.len() {
        vars.pop();
    }
}

impl InScope {
    /// Nothing is in scope.
    pub fn new(alloc: Global) -> InScope
        ensures { result ≡ scope_of [] [] }
    {
        InScope {
            vars: Seq::new(alloc),
            outer: Seq::new(alloc),
        }
    }

    fn open(&mut self) -> Result<(), Memory>
        ensures { OnOk result (self.new ≡ turned Turn.Open self.old) }
    {
        self.outer.push(self.vars.len())
    }

    fn close(&mut self)
        ensures { self.new ≡ turned Turn.Close self.old }
    {
        if let Some(n) = self.outer.pop() {
            forget(&mut self.vars, n);
        }
    }

    /// Goes past a turn.
    pub fn turn(&mut self, turn: Turn) -> Result<(), Memory>
        ensures { OnOk result (self.new ≡ turned turn self.old) }
    {
        match turn {
            Turn::Open => self.open(),
            Turn::See(var) => self.vars.push(var),
            Turn::Gap(_) => Ok(()),
            Turn::Close => {
                self.close();
                Ok(())
            }
        }
    }
}
