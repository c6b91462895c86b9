//! The literals of the clause that a conflict leads to, while it is resolved.
ghost use Rattle.std.specs.Prelude.{◌≡◌, ◌≢◌, ◌↔◌, [], Contains, OnOk, IsTrue};
ghost use Rattle.sat_core.specs.Learning.{IsWithin};
ghost use Rattle.sat_log.specs.declared.problem.Lit.{Lit};

use crate::Memory;
use crate::cells::{narrow, read, write};
use sat_log::Lit;
use std::alloc::Global;

/// A set of literals. `places` says where in the list the newest literal of a variable stands, so that a look-up needs
/// no search, and forgetting all literals no pass.
#[derive(Drop)]
pub struct Marks {
    pub list: Vec<Lit>,
    places: Vec<u32>,
}

impl Marks {
    pub fn new(alloc: Global, vars: usize) -> Result<Marks, Memory> {
        Ok(Marks {
            list: Vec::new(alloc),
            places: vec![in alloc; 0; vars]?,
        })
    }

    fn place(&self, lit: Lit) -> usize {
        read(&self.places, lit.var, 0) as usize
    }

    pub fn contains(&self, lit: Lit) -> bool
        ensures { IsTrue result → Contains self.now.list.items lit }
    {
        match self.list.get(self.place(lit)) {
            Some(marked) => *marked == lit,
            None => false,
        }
    }

    /// Adds the literal, and answers whether it is new.
    pub fn insert(&mut self, lit: Lit) -> Result<bool, Memory>
        ensures kept { IsWithin self.old.list.items self.new.list.items }
        ensures added { OnOk result (Contains self.new.list.items lit) }
    {
        if self.contains(lit) {
            return Ok(false);
        }
        let place = narrow(self.list.len());
        self.list.push(lit)?;
        write(&mut self.places, lit.var, place);
        Ok(true)
    }

    /// Takes the literal out, if its variable's place leads to it.
    pub fn remove(&mut self, lit: Lit)
        ensures { (l : Lit) → Contains self.old.list.items l → l ≢ lit → Contains self.new.list.items l }
    {
        let place = self.place(lit);
        if place >= self.list.len() || self.list[place] != lit {
            return;
        }
        self.list.swap_remove(place);
        if place < self.list.len() {
            let moved = self.list[place].var;
            write(&mut self.places, moved, narrow(place));
        }
    }

    pub fn is_empty(&self) -> bool
        ensures { IsTrue result ↔ (self.now.list.items ≡ []) }
    {
        self.list.is_empty()
    }

    pub fn clear(&mut self) {
        self.list.clear();
    }
}
