//! For each literal the clauses that watch it.
use crate::code::Code;
use mf_list::Memory;
use std::alloc::Global;
use std::mem;

/// A clause, by its place in the arena, that is looked at when a literal becomes false, unless the other literal is true.
#[derive(Clone, Copy, Debug)]
pub struct Watch {
    pub at: u32,
    pub other: Code,
}

/// The lists, and how far a trail was followed by them.
#[derive(Debug, Drop)]
pub struct Watches {
    pub next: usize,
    lists: Vec<Vec<Watch>>,
    alloc: Global,
}

impl Watches {
    pub fn new(alloc: Global, vars: usize) -> Result<Watches, Memory> {
        let mut lists = Vec::new(alloc);
        for _ in 0..vars {
            lists.push(Vec::new(alloc))?;
            lists.push(Vec::new(alloc))?;
        }
        Ok(Watches {
            next: 0,
            lists,
            alloc,
        })
    }

    pub fn add(&mut self, code: Code, watch: Watch) -> Result<(), Memory> {
        if let Some(list) = self.lists.get_mut(code.place()) {
            list.push(watch)?;
        }
        Ok(())
    }

    /// The list of a literal, which is empty from then on.
    pub fn take(&mut self, code: Code) -> Vec<Watch> {
        match self.lists.get_mut(code.place()) {
            Some(list) => mem::replace(list, Vec::new(self.alloc)),
            None => Vec::new(self.alloc),
        }
    }

    pub fn put(&mut self, code: Code, list: Vec<Watch>) {
        if let Some(old) = self.lists.get_mut(code.place()) {
            *old = list;
        }
    }

    pub fn clear(&mut self) {
        for list in self.lists.iter_mut() {
            list.clear();
        }
    }
}
