//! The clauses as the search visits them: each by two of its literals, once one of these is false.

use crate::Memory;
use crate::cells::{narrow, read, write};
use crate::code::Code;
use std::alloc::Global;
use std::mem;

/// The other literal of a clause of two, and the clause's number.
#[derive(Clone, Copy, Debug)]
pub struct Pair {
    pub other: Code,
    pub clause: u32,
}

/// A longer clause, by its place in the arena, and a literal of it: where that is true, the clause needs no visit.
#[derive(Clone, Copy, Debug)]
pub struct Watch {
    pub at: u32,
    pub blocker: Code,
}

/// The words before the literals of a clause in the arena: its number and its length, which is 0 once it is dropped.
const HEAD: usize = 2;

/// Each list has an element for each literal, with the clauses to visit once that literal is true.
#[derive(Drop)]
pub struct Watches {
    alloc: Global,
    arena: Vec<u32>,
    pairs: Vec<Vec<Pair>>,
    longs: Vec<Vec<Watch>>,
}

/// A clause in the arena.
#[derive(Clone, Copy, Debug)]
pub struct Place {
    pub clause: u32,
    pub start: usize,
    pub length: usize,
}

impl Watches {
    pub fn new(alloc: Global, vars: usize) -> Result<Watches, Memory> {
        let mut pairs = Vec::new(alloc);
        let mut longs = Vec::new(alloc);
        for _ in 0..vars.wrapping_mul(2) {
            pairs.push(Vec::new(alloc))?;
            longs.push(Vec::new(alloc))?;
        }
        Ok(Watches {
            alloc,
            arena: Vec::new(alloc),
            pairs,
            longs,
        })
    }

    /// The clauses of two literals of which one is false now that `code` is true.
    pub fn pairs(&self, code: Code) -> &[Pair] {
        match self.pairs.get(code.index()) {
            Some(pairs) => pairs.as_slice(),
            None => &[],
        }
    }

    /// Takes the list of `code` out, to be put back.
    pub fn take(&mut self, code: Code) -> Vec<Watch> {
        match self.longs.get_mut(code.index()) {
            Some(list) => mem::replace(list, Vec::new(self.alloc)),
            None => Vec::new(self.alloc),
        }
    }

    pub fn put_back(&mut self, code: Code, watches: Vec<Watch>) {
        if let Some(list) = self.longs.get_mut(code.index()) {
            *list = watches;
        }
    }

    pub fn watch(&mut self, code: Code, watch: Watch) -> Result<(), Memory> {
        if let Some(list) = self.longs.get_mut(code.index()) {
            list.push(watch)?;
        }
        Ok(())
    }

    pub fn add_pair(&mut self, one: Code, other: Code, clause: u32) -> Result<(), Memory> {
        if let Some(list) = self.pairs.get_mut(one.opposite().index()) {
            list.push(Pair { other, clause })?;
        }
        if let Some(list) = self.pairs.get_mut(other.opposite().index()) {
            list.push(Pair { other: one, clause })?;
        }
        Ok(())
    }

    /// Adds a clause of three literals or more, to be visited by the first two, and answers its place.
    pub fn add_long(&mut self, codes: &[Code], clause: u32) -> Result<u32, Memory> {
        let at = narrow(self.arena.len());
        self.arena.push(clause)?;
        self.arena.push(narrow(codes.len()))?;
        for code in codes {
            self.arena.push(code.word())?;
        }
        if let [one, other, ..] = codes {
            self.watch(
                one.opposite(),
                Watch {
                    at,
                    blocker: *other,
                },
            )?;
            self.watch(other.opposite(), Watch { at, blocker: *one })?;
        }
        Ok(at)
    }

    /// Drops a clause: its watches go at their next visit.
    pub fn drop_long(&mut self, at: u32) {
        write(&mut self.arena, (at as usize).wrapping_add(1), 0);
    }

    pub fn place(&self, at: u32) -> Place {
        let at = at as usize;
        Place {
            clause: read(&self.arena, at, 0),
            start: at.wrapping_add(HEAD),
            length: read(&self.arena, at.wrapping_add(1), 0) as usize,
        }
    }

    pub fn code(&self, at: usize) -> Code {
        Code::from_word(read(&self.arena, at, 0))
    }

    pub fn set_code(&mut self, at: usize, code: Code) {
        write(&mut self.arena, at, code.word());
    }
}
