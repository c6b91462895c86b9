//! The clauses as propagation visits them, one behind the other in one memory. Nothing is believed of them: what
//! they let follow is looked up in the clauses themselves.
use crate::Lit;
use crate::code::Code;
use crate::facts::Facts;
use mf_list::Memory;
use std::alloc::Global;

/// The words before the literals of a clause: its number, and how many literals it has.
const HEAD: usize = 2;

/// In each clause the first two literals are watched: as long as it can be, they are not false.
#[derive(Debug, Drop)]
pub struct Arena {
    words: Vec<u32>,
}

/// What a look at a clause comes to of which a watched literal became false: the other one is true, or
/// another literal takes the place of the false one, or all but the other one are false.
#[derive(Clone, Copy, Debug)]
pub enum Sight {
    Rests(Code),
    Moves(Code, Code),
    Spent(Code),
}

/// A clause by its place, and its watched literals.
#[derive(Clone, Copy, Debug)]
pub struct Watched {
    pub at: u32,
    pub clause: usize,
    pub first: Code,
    pub second: Code,
    pub next: usize,
}

fn narrow(number: usize) -> u32 {
    u32::try_from(number).unwrap_or(u32::MAX)
}

impl Arena {
    pub fn new(alloc: Global) -> Arena {
        Arena {
            words: Vec::new(alloc),
        }
    }

    pub fn len(&self) -> usize {
        self.words.len()
    }

    fn word(&self, at: usize) -> u32 {
        match self.words.get(at) {
            Some(word) => *word,
            None => 0,
        }
    }

    fn code(&self, at: usize) -> Code {
        Code::from_word(self.word(at))
    }

    fn set(&mut self, at: usize, word: u32) {
        if let Some(old) = self.words.get_mut(at) {
            *old = word;
        }
    }

    /// Puts a clause behind the others, with two of its literals before the rest.
    pub fn add(
        &mut self,
        clause: usize,
        lits: &[Lit],
        first: Lit,
        second: Lit,
    ) -> Result<(), Memory> {
        let start = self.words.len();
        self.words.push(narrow(clause))?;
        self.words.push(0)?;
        self.words.push(Code::of(first).word())?;
        self.words.push(Code::of(second).word())?;
        for lit in lits {
            if *lit != first && *lit != second {
                self.words.push(Code::of(*lit).word())?;
            }
        }
        let length = self.words.len().wrapping_sub(start).wrapping_sub(HEAD);
        self.set(start.wrapping_add(1), narrow(length));
        Ok(())
    }

    /// The clause at a place.
    pub fn watched(&self, at: usize) -> Watched {
        let start = at.wrapping_add(HEAD);
        Watched {
            at: narrow(at),
            clause: self.word(at) as usize,
            first: self.code(start),
            second: self.code(start.wrapping_add(1)),
            next: start.wrapping_add(self.word(at.wrapping_add(1)) as usize),
        }
    }

    /// The number of the clause at a place.
    pub fn clause(&self, at: u32) -> usize {
        self.word(at as usize) as usize
    }

    /// Makes the literal the second of the clause whose literals start here, and answers the first.
    fn put_second(&mut self, start: usize, out: Code) -> Code {
        let first = self.code(start);
        if first != out {
            return first;
        }
        let second = self.code(start.wrapping_add(1));
        self.set(start, second.word());
        self.set(start.wrapping_add(1), out.word());
        second
    }

    /// The place of a literal that is not false, behind the first two.
    fn free_behind(&self, facts: &Facts, start: usize, length: usize) -> Option<usize> {
        for offset in 2..length {
            let at = start.wrapping_add(offset);
            if !facts.is_false(self.code(at).lit()) {
                return Some(at);
            }
        }
        None
    }

    /// Looks at the clause at a place, of which this watched literal became false.
    pub fn look(&mut self, facts: &Facts, at: u32, out: Code) -> Sight {
        let at = at as usize;
        let length = self.word(at.wrapping_add(1)) as usize;
        let start = at.wrapping_add(HEAD);
        let other = self.put_second(start, out);
        if facts.is_true(other.lit()) {
            return Sight::Rests(other);
        }
        let Some(free) = self.free_behind(facts, start, length) else {
            return Sight::Spent(other);
        };
        let to = self.code(free);
        self.set(free, out.word());
        self.set(start.wrapping_add(1), to.word());
        Sight::Moves(other, to)
    }
}
