//! The literals that hold at a moment of the search, in the order in which they came to hold.

use crate::Memory;
use crate::cells::{narrow, read, write};
use crate::code::Code;
use std::alloc::Global;

#[derive(Clone, Copy, Debug, PartialEq, Eq)]
pub enum Truth {
    Unknown,
    True,
    False,
}

/// When and why a literal came to hold.
#[derive(Clone, Copy, Debug)]
pub struct Cause {
    /// How many decisions stood before it, itself included.
    pub level: u32,
    /// The number of the clause that implied it, or [`DECISION`].
    pub reason: u32,
}

/// The reason of a literal that no clause implied.
pub const DECISION: u32 = u32::MAX;

#[derive(Drop)]
pub struct Trail {
    values: Vec<Truth>,
    causes: Vec<Cause>,
    places: Vec<u32>,
    codes: Vec<Code>,
    starts: Vec<usize>,
    next: usize,
}

impl Trail {
    pub fn new(alloc: Global, vars: usize) -> Result<Trail, Memory> {
        Ok(Trail {
            values: vec![in alloc; Truth::Unknown; vars.wrapping_mul(2)]?,
            causes: vec![in alloc; Cause {
                level: 0,
                reason: DECISION
            }; vars]?,
            places: vec![in alloc; 0; vars]?,
            codes: Vec::new(alloc),
            starts: Vec::new(alloc),
            next: 0,
        })
    }

    pub fn value(&self, code: Code) -> Truth {
        read(&self.values, code.index(), Truth::Unknown)
    }

    pub fn cause(&self, var: usize) -> Cause {
        read(
            &self.causes,
            var,
            Cause {
                level: 0,
                reason: DECISION,
            },
        )
    }

    pub fn set_reason(&mut self, var: usize, reason: u32) {
        write(&mut self.causes, var, Cause { level: 0, reason });
    }

    /// How many decisions stand.
    pub fn level(&self) -> u32 {
        narrow(self.starts.len())
    }

    pub fn codes(&self) -> &[Code] {
        self.codes.as_slice()
    }

    /// The next literal whose consequences are not drawn yet.
    pub fn next(&mut self) -> Option<Code> {
        let code = *self.codes.get(self.next)?;
        self.next = self.next.wrapping_add(1);
        Some(code)
    }

    /// Where in the trail the literal of a variable stands.
    pub fn place(&self, var: usize) -> usize {
        read(&self.places, var, 0) as usize
    }

    pub fn assign(&mut self, code: Code, reason: u32) -> Result<(), Memory> {
        let place = narrow(self.codes.len());
        self.codes.push(code)?;
        write(&mut self.places, code.var(), place);
        let level = self.level();
        write(&mut self.values, code.index(), Truth::True);
        write(&mut self.values, code.opposite().index(), Truth::False);
        write(&mut self.causes, code.var(), Cause { level, reason });
        Ok(())
    }

    pub fn open_level(&mut self) -> Result<(), Memory> {
        let start = self.codes.len();
        self.starts.push(start)?;
        Ok(())
    }

    /// Takes back the newest literal above the level, if there is one.
    pub fn retract(&mut self, level: u32) -> Option<Code> {
        let start = *self.starts.get(level as usize)?;
        if self.codes.len() <= start {
            return None;
        }
        let code = self.codes.pop()?;
        write(&mut self.values, code.index(), Truth::Unknown);
        write(&mut self.values, code.opposite().index(), Truth::Unknown);
        Some(code)
    }

    /// Closes the levels above the given one, whose literals were taken back.
    pub fn close_levels(&mut self, level: u32) {
        self.starts.truncate(level as usize);
        self.next = self.codes.len();
    }
}
