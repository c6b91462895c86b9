//! The search: propagation, decisions, and what is kept between them.

use crate::Memory;
use crate::cells::{narrow, read, write};
use crate::code::Code;
use crate::minimization::Minimizer;
use crate::order::Order;
use crate::pace::Pace;
use crate::trail::{DECISION, Trail, Truth};
use crate::watches::Watches;
use sat_log::Lit;
use std::alloc::Global;

/// A learned clause of three literals or more: its place in the arena, and how many levels its literals had.
#[derive(Clone, Copy, Debug)]
struct Learned {
    at: u32,
    levels: u32,
}

/// Learned clauses of so few levels are never dropped.
const KEPT_LEVELS: u32 = 2;

#[derive(Drop)]
pub struct Search {
    alloc: Global,
    pub trail: Trail,
    pub watches: Watches,
    pub order: Order,
    pub minimizer: Minimizer,
    pub pace: Pace,
    phases: Vec<bool>,
    learned: Vec<Learned>,
    /// The literals of a clause on its way to the watches.
    codes: Vec<Code>,
    /// The literals of that clause have the current stamp.
    stamps: Vec<u64>,
    stamp: u64,
    /// So many literals of the trail stand in clauses of one literal.
    pub settled: usize,
}

impl Search {
    pub fn new(alloc: Global, vars: usize, hint: &[bool]) -> Result<Search, Memory> {
        Ok(Search {
            alloc,
            trail: Trail::new(alloc, vars)?,
            watches: Watches::new(alloc, vars)?,
            order: Order::new(alloc, vars)?,
            minimizer: Minimizer::new(alloc, vars)?,
            pace: Pace::new(),
            phases: Vec::from_slice(alloc, hint)?,
            learned: Vec::new(alloc),
            codes: Vec::new(alloc),
            stamps: vec![in alloc; 0; vars.wrapping_mul(2)]?,
            stamp: 0,
            settled: 0,
        })
    }

    /// Takes in a clause of the problem. It answers the clause's number where all its literals are false.
    pub fn add_given(&mut self, clause: &[Lit], number: u32) -> Result<Option<u32>, Memory> {
        if !self.put_codes(clause)? {
            return Ok(None);
        }
        self.watch_codes(number)?;
        let only = match self.codes.as_slice() {
            [] => return Ok(Some(number)),
            [only] => *only,
            _ => return Ok(None),
        };
        self.assign_fixed(only, number)
    }

    /// Puts the literals of a clause into `codes`, each once. It answers false where a literal and its opposite are
    /// there.
    fn put_codes(&mut self, clause: &[Lit]) -> Result<bool, Memory> {
        self.codes.clear();
        self.stamp = self.stamp.wrapping_add(1);
        for lit in clause {
            let code = Code::of(*lit);
            if read(&self.stamps, code.opposite().index(), 0) == self.stamp {
                return Ok(false);
            }
            if read(&self.stamps, code.index(), 0) != self.stamp {
                write(&mut self.stamps, code.index(), self.stamp);
                self.codes.push(code)?;
            }
        }
        Ok(true)
    }

    fn assign_fixed(&mut self, code: Code, number: u32) -> Result<Option<u32>, Memory> {
        match self.trail.value(code) {
            Truth::True => Ok(None),
            Truth::False => Ok(Some(number)),
            Truth::Unknown => {
                self.trail.assign(code, number)?;
                Ok(None)
            }
        }
    }

    /// Watches the clause whose literals are in `codes`, and answers its place if it has three or more.
    fn watch_codes(&mut self, number: u32) -> Result<Option<u32>, Memory> {
        match self.codes.as_slice() {
            [] | [_] => Ok(None),
            [one, other] => {
                self.watches.add_pair(*one, *other, number)?;
                Ok(None)
            }
            codes => {
                let at = self.watches.add_long(codes, number)?;
                Ok(Some(at))
            }
        }
    }

    /// Goes back to the level before which a learned clause of the marked literals has one open literal, the opposite
    /// of `point`, and makes that true by the clause, which has the given number.
    pub fn add_learned(
        &mut self,
        marked: &[Lit],
        point: Code,
        number: u32,
        levels: u32,
    ) -> Result<(), Memory> {
        let level = self.order_learned(marked, point)?;
        self.back_to(level)?;
        if let Some(at) = self.watch_codes(number)? {
            self.learned.push(Learned { at, levels })?;
        }
        self.trail.assign(point.opposite(), number)
    }

    /// Puts the learned clause into `codes`, the open literal first and then one of the level to go back to.
    fn order_learned(&mut self, marked: &[Lit], point: Code) -> Result<u32, Memory> {
        self.codes.clear();
        self.codes.push(point.opposite())?;
        let mut level = 0;
        for lit in marked {
            let code = Code::of(*lit);
            if code == point.opposite() {
                continue;
            }
            self.codes.push(code)?;
            let of_code = self.trail.cause(lit.var).level;
            if of_code > level {
                level = of_code;
                let last = self.codes.len().wrapping_sub(1);
                let second = read(&self.codes, 1, code);
                write(&mut self.codes, last, second);
                write(&mut self.codes, 1, code);
            }
        }
        Ok(level)
    }

    /// Takes back all literals above the level.
    pub fn back_to(&mut self, level: u32) -> Result<(), Memory> {
        if self.trail.level() <= level {
            return Ok(());
        }
        for _ in 0..u64::MAX {
            let Some(code) = self.trail.retract(level) else {
                break;
            };
            write(&mut self.phases, code.var(), code.is_positive());
            self.order.insert(code.var())?;
        }
        self.trail.close_levels(level);
        Ok(())
    }

    /// Decides the most active open variable. It answers false where none is open.
    pub fn decide(&mut self) -> Result<bool, Memory> {
        for _ in 0..u64::MAX {
            let Some(var) = self.order.pop() else {
                break;
            };
            let yes = read(&self.phases, var as usize, false);
            let code = Code::new(var, yes);
            if self.trail.value(code) == Truth::Unknown {
                self.trail.open_level()?;
                self.trail.assign(code, DECISION)?;
                return Ok(true);
            }
        }
        Ok(false)
    }

    /// Drops the half of the learned clauses with the highest number of levels. No level is open.
    pub fn drop_learned(&mut self) {
        self.learned.sort_unstable_by_key(|learned| learned.levels);
        let half = self.learned.len() / 2;
        for at in half..self.learned.len() {
            let learned = self.learned[at];
            if learned.levels > KEPT_LEVELS {
                self.watches.drop_long(learned.at);
            }
        }
        self.learned.truncate(half);
    }

    /// The value of each variable.
    pub fn bits(&self, vars: usize) -> Result<Vec<bool>, Memory> {
        let mut bits = Vec::new(self.alloc);
        for var in 0..vars {
            bits.push(self.trail.value(Code::new(narrow(var), true)) == Truth::True)?;
        }
        Ok(bits)
    }
}
