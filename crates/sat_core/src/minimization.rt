//! Minimization: literals of a learned clause that follow from its other ones.

ghost use Rattle.std.specs.Prelude.{OnOk};
ghost use Rattle.sat_core.specs.Learning.{clauses_of, Refutable};

use crate::Memory;
use crate::cells::{read, write};
use crate::code::Code;
use crate::known::Known;
use crate::marks::Marks;
use crate::order::Order;
use crate::resolution::resolve;
use crate::trail::Trail;
use sat_log::Lit;
use std::alloc::Global;

/// What is known of a variable while a clause is minimized.
#[derive(Clone, Copy, Debug, PartialEq, Eq)]
enum Role {
    Unknown,
    /// Its literal follows from the marked ones.
    Follows,
    /// It does not, as far as the walk over reasons sees.
    Stays,
}

/// A variable on the walk, and how many literals of its reason were looked at.
#[derive(Clone, Copy, Debug)]
struct Frame {
    var: usize,
    at: usize,
}

/// What minimization needs of room, kept from one clause to the next.
#[derive(Drop)]
pub struct Minimizer {
    roles: Vec<Role>,
    touched: Vec<usize>,
    stack: Vec<Frame>,
    /// Where in the trail the literals stand that follow.
    found: Vec<usize>,
    /// The levels of the clause have the current stamp.
    stamps: Vec<u64>,
    stamp: u64,
}

/// Where a look at one literal of a reason leads.
#[derive(Clone, Copy, Debug)]
enum Look {
    Fine,
    Deeper(usize),
    Fails,
    Done,
}

impl Minimizer {
    pub fn new(alloc: Global, vars: usize) -> Result<Minimizer, Memory> {
        Ok(Minimizer {
            roles: vec![in alloc; Role::Unknown; vars]?,
            touched: Vec::new(alloc),
            stack: Vec::new(alloc),
            found: Vec::new(alloc),
            stamps: vec![in alloc; 0; vars.wrapping_add(1)]?,
            stamp: 0,
        })
    }

    /// Counts the levels of the marked literals, and stamps them.
    pub fn count_levels(&mut self, trail: &Trail, marks: &Marks) -> u32 {
        self.stamp = self.stamp.wrapping_add(1);
        let mut count = 0u32;
        for lit in &marks.list {
            let level = trail.cause(lit.var).level as usize;
            if read(&self.stamps, level, 0) != self.stamp {
                write(&mut self.stamps, level, self.stamp);
                count = count.wrapping_add(1);
            }
        }
        count
    }

    fn set_role(&mut self, var: usize, role: Role) -> Result<(), Memory> {
        self.touched.push(var)?;
        write(&mut self.roles, var, role);
        Ok(())
    }

    fn forget(&mut self) {
        for var in &self.touched {
            write(&mut self.roles, *var, Role::Unknown);
        }
        self.touched.clear();
        self.found.clear();
        self.stack.clear();
    }

    /// Finds the variables of marked literals that follow from the others.
    fn find(&mut self, known: Known<'_>, trail: &Trail, marks: &Marks) -> Result<(), Memory> {
        self.forget();
        for lit in &marks.list {
            self.walk(known, trail, marks, lit.var)?;
        }
        Ok(())
    }

    /// Walks over the reasons of a variable, and notes what follows on the way.
    fn walk(
        &mut self,
        known: Known<'_>,
        trail: &Trail,
        marks: &Marks,
        var: usize,
    ) -> Result<(), Memory> {
        self.stack.clear();
        self.stack.push(Frame { var, at: 0 })?;
        for _ in 0..u64::MAX {
            let Some(frame) = self.stack.pop() else {
                return Ok(());
            };
            let next = Frame {
                var: frame.var,
                at: frame.at.wrapping_add(1),
            };
            match self.look(known, trail, marks, frame) {
                Look::Fine => self.stack.push(next)?,
                Look::Deeper(var) => {
                    self.stack.push(next)?;
                    self.stack.push(Frame { var, at: 0 })?;
                }
                Look::Done => {
                    self.set_role(frame.var, Role::Follows)?;
                    self.found.push(trail.place(frame.var))?;
                }
                Look::Fails => {
                    self.stack.push(frame)?;
                    return self.fail();
                }
            }
        }
        Ok(())
    }

    /// No variable of the walk is known to follow.
    fn fail(&mut self) -> Result<(), Memory> {
        for frame in &self.stack {
            self.touched.push(frame.var)?;
            write(&mut self.roles, frame.var, Role::Stays);
        }
        Ok(())
    }

    fn look(&self, known: Known<'_>, trail: &Trail, marks: &Marks, frame: Frame) -> Look {
        let reason = trail.cause(frame.var).reason;
        let Some(clause) = known.clause(reason as usize) else {
            return Look::Fails;
        };
        match clause.get(frame.at) {
            None => Look::Done,
            Some(lit) if lit.var == frame.var => Look::Fine,
            Some(lit) => self.look_at(trail, marks, *lit),
        }
    }

    fn look_at(&self, trail: &Trail, marks: &Marks, lit: Lit) -> Look {
        let level = trail.cause(lit.var).level;
        if level == 0 || marks.contains(lit) {
            return Look::Fine;
        }
        match read(&self.roles, lit.var, Role::Stays) {
            Role::Follows => Look::Fine,
            Role::Stays => Look::Fails,
            Role::Unknown if read(&self.stamps, level as usize, 0) == self.stamp => {
                Look::Deeper(lit.var)
            }
            Role::Unknown => Look::Fails,
        }
    }
}

/// Resolves the marked literals that follow from the others, the newest first. It answers false where that fails.
pub fn minimize(
    known: Known<'_>,
    trail: &Trail,
    order: &mut Order,
    minimizer: &mut Minimizer,
    marks: &mut Marks,
) -> Result<bool, Memory>
    requires { Refutable (clauses_of known) marks.old.list.items }
    ensures { OnOk result (Refutable (clauses_of known.entry) marks.new.list.items) }
{
    minimizer.find(known, trail, marks)?;
    minimizer.found.sort_unstable();
    for place in minimizer.found.iter().rev() {
        let code = read(trail.codes(), *place, Code::new(0, true));
        if !marks.contains(code.opposite().lit()) {
            continue;
        }
        if resolve(known, trail, order, marks, code)?.is_none() {
            return Ok(false);
        }
    }
    Ok(true)
}
