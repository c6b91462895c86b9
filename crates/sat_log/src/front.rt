//! Unit propagation by watched literals: quick, and trusted in nothing but that what it notes follows.
ghost use Rattle.std.specs.Prelude.{◌≡◌, true, IfOk, [], length};
ghost use Rattle.sat_log.specs.Refutation.{Clashes};
ghost use Rattle.sat_log.specs.Propagation.{Sound, base_of, Grows, HasRoom, Finds};

use crate::Lit;
use crate::arena::{Arena, Sight, Watched};
use crate::claim::Claim;
use crate::code::Code;
use crate::facts::Facts;
use crate::infer::assume_all;
use crate::look::free_besides;
use crate::usage::Usage;
use crate::visit::{Visit, visit_at};
use crate::watches::{Watch, Watches};
use mf_list::Memory;
use std::alloc::Global;

/// How many claims there are at least between two sortings of the clauses.
const PERIOD: usize = 1_000;

/// Clauses that were of use lately are near; they are followed to the end before the others, which are far.
#[derive(Clone, Copy, Debug)]
enum Tier {
    Near,
    Far,
}

/// The clauses that can still be of use, the lists of those that watch a literal, and how many clauses were taken up.
#[derive(Debug, Drop)]
pub struct Front {
    arena: Arena,
    near: Watches,
    far: Watches,
    usage: Usage,
    taken: usize,
    sorted: usize,
}

impl Front {
    pub fn new(alloc: Global, vars: usize) -> Result<Front, Memory> {
        Ok(Front {
            arena: Arena::new(alloc),
            near: Watches::new(alloc, vars)?,
            far: Watches::new(alloc, vars)?,
            usage: Usage::new(alloc, vars)?,
            taken: 0,
            sorted: 0,
        })
    }

    fn watch(&mut self, tier: Tier, code: Code, watch: Watch) -> Result<(), Memory> {
        match tier {
            Tier::Near => self.near.add(code, watch),
            Tier::Far => self.far.add(code, watch),
        }
    }

    fn take_list(&mut self, tier: Tier, code: Code) -> Vec<Watch> {
        match tier {
            Tier::Near => self.near.take(code),
            Tier::Far => self.far.take(code),
        }
    }

    fn put_list(&mut self, tier: Tier, code: Code, list: Vec<Watch>) {
        match tier {
            Tier::Near => self.near.put(code, list),
            Tier::Far => self.far.put(code, list),
        }
    }

    /// Watches both literals of a clause.
    fn watch_both(&mut self, tier: Tier, watched: Watched) -> Result<(), Memory> {
        let Watched {
            at,
            first,
            second,
            ..
        } = watched;
        self.watch(tier, first, Watch { at, other: second })?;
        self.watch(tier, second, Watch { at, other: first })
    }

    /// Sorts the clauses anew into near and far ones, where that was long ago.
    fn sort(&mut self) -> Result<(), Memory> {
        let since = self.usage.claim().wrapping_sub(self.sorted);
        if since < PERIOD || since < self.taken / 8 {
            return Ok(());
        }
        self.sorted = self.usage.claim();
        self.near.clear();
        self.far.clear();
        let mut at = 0;
        for _ in 0..self.taken {
            if at >= self.arena.len() {
                break;
            }
            let watched = self.arena.watched(at);
            let tier = if self.usage.is_recent(watched.clause) {
                Tier::Near
            } else {
                Tier::Far
            };
            self.watch_both(tier, watched)?;
            at = watched.next;
        }
        Ok(())
    }

    /// The next literal of the trail to be followed, and in which tier.
    fn next(&mut self, trail: &[Lit]) -> Option<(Tier, Lit)> {
        if let Some(lit) = trail.get(self.near.next) {
            self.near.next = self.near.next.wrapping_add(1);
            return Some((Tier::Near, *lit));
        }
        let lit = trail.get(self.far.next)?;
        self.far.next = self.far.next.wrapping_add(1);
        Some((Tier::Far, *lit))
    }

    fn restart(&mut self) {
        self.near.next = 0;
        self.far.next = 0;
    }

    /// Notes of what use a visit of a clause was.
    fn note(
        &mut self,
        claim: &Claim,
        clause: usize,
        follows: Option<Lit>,
        found: Visit,
    ) -> Result<(), Memory> {
        if let Some(lit) = follows {
            self.usage.note(lit, clause);
        }
        match found {
            Visit::Clash => self.usage.mark(claim, clause),
            _ => Ok(()),
        }
    }

    /// Visits the clause at a place, of which all literals seem to be false but perhaps this one.
    fn conclude_at(
        &mut self,
        facts: &mut Facts,
        claim: &Claim,
        at: u32,
        other: Lit,
    ) -> Result<Visit, Memory>
        requires { Sound claim.now facts.old }
        ensures sound { IfOk result (λ _. Sound claim.now facts.new) }
        ensures grows { IfOk result (λ _. Grows facts.old facts.new) }
        ensures finds { IfOk result (λ v. Finds claim.now v) }
    {
        let clause = self.arena.clause(at);
        let known = facts.trail.len();
        let found = visit_at(facts, claim, clause, other)?;
        let follows = if facts.trail.len() > known {
            Some(other)
        } else {
            None
        };
        self.note(claim, clause, follows, found)?;
        Ok(found)
    }

    /// Visits a clause of a list, of which this watched literal is false.
    fn turn(
        &mut self,
        facts: &mut Facts,
        claim: &Claim,
        tier: Tier,
        out: Code,
        watch: &mut Watch,
    ) -> Result<Visit, Memory>
        requires { Sound claim.now facts.old }
        ensures sound { IfOk result (λ _. Sound claim.now facts.new) }
        ensures grows { IfOk result (λ _. Grows facts.old facts.new) }
        ensures finds { IfOk result (λ v. Finds claim.now v) }
    {
        let at = watch.at;
        match self.arena.look(facts, at, out) {
            Sight::Rests(other) => {
                watch.other = other;
                Ok(Visit::Stays)
            }
            Sight::Moves(other, to) => {
                self.watch(tier, to, Watch { at, other })?;
                Ok(Visit::Moves(to.lit()))
            }
            Sight::Spent(other) => {
                let found = self.conclude_at(facts, claim, at, other.lit())?;
                Ok(found)
            }
        }
    }

    /// Visits the clauses of a list. True where all literals of one of them are false.
    fn turn_all(
        &mut self,
        facts: &mut Facts,
        claim: &Claim,
        tier: Tier,
        out: Code,
        list: &mut Vec<Watch>,
    ) -> Result<bool, Memory>
        requires { Sound claim.now facts.old }
        ensures sound { IfOk result (λ _. Sound claim.now facts.new) }
        ensures grows { IfOk result (λ _. Grows facts.old facts.new) }
        ensures clash { IfOk result (λ b. b ≡ true → Clashes (base_of claim.now) claim.now.aim.now) }
    {
        let mut at = 0;
        while at < list.len() {
            let mut watch = list[at];
            if facts.is_true(watch.other.lit()) {
                at += 1;
                continue;
            }
            match self.turn(facts, claim, tier, out, &mut watch)? {
                Visit::Clash => return Ok(true),
                Visit::Stays => {
                    list[at] = watch;
                    at += 1;
                }
                Visit::Moves(_) => {
                    list.swap_remove(at);
                }
            }
        }
        Ok(false)
    }

    /// Visits the clauses that watch the opposite of a true literal.
    fn spread(
        &mut self,
        facts: &mut Facts,
        claim: &Claim,
        tier: Tier,
        lit: Lit,
    ) -> Result<bool, Memory>
        requires { Sound claim.now facts.old }
        ensures sound { IfOk result (λ _. Sound claim.now facts.new) }
        ensures grows { IfOk result (λ _. Grows facts.old facts.new) }
        ensures clash { IfOk result (λ b. b ≡ true → Clashes (base_of claim.now) claim.now.aim.now) }
    {
        let out = Code::of(lit.opposite());
        let mut list = self.take_list(tier, out);
        let clash = self.turn_all(facts, claim, tier, out, &mut list)?;
        self.put_list(tier, out, list);
        Ok(clash)
    }

    /// Spreads each literal of the trail that was not yet.
    fn propagate(&mut self, facts: &mut Facts, claim: &Claim) -> Result<bool, Memory>
        requires { Sound claim.now facts.old }
        ensures sound { IfOk result (λ _. Sound claim.now facts.new) }
        ensures grows { IfOk result (λ _. Grows facts.old facts.new) }
        ensures clash { IfOk result (λ b. b ≡ true → Clashes (base_of claim.now) claim.now.aim.now) }
    {
        for _ in 0..u64::MAX {
            let Some((tier, lit)) = self.next(facts.trail.as_slice()) else {
                return Ok(false);
            };
            let clash = self.spread(facts, claim, tier, lit)?;
            if clash {
                return Ok(true);
            }
        }
        Ok(false)
    }

    /// Tries to show a claim. What it finds is right; where it finds nothing, nothing is known.
    pub fn shows(&mut self, facts: &mut Facts, claim: &Claim) -> Result<bool, Memory>
        requires sound { Sound claim.now facts.old }
        requires room { HasRoom claim.now facts.old }
        ensures sound { IfOk result (λ _. Sound claim.now facts.new) }
        ensures grows { IfOk result (λ _. Grows facts.old facts.new) }
        ensures clash { IfOk result (λ b. b ≡ true → Clashes (base_of claim.now) claim.now.aim.now) }
    {
        self.restart();
        self.usage.next_claim();
        let clash = assume_all(facts, claim)?;
        if clash {
            return Ok(true);
        }
        self.propagate(facts, claim)
    }

    /// Watches two literals of the next clause. True where all of them are false.
    fn add(&mut self, facts: &mut Facts, claim: &Claim) -> Result<bool, Memory>
        requires { Sound claim.now facts.old }
        ensures sound { IfOk result (λ _. Sound claim.now facts.new) }
        ensures grows { IfOk result (λ _. Grows facts.old facts.new) }
        ensures clash { IfOk result (λ b. b ≡ true → Clashes (base_of claim.now) claim.now.aim.now) }
    {
        let clause = self.taken;
        let Some(lits) = claim.clause(clause) else {
            return Ok(false);
        };
        let Some(first) = free_besides(facts, lits, None) else {
            return Ok(true);
        };
        self.usage.add_clause()?;
        self.taken = clause.wrapping_add(1);
        match visit_at(facts, claim, clause, first)? {
            Visit::Clash => Ok(true),
            Visit::Stays => Ok(false),
            Visit::Moves(second) => {
                let at = self.arena.len();
                self.arena.add(clause, lits, first, second)?;
                let watched = self.arena.watched(at);
                self.watch_both(Tier::Near, watched)?;
                Ok(false)
            }
        }
    }

    /// Takes up the clauses of a claim without an aim that it has not yet, and what follows of all.
    pub fn take_up(&mut self, facts: &mut Facts, claim: &Claim) -> Result<bool, Memory>
        requires { Sound claim.now facts.old }
        ensures sound { IfOk result (λ _. Sound claim.now facts.new) }
        ensures grows { IfOk result (λ _. Grows facts.old facts.new) }
        ensures clash { IfOk result (λ b. b ≡ true → Clashes (base_of claim.now) claim.now.aim.now) }
    {
        self.restart();
        self.sort()?;
        for _ in self.taken..claim.count() {
            let clash = self.add(facts, claim)?;
            if clash {
                return Ok(true);
            }
        }
        let found = self.propagate(facts, claim)?;
        Ok(found)
    }
}
