// Sets of numbers below a room, as callers see them.
ghost use Rattle.std.specs.Prelude.{◌≡◌, ◌+◌, ◌^◌, ◌<◌, ◌≤◌, ◌↔◌, [], ◌∷◌, length, false, IsTrue, IfOk, IfSome};
ghost use Rattle.std.specs.List.{Contains};
ghost use Rattle.mf_set.specs.Numbers.{has, IsSet, with_number, without_number, union, meet, is_subset, first_common, next_from, numbers_from};

mod order;

use crate::{Memory, words};
use std::alloc::Global;
use std::marker::Model;

/// A set of numbers below its room, which no call changes.
///
/// Contracts see it as the list of its numbers, with the room; each call says that they ascend below it. It is kept as bits, so that a call that
/// goes over the whole set takes a step for each 64 numbers of the room.
#[derive(Debug, Drop)]
pub struct BitSet {
    words: Vec<u64>,
    room: usize,
}

impl Model for BitSet {
    ghost use Rattle.mf_set.specs.Numbers.{Numbers};
    ghost use Rattle.mf_set.specs.Words.{numbers_of, AreWords};

    ghost Value = { Numbers };

    ghost view = { λ s. record { items = numbers_of s.words.items; room = s.room } };

    ghost invariant = { λ s. AreWords s.room s.words.items };
}

impl BitSet {
    /// The empty set.
    pub fn with_room(alloc: Global, n: usize) -> Result<BitSet, Memory>
        ensures { IfOk result (λ s. s ≡ record { items = []; room = n }) }
    {
        let words = vec![in alloc; 0; n.div_ceil(words::WORD_BITS)]?;
        Ok(BitSet { words, room: n })
    }

    /// The set that has no room, which allocates nothing.
    pub fn empty(alloc: Global) -> BitSet
        ensures { result ≡ record { items = []; room = 0 } }
    {
        BitSet {
            words: Vec::new(alloc),
            room: 0,
        }
    }

    /// The same set once more.
    pub fn copy(&self, alloc: Global) -> Result<BitSet, Memory>
        ensures copy { IfOk result (λ s. s ≡ self.now) }
        ensures set { IsSet self.now }
    {
        let words = Vec::from_slice(alloc, self.words.as_slice())?;
        Ok(BitSet {
            words,
            room: self.room,
        })
    }

    /// The bound of the numbers.
    pub fn room(&self) -> usize
        ensures room { result ≡ self.now.room }
        ensures set { IsSet self.now }
    {
        self.room
    }

    pub fn insert(&mut self, k: usize)
        requires { k < self.old.room }
        ensures numbers { self.new ≡ record self.old { items = with_number self.old.items k } }
        ensures set { IsSet self.new }
    {
        words::insert(self.words.as_mut_slice(), k);
    }

    pub fn remove(&mut self, k: usize)
        requires { k < self.old.room }
        ensures numbers { self.new ≡ record self.old { items = without_number self.old.items k } }
        ensures set { IsSet self.new }
    {
        words::remove(self.words.as_mut_slice(), k);
    }

    pub fn contains(&self, k: usize) -> bool
        ensures value { result ≡ has self.now.items k }
        ensures member { IsTrue result ↔ Contains self.now.items k }
        ensures set { IsSet self.now }
    {
        words::contains(self.words.as_slice(), k)
    }

    /// Takes all numbers away.
    pub fn clear(&mut self)
        ensures { self.new ≡ record self.old { items = [] } }
    {
        self.words.fill(0);
    }

    /// Adds the numbers of another set, and says whether one of them is new.
    pub fn union_with(&mut self, other: &BitSet) -> bool
        requires { self.old.room ≡ other.now.room }
        ensures numbers { self.new ≡ record self.old { items = union self.old.items other.now.items } }
        ensures changed { (result ≡ false) ↔ (self.new ≡ self.old) }
        ensures set { IsSet self.new }
    {
        words::union_with(self.words.as_mut_slice(), other.words.as_slice())
    }

    /// Keeps the numbers that another set has too, and says whether one goes.
    pub fn meet_with(&mut self, other: &BitSet) -> bool
        requires { self.old.room ≡ other.now.room }
        ensures numbers { self.new ≡ record self.old { items = meet self.old.items other.now.items } }
        ensures changed { (result ≡ false) ↔ (self.new ≡ self.old) }
        ensures set { IsSet self.new }
    {
        words::meet_with(self.words.as_mut_slice(), other.words.as_slice())
    }

    /// Whether another set, of whatever room, has each number of this one.
    pub fn is_subset(&self, other: &BitSet) -> bool
        ensures value { result ≡ is_subset self.now.items other.now.items }
        ensures set { IsSet self.now }
    {
        words::is_subset(self.words.as_slice(), other.words.as_slice())
    }

    /// The least number that another set, of whatever room, has too.
    pub fn first_common(&self, other: &BitSet) -> Option<usize>
        ensures value { result ≡ first_common self.now.items other.now.items }
        ensures set { IsSet self.now }
    {
        words::first_common(self.words.as_slice(), other.words.as_slice())
    }

    pub fn is_empty(&self) -> bool
        ensures empty { IsTrue result ↔ (self.now.items ≡ []) }
        ensures set { IsSet self.now }
    {
        words::is_empty(self.words.as_slice())
    }

    /// How many numbers the set has.
    pub fn count(&self) -> usize
        ensures count { result ≡ length self.now.items }
        ensures set { IsSet self.now }
    {
        words::count(self.words.as_slice())
    }

    /// The least number that is not below `from`.
    pub fn next_from(&self, from: usize) -> Option<usize>
        ensures value { result ≡ next_from self.now.items from }
        ensures set { IsSet self.now }
        ensures within { IfSome result (λ n. (from ≤ n) × (n < self.now.room) × (n + 1 < 2 ^ 64)) }

        // The numbers from `from` on are the answer and those after it.
        ensures rest { IfSome result (λ n. numbers_from self.now.items from ≡ n ∷ numbers_from self.now.items (n + 1)) }
    {
        words::next_from(self.words.as_slice(), from)
    }

    /// The numbers, ascending.
    pub fn to_vec(&self, alloc: Global) -> Result<Vec<usize>, Memory>
        ensures numbers { IfOk result (λ v. v.items ≡ self.now.items) }
        ensures set { IsSet self.now }
    {
        let mut numbers = Vec::with_capacity(alloc, self.count())?;
        words::push_all(&mut numbers, self.words.as_slice())?;
        Ok(numbers)
    }
}
