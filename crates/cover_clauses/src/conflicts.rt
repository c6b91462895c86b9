// Which puts with variables may not both be chosen, as a row for each put: of it and of one behind it, or of it and itself.
ghost use Rattle.std.specs.Prelude.{◌≡◌, ◌<◌, ◌==◌, ◌&&◌, ℕ, Contains, length, IfOk, OnOk};
ghost use Rattle.std.specs.List.{list_any};
ghost use Rattle.mf_set.specs.Numbers.{Numbers, has};
ghost use Rattle.cover_problem.specs.Covering.{is_usable};
ghost use Rattle.cover_problem.specs.Problem.{HasRooms};
ghost use Rattle.cover_clauses.specs.Conflicts.{is_pair, shares, Adds, AreConflicts, AreEmpty, AreSquare};
ghost use Rattle.cover_clauses.specs.Parts.{IsFound};

use crate::candidates::triple_sets;
use cover_problem::Problem;
use mf_list::{Memory, Seq};
use mf_set::BitSet;
use std::alloc::Global;

fn empty_rows(alloc: Global, size: usize) -> Result<Seq<BitSet>, Memory>
    ensures { IfOk result (AreEmpty size size) }
{
    let mut rows = Seq::new(alloc);
    for _ in 0..size {
        rows.push(BitSet::with_room(alloc, size)?)?;
    }
    Ok(rows)
}

/// Adds a number to the row at a place, if it passes.
fn insert_if(rows: &mut Seq<BitSet>, passes: bool, at: usize, number: usize)
    requires square { AreSquare rows.old }
    requires at { at < length rows.old }
    requires number { number < length rows.old }
    ensures { Adds (λ j k. passes && (j == at && k == number)) rows.old rows.new }
{
    if passes {
        rows.at_mut(at).insert(number);
    }
}

/// Adds numbers to the row at a place.
fn join(rows: &mut Seq<BitSet>, at: usize, more: &BitSet)
    requires square { AreSquare rows.old }
    requires at { at < length rows.old }
    requires room { more.now.room ≡ length rows.old }
    ensures { Adds (λ j k. j == at && has more.now.items k) rows.old rows.new }
{
    rows.at_mut(at).union_with(more);
}

fn are_usable(usable: &BitSet, pair: (usize, usize)) -> bool
    ensures { result ≡ (has usable.now.items pair.0 && has usable.now.items pair.1) }
{
    usable.contains(pair.0) && usable.contains(pair.1)
}

fn add_pairs(rows: &mut Seq<BitSet>, usable: &BitSet, pairs: &[(usize, usize)])
    requires square { AreSquare rows.old }
    requires within { (p : ℕ × ℕ) → Contains pairs.now p → (p.0 < length rows.old) × (p.1 < length rows.old) }
    ensures { Adds (λ j k. list_any (λ p. is_pair usable.now.items p j k) pairs.now) rows.old rows.new }
{
    for pair in pairs {
        let passes = are_usable(usable, *pair);
        insert_if(rows, passes, pair.0, pair.1);
    }
}

/// Adds to the row of each number of a set those behind it.
fn add_set(alloc: Global, rows: &mut Seq<BitSet>, set: &BitSet) -> Result<(), Memory>
    requires square { AreSquare rows.old }
    requires room { set.now.room ≡ length rows.old }
    ensures { OnOk result (Adds (shares set.now.items) rows.old rows.new) }
{
    let mut rest = set.copy(alloc)?;
    let mut from = 0;
    while let Some(place) = rest.next_from(from) {
        rest.remove(place);
        join(rows, place, &rest);
        from = place + 1;
    }
    Ok(())
}

fn add_sets(alloc: Global, rows: &mut Seq<BitSet>, sets: &[BitSet]) -> Result<(), Memory>
    requires square { AreSquare rows.old }
    requires rooms { (s : Numbers) → Contains sets.now s → s.room ≡ length rows.old }
    ensures { OnOk result (Adds (λ j k. list_any (λ (s : Numbers). shares s.items j k) sets.now) rows.old rows.new) }
{
    for set in sets {
        add_set(alloc, rows, set)?;
    }
    Ok(())
}

pub fn conflicts(alloc: Global, problem: &Problem, usable: &BitSet) -> Result<Seq<BitSet>, Memory>
    requires rooms { HasRooms problem.now }
    requires usable { IsFound (length problem.now.names.puts) (is_usable problem.now) usable.now }
    ensures { IfOk result (AreConflicts problem.now) }
{
    let sets = triple_sets(alloc, usable, problem.derived.triples.as_slice())?;
    let mut rows = empty_rows(alloc, problem.names.puts.len())?;
    add_pairs(&mut rows, usable, problem.derived.pairs.as_slice());
    add_sets(alloc, &mut rows, sets.as_slice())?;
    Ok(rows)
}
