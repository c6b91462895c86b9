// The clauses, listed: of each set of candidates at an exit that one is chosen, and of each conflict that not both are.
ghost use Rattle.std.specs.Prelude.{◌≡◌, ◌+◌, ◌++◌, ◌<◌, ◌↔◌, length, map, Contains, IfOk, IsTrue, OnOk};
ghost use Rattle.mf_set.specs.Numbers.{Numbers};
ghost use Rattle.cover_problem.specs.Covering.{is_usable};
ghost use Rattle.cover_clauses.specs.Conflicts.{AreSquare};
ghost use Rattle.cover_clauses.specs.Listing.{list_by, literal_by, not_both_by, one_by, rows_by, total, AreVariables};
ghost use Rattle.cover_clauses.specs.Parts.{IsFound};

use crate::choices::next;
use cover_problem::Problem;
use mf_list::{Memory, Seq};
use mf_set::BitSet;
use sat_log::Lit;
use std::alloc::Global;

/// How many puts with a variable stand before each put, so the variable of one that has one; and how many variables there are.
#[derive(Debug, Drop)]
pub struct Variables {
    pub before: Seq<usize>,
    pub count: usize,
}

pub fn variables_of(alloc: Global, problem: &Problem, usable: &BitSet) -> Result<Variables, Memory>
    requires { IsFound (length problem.now.names.puts) (is_usable problem.now) usable.now }
    ensures { IfOk result (AreVariables problem.now) }
{
    let mut before = Seq::new(alloc);
    let mut count = 0;
    for place in 0..problem.names.puts.len() {
        before.push(count)?;
        count = next(count, usable.contains(place));
    }
    Ok(Variables { before, count })
}

fn literal(variables: &Variables, yes: bool, place: usize) -> Lit
    requires { place < length variables.now.before }
    ensures { result ≡ literal_by variables.now yes place }
{
    Lit {
        var: *variables.before.at(place),
        yes,
    }
}

fn one_of(alloc: Global, variables: &Variables, set: &BitSet) -> Result<Seq<Lit>, Memory>
    requires { set.now.room ≡ length variables.now.before }
    ensures { IfOk result (λ clause. clause ≡ one_by variables.now set.now.items) }
{
    let mut clause = Seq::new(alloc);
    let mut from = 0;
    while let Some(place) = set.next_from(from) {
        clause.push(literal(variables, true, place))?;
        from = place + 1;
    }
    Ok(clause)
}

fn not_both(
    alloc: Global,
    variables: &Variables,
    one: usize,
    other: usize,
) -> Result<Seq<Lit>, Memory>
    requires one { one < length variables.now.before }
    requires other { other < length variables.now.before }
    ensures { IfOk result (λ clause. clause ≡ not_both_by variables.now one other) }
{
    let mut clause = Seq::new(alloc);
    clause.push(literal(variables, false, one))?;
    if one != other {
        clause.push(literal(variables, false, other))?;
    }
    Ok(clause)
}

fn add_exits(
    alloc: Global,
    list: &mut Seq<Seq<Lit>>,
    variables: &Variables,
    sets: &[BitSet],
) -> Result<(), Memory>
    requires { (s : Numbers) → Contains sets.now s → s.room ≡ length variables.now.before }
    ensures { OnOk result (list.new ≡ list.old ++ map (λ (s : Numbers). one_by variables.now s.items) sets.now) }
{
    for set in sets {
        list.push(one_of(alloc, variables, set)?)?;
    }
    Ok(())
}

fn add_row(
    alloc: Global,
    list: &mut Seq<Seq<Lit>>,
    variables: &Variables,
    place: usize,
    row: &BitSet,
) -> Result<(), Memory>
    requires place { place < length variables.now.before }
    requires room { row.now.room ≡ length variables.now.before }
    ensures { OnOk result (list.new ≡ list.old ++ map (not_both_by variables.now place) row.now.items) }
{
    let mut from = 0;
    while let Some(other) = row.next_from(from) {
        list.push(not_both(alloc, variables, place, other)?)?;
        from = other + 1;
    }
    Ok(())
}

fn add_rows(
    alloc: Global,
    list: &mut Seq<Seq<Lit>>,
    variables: &Variables,
    rows: &[BitSet],
) -> Result<(), Memory>
    requires square { AreSquare rows.now }
    requires long { length rows.now ≡ length variables.now.before }
    ensures { OnOk result (list.new ≡ list.old ++ rows_by variables.now 0 rows.now) }
{
    for place in 0..rows.len() {
        add_row(alloc, list, variables, place, &rows[place])?;
    }
    Ok(())
}

/// Whether there are more than so many: those at exits, and the numbers of all rows.
pub fn has_more(limit: usize, exits: usize, rows: &[BitSet]) -> bool
    ensures { IsTrue result ↔ (limit < exits + total rows.now) }
{
    if exits > limit {
        return true;
    }
    let mut left = limit - exits;
    for row in rows {
        let count = row.count();
        if count > left {
            return true;
        }
        left -= count;
    }
    false
}

pub fn list(
    alloc: Global,
    variables: &Variables,
    sets: &[BitSet],
    rows: &[BitSet],
) -> Result<Seq<Seq<Lit>>, Memory>
    requires rooms { (s : Numbers) → Contains sets.now s → s.room ≡ length variables.now.before }
    requires square { AreSquare rows.now }
    requires long { length rows.now ≡ length variables.now.before }
    ensures { IfOk result (λ list. list ≡ list_by variables.now sets.now rows.now) }
{
    let mut list = Seq::new(alloc);
    add_exits(alloc, &mut list, variables, sets)?;
    add_rows(alloc, &mut list, variables, rows)?;
    Ok(list)
}
