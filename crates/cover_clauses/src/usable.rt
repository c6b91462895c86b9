// The puts that have a variable.
ghost use Rattle.std.specs.Prelude.{◌≡◌, ◌<◌, ◌&&◌, cond, length, nat_lt, IfOk};
ghost use Rattle.mf_set.specs.Numbers.{with_number};
ghost use Rattle.cover_problem.specs.Covering.{is_held, is_usable};
ghost use Rattle.cover_problem.specs.Problem.{HasRooms};
ghost use Rattle.cover_clauses.specs.Parts.{IsFound};

use cover_problem::Problem;
use mf_list::Memory;
use mf_set::BitSet;
use std::alloc::Global;
use ts_domain::Triple;

/// The puts that some triple holds.
fn held(alloc: Global, problem: &Problem, triples: &[Triple]) -> Result<BitSet, Memory>
    requires rooms { HasRooms problem.now }
    requires triples { triples.now ≡ problem.now.derived.triples }
    ensures { IfOk result (IsFound (length problem.now.names.puts) (is_held triples.now)) }
{
    let mut set = BitSet::with_room(alloc, problem.names.puts.len())?;
    for triple in triples {
        set.union_with(&triple.puts);
    }
    Ok(set)
}

fn is_usable(problem: &Problem, held: &BitSet, place: usize) -> bool
    requires { IsFound (length problem.now.names.puts) (is_held problem.now.derived.triples) held.now }
    ensures { result ≡ is_usable problem.now place }
{
    problem.allowed.contains(place)
        && (!problem.derived.forbidden.contains(place) && held.contains(place))
}

fn insert_if(set: &mut BitSet, passes: bool, place: usize)
    requires { place < set.old.room }
    ensures { set.new ≡ record set.old { items = cond passes (with_number set.old.items place) set.old.items } }
{
    if passes {
        set.insert(place);
    }
}

fn usable_of(alloc: Global, problem: &Problem, held: &BitSet) -> Result<BitSet, Memory>
    requires { IsFound (length problem.now.names.puts) (is_held problem.now.derived.triples) held.now }
    ensures { IfOk result (IsFound (length problem.now.names.puts) (λ k. nat_lt k (length problem.now.names.puts) && is_usable problem.now k)) }
{
    let mut set = BitSet::with_room(alloc, problem.names.puts.len())?;
    for place in 0..problem.names.puts.len() {
        insert_if(&mut set, is_usable(problem, held, place), place);
    }
    Ok(set)
}

/// The puts that are allowed, not forbidden and held by some triple.
pub fn usable(alloc: Global, problem: &Problem) -> Result<BitSet, Memory>
    requires { HasRooms problem.now }
    ensures { IfOk result (IsFound (length problem.now.names.puts) (is_usable problem.now)) }
{
    let held = held(alloc, problem, problem.derived.triples.as_slice())?;
    let set = usable_of(alloc, problem, &held)?;
    Ok(set)
}
