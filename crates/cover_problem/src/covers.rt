// Whether a choice is a cover.
ghost use Rattle.std.specs.Prelude.{◌≡◌, ◌↔◌, ◌≤◌, IsTrue};
ghost use Rattle.std.specs.List.{list_all};
ghost use Rattle.c_tree.specs.Fill.{IsAscending};
ghost use Rattle.c_graph.specs.declared.graph.Graph.{Graph};
ghost use Rattle.ts_domain.specs.declared.facts.Path.{Path as Noted};
ghost use Rattle.ts_domain.specs.Cover.{IsCover};
ghost use Rattle.cover_problem.specs.Covering.{are_apart, are_named, are_sound, count_chosen, covers, hold_at_most_one, hold_one, is_held, is_sound, is_usable};
ghost use Rattle.cover_problem.specs.Problem.{HasRooms, IsCoverOf, IsProblem};

use crate::types::Problem;
use c_tree::{Choice, Put};
use mf_set::BitSet;
use ts_domain::{Names, Triple, has_put, is_chosen};

fn count_chosen(names: &Names, choice: &Choice, set: &BitSet) -> usize
    requires { IsAscending choice.now }
    ensures { result ≡ count_chosen names.now choice.now set.now }
{
    let mut count = 0;
    let mut from = 0;
    while let Some(place) = set.next_from(from) {
        if is_chosen(names, choice, place) {
            count += 1;
        }
        from = place + 1;
    }
    count
}

fn are_named(names: &Names, puts: &[Put]) -> bool
    ensures { result ≡ are_named names.now puts.now }
{
    puts.iter().all(|put| has_put(names.puts.as_slice(), *put))
}

fn is_held(triples: &[Triple], place: usize) -> bool
    ensures { result ≡ is_held triples.now place }
{
    triples.iter().any(|triple| triple.puts.contains(place))
}

fn is_usable(problem: &Problem, place: usize) -> bool
    ensures { result ≡ is_usable problem.now place }
{
    let derived = &problem.derived;
    problem.allowed.contains(place)
        && (!derived.forbidden.contains(place) && is_held(derived.triples.as_slice(), place))
}

fn is_sound(problem: &Problem, choice: &Choice, place: usize) -> bool
    requires { IsAscending choice.now }
    ensures { result ≡ is_sound problem.now choice.now place }
{
    !is_chosen(&problem.names, choice, place) || is_usable(problem, place)
}

fn are_sound(problem: &Problem, choice: &Choice) -> bool
    requires { IsAscending choice.now }
    ensures { result ≡ are_sound problem.now choice.now }
{
    for place in 0..problem.names.puts.len() {
        if !is_sound(problem, choice, place) {
            return false;
        }
    }
    true
}

fn are_apart(names: &Names, choice: &Choice, pairs: &[(usize, usize)]) -> bool
    requires { IsAscending choice.now }
    ensures { result ≡ are_apart names.now choice.now pairs.now }
{
    pairs.iter().all(|pair| !(is_chosen(names, choice, pair.0) && is_chosen(names, choice, pair.1)))
}

fn hold_at_most_one(names: &Names, choice: &Choice, triples: &[Triple]) -> bool
    requires { IsAscending choice.now }
    ensures { result ≡ hold_at_most_one names.now choice.now triples.now }
{
    triples
        .iter()
        .all(|triple| count_chosen(names, choice, &triple.puts) <= 1)
}

fn hold_one(names: &Names, choice: &Choice, exits: &[(usize, usize, BitSet)]) -> bool
    requires { IsAscending choice.now }
    ensures { result ≡ hold_one names.now choice.now exits.now }
{
    exits
        .iter()
        .all(|exit| 1 <= count_chosen(names, choice, &exit.2))
}

fn covers(problem: &Problem, choice: &Choice) -> bool
    requires { IsAscending choice.now }
    ensures { result ≡ covers problem.now choice.now }
{
    let names = &problem.names;
    let derived = &problem.derived;
    are_named(names, choice.puts.as_slice())
        && (are_sound(problem, choice)
            && (are_apart(names, choice, derived.pairs.as_slice())
                && (hold_at_most_one(names, choice, derived.triples.as_slice())
                    && hold_one(names, choice, problem.exits.as_slice()))))
}

/// Whether a choice is a cover.
pub fn is_cover(problem: &Problem, choice: &Choice) -> bool
    requires rooms { HasRooms problem.now }
    requires ascending { IsAscending choice.now }
    ensures covers { IsTrue result ↔ IsCoverOf problem.now choice.now }
    ensures of_graph { (g : Graph) (p : Noted) → IsProblem g problem.now.names p problem.now.derived problem.now → IsTrue result ↔ IsCover g problem.now.names p problem.now.derived choice.now }
{
    covers(problem, choice)
}
