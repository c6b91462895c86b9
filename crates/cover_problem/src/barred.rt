// The least triple at an exit that no put can free.
ghost use Rattle.std.specs.Prelude.{◌≡◌};
ghost use Rattle.std.specs.List.{list_all};
ghost use Rattle.cover_problem.specs.Alone.{are_barred, is_barred, is_before, least_with, lesser, LeastAlone};

use crate::types::Problem;
use mf_set::BitSet;

fn is_barred(problem: &Problem, place: usize) -> bool
    ensures { result ≡ is_barred problem.now place }
{
    problem.derived.forbidden.contains(place) || !problem.allowed.contains(place)
}

fn are_barred(problem: &Problem, candidates: &BitSet) -> bool
    ensures { result ≡ are_barred problem.now candidates.now }
{
    let mut from = 0;
    while let Some(place) = candidates.next_from(from) {
        if !is_barred(problem, place) {
            return false;
        }
        from = place + 1;
    }
    true
}

fn is_before(one: (usize, usize), other: (usize, usize)) -> bool
    ensures { result ≡ is_before one other }
{
    one.0 < other.0 || (one.0 == other.0 && one.1 < other.1)
}

/// The lesser of two, if there are two.
fn lesser(least: Option<(usize, usize)>, next: (usize, usize)) -> (usize, usize)
    ensures { result ≡ lesser least next }
{
    match least {
        None => next,
        Some(least) => { if is_before(next, least) { next } else { least } }
    }
}

/// The least of those so far and an exit, if all its candidates are barred.
fn least_with(
    problem: &Problem,
    least: Option<(usize, usize)>,
    exit: &(usize, usize, BitSet),
) -> Option<(usize, usize)>
    ensures { result ≡ least_with problem.now least exit.now }
{
    if are_barred(problem, &exit.2) {
        Some(lesser(least, (exit.0, exit.1)))
    } else {
        least
    }
}

/// The least site and exit of a triple at an exit all of whose candidates are forbidden or not allowed.
pub fn alone(problem: &Problem) -> Option<(usize, usize)>
    ensures { LeastAlone problem.now result }
{
    let mut least = None;
    for exit in problem.exits.as_slice() {
        least = least_with(problem, least, exit);
    }
    least
}
