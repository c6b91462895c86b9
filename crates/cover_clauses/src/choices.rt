// The choice that bits stand for.
ghost use Rattle.std.specs.Prelude.{◌≡◌, ◌+◌, ◌++◌, ◌^◌, ◌<◌, [], ◌∷◌, ◌&&◌, cond, length, slice_get, IfOk, IsTrue, OnOk};
ghost use Rattle.c_tree.specs.Fill.{ascends, IsAscending};
ghost use Rattle.c_tree.specs.Typing.{has};
ghost use Rattle.sat_log.specs.Clauses.{Satisfies};
ghost use Rattle.sat_log.specs.declared.problem.Clauses.{Clauses};
ghost use Rattle.cover_problem.specs.Covering.{is_usable};
ghost use Rattle.cover_problem.specs.Problem.{HasRooms, IsCoverOf};
ghost use Rattle.cover_clauses.specs.Clauses.{choice_of, variables, AreClauses};
ghost use Rattle.cover_clauses.specs.Parts.{chosen_puts, IsFound};

use crate::usable::usable;
use c_tree::{Choice, Put};
use cover_problem::Problem;
use mf_list::{Memory, Seq};
use mf_set::BitSet;
use std::alloc::Global;

fn is_true(bits: &[bool], variable: usize) -> bool
    ensures { result ≡ has (λ b. b) (slice_get bits.now variable) }
{
    match bits.get(variable) {
        None => false,
        Some(bit) => *bit,
    }
}

fn is_chosen(has_variable: bool, bits: &[bool], variable: usize) -> bool
    ensures { result ≡ (has_variable && has (λ b. b) (slice_get bits.now variable)) }
{
    has_variable && is_true(bits, variable)
}

fn push_if(puts: &mut Seq<Put>, passes: bool, put: Put) -> Result<(), Memory>
    ensures { OnOk result (puts.new ≡ puts.old ++ cond passes (put ∷ []) []) }
{
    if passes { puts.push(put) } else { Ok(()) }
}

pub fn next(variable: usize, passes: bool) -> usize
    requires { variable + 1 < 2 ^ 64 }
    ensures { result ≡ variable + cond passes 1 0 }
{
    if passes { variable + 1 } else { variable }
}

fn chosen_puts(
    alloc: Global,
    problem: &Problem,
    usable: &BitSet,
    bits: &[bool],
) -> Result<Seq<Put>, Memory>
    requires { IsFound (length problem.now.names.puts) (is_usable problem.now) usable.now }
    ensures { IfOk result (λ puts. puts ≡ chosen_puts problem.now bits.now (length problem.now.names.puts)) }
{
    let mut puts = Seq::new(alloc);
    let mut variable = 0;
    for place in 0..problem.names.puts.len() {
        let put = *problem.names.puts.at(place);
        let has_variable = usable.contains(place);
        push_if(&mut puts, is_chosen(has_variable, bits, variable), put)?;
        variable = next(variable, has_variable);
    }
    Ok(puts)
}

/// The puts whose variables have a true bit.
pub fn choice_of(alloc: Global, problem: &Problem, bits: &[bool]) -> Result<Choice, Memory>
    requires rooms { HasRooms problem.now }
    requires counted { length bits.now ≡ variables problem.now }
    ensures choice { IfOk result (λ choice. choice ≡ choice_of problem.now bits.now) }

    ensures ascending { IfOk result (λ choice. IsTrue (ascends problem.now.names.puts) → IsAscending choice) }

    // Where the puts ascend, bits that satisfy the clauses stand for a cover.
    ensures cover { IfOk result (λ choice.
        IsTrue (ascends problem.now.names.puts) → (clauses : Clauses) → AreClauses problem.now clauses →
        Satisfies bits.now clauses.list → IsCoverOf problem.now choice) }
{
    let usable = usable(alloc, problem)?;
    let puts = chosen_puts(alloc, problem, &usable, bits)?;
    Ok(Choice { puts })
}
