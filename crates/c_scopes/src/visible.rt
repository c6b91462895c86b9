// The variables in scope at a gap of a program (C99 6.2.1).
ghost use Rattle.std.specs.Prelude.{◌≡◌, ◌<◌, [], ◌∷◌, IfOk, Some, drop, slice_get};
ghost use Rattle.c_tree.specs.WellFormed.{IsWellFormed};
ghost use Rattle.c_scopes.specs.ScopeAt.{Ascending, is_global, is_from, scope_at, scopes, so_far, stands_before, up_to, vars_at};
ghost use Rattle.c_scopes.specs.Turns.{is_gap, rows_from, scope_of};

use crate::in_scope::InScope;
use crate::walk::{Turn, turns};
use c_tree::{FunDef, Home, Program, VarDef};
use mf_list::{Memory, Seq};
use std::alloc::Global;

fn is_global(home: Home) -> bool
    ensures { result ≡ is_global home }
{
    matches!(home, Home::Global(_))
}

fn is_from(function: usize, home: Home) -> bool
    ensures { result ≡ is_from function home }
{
    match home {
        Home::Global(_) => false,
        Home::Param(f) => function <= f,
        Home::Local(f) => function <= f,
        Home::Result(f) => function <= f,
    }
}

fn stands_before(function: usize, fun: &FunDef, var: &VarDef) -> bool
    ensures { result ≡ stands_before function fun.now var.now }
{
    var.at < fun.at && !is_from(function, var.home)
}

/// Adds the globals before a function, of the variables from the one numbered `count` on. The
/// number of the first variable that isn't before it is the answer.
pub fn up_to(
    seen: &mut Seq<usize>,
    vars: &[VarDef],
    count: usize,
    function: usize,
    fun: &FunDef,
) -> Result<usize, Memory>
    ensures { IfOk result (λ n. so_far n seen.new ≡ up_to function fun.now (drop count vars.now) (so_far count seen.old)) }
{
    let mut next = count;
    while next < vars.len() && stands_before(function, fun, &vars[next]) {
        if is_global(vars[next].home) {
            seen.push(next)?;
        }
        next += 1;
    }
    Ok(next)
}

fn is_gap(turn: Turn, gap: usize) -> bool
    ensures { result ≡ is_gap turn gap }
{
    match turn {
        Turn::Gap(number) => number == gap,
        Turn::Open => false,
        Turn::See(_) => false,
        Turn::Close => false,
    }
}

/// The variables in scope at the first gap of that number.
fn vars_at(alloc: Global, turns: &[Turn], gap: usize) -> Result<Seq<usize>, Memory>
    ensures { IfOk result (λ vars. vars ≡ vars_at gap (rows_from (scope_of [] []) turns.now)) }
{
    let mut scope = InScope::new(alloc);
    for turn in turns {
        if is_gap(*turn, gap) {
            return Ok(scope.vars);
        }
        scope.turn(*turn)?;
    }
    Ok(Seq::new(alloc))
}

/// The variables in scope at a gap of a well-formed program, ascending.
pub fn scope_at(alloc: Global, p: &Program, gap: usize) -> Result<Seq<usize>, Memory>
    ensures value { IfOk result (λ vars. vars ≡ scope_at p.now gap) }
    ensures row { IsWellFormed p.now → gap < p.now.gaps → IfOk result (λ vars. slice_get (scopes p.now) gap ≡ Some (record { gap = gap; vars = vars })) }
    ensures ascending { IsWellFormed p.now → IfOk result Ascending }
{
    let turns = turns(alloc, p, &[])?;
    vars_at(alloc, turns.as_slice(), gap)
}
