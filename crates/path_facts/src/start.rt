// The facts before a run.
ghost use Rattle.std.specs.Prelude.{◌≡◌, ◌⊎◌, ◌<◌, true, length, slice_get, IfOk};
ghost use Rattle.c_tree.specs.declared.program.VarDef.{VarDef};
ghost use Rattle.ts_domain.specs.Facts.{is_fact};
ghost use Rattle.ts_domain.specs.Path.{is_global, is_global_home, same_bool, true_at_start};
ghost use Rattle.ts_domain.specs.Pointers.{has_home};
ghost use Rattle.path_facts.specs.Corrections.{Corrects};
ghost use Rattle.path_facts.specs.Numbering.{IsNumbering, room_of};
ghost use Rattle.path_facts.specs.Start.{IsFull, IsStart, is_equal_of, is_started, is_started_at};

use crate::corrections::put;
use crate::numbering::{Numbering, number};
use c_tree::Home;
use mf_list::Memory;
use mf_set::BitSet;
use std::alloc::Global;
use ts_domain::{Fact, Names};

fn is_global_home(home: Home) -> bool
    ensures { result ≡ is_global_home home }
{
    match home {
        Home::Global(_) => true,
        Home::Param(_) | Home::Local(_) | Home::Result(_) => false,
    }
}

fn has_global_home(names: &Names, variable: usize) -> bool
    ensures { result ≡ has_home names.now is_global_home variable }
{
    match names.decls.get(variable) {
        None => false,
        Some(decl) => is_global_home(decl.home),
    }
}

fn is_global(names: &Names, place: usize) -> bool
    ensures { result ≡ is_global names.now place }
{
    match names.vars.get(place) {
        None => false,
        Some(variable) => has_global_home(names, *variable),
    }
}

fn same_bool(a: bool, b: bool) -> bool
    ensures { result ≡ same_bool a b }
{
    if a { b } else { !b }
}

fn true_at_start(names: &Names, fact: Fact) -> bool
    ensures { result ≡ true_at_start names.now fact }
{
    match fact {
        Fact::Ready(x) => is_global(names, x),
        Fact::Full(_) => false,
        Fact::Filled(_) => true,
        Fact::Equal(x, y) => same_bool(is_global(names, x), is_global(names, y)),
        Fact::Apart(_, _) => true,
    }
}

/// The set of all numbers below the room.
pub fn full(alloc: Global, room: usize) -> Result<BitSet, Memory>
    ensures { IfOk result (IsFull room) }
{
    let mut set = BitSet::with_room(alloc, room)?;
    for number in 0..room {
        set.insert(number);
    }
    Ok(set)
}

fn start_fact(names: &Names, numbering: &Numbering, set: &mut BitSet, fact: Fact)
    requires numbering { IsNumbering names.now numbering.now }
    requires room { set.old.room ≡ room_of names.now }
    requires fact { is_fact names.now fact ≡ true }
    ensures { Corrects names.now (true_at_start names.now) (λ f. f ≡ fact) set.old set.new }
{
    let value = true_at_start(names, fact);
    put(set, number(numbering, fact), value);
}

fn start_equals(names: &Names, numbering: &Numbering, set: &mut BitSet, variable: usize)
    requires numbering { IsNumbering names.now numbering.now }
    requires room { set.old.room ≡ room_of names.now }
    requires within { variable < length names.now.vars }
    ensures { Corrects names.now (true_at_start names.now) (λ f. is_equal_of variable variable f ≡ true) set.old set.new }
{
    for other in 0..variable {
        start_fact(names, numbering, set, Fact::Equal(other, variable));
    }
}

fn start_variable(names: &Names, numbering: &Numbering, set: &mut BitSet, variable: usize)
    requires numbering { IsNumbering names.now numbering.now }
    requires room { set.old.room ≡ room_of names.now }
    requires within { variable < length names.now.vars }
    ensures { Corrects names.now (true_at_start names.now) (λ f. is_started_at variable f ≡ true) set.old set.new }
{
    start_fact(names, numbering, set, Fact::Ready(variable));
    start_fact(names, numbering, set, Fact::Full(variable));
    start_equals(names, numbering, set, variable);
}

fn start_variables(names: &Names, numbering: &Numbering, set: &mut BitSet)
    requires numbering { IsNumbering names.now numbering.now }
    requires room { set.old.room ≡ room_of names.now }
    ensures { Corrects names.now (true_at_start names.now) (λ f. is_started (length names.now.vars) f ≡ true) set.old set.new }
{
    for variable in 0..names.vars.len() {
        start_variable(names, numbering, set, variable);
    }
}

/// The facts that are true before a run.
pub fn start_set(
    alloc: Global,
    names: &Names,
    numbering: &Numbering,
    all: &BitSet,
) -> Result<BitSet, Memory>
    requires numbering { IsNumbering names.now numbering.now }
    requires full { IsFull (room_of names.now) all.now }
    ensures { IfOk result (IsStart names.now) }
{
    let mut set = all.copy(alloc)?;
    start_variables(names, numbering, &mut set);
    Ok(set)
}
