// The functions of a program, each with its places and calls.
ghost use Rattle.std.specs.Prelude.{◌≡◌, ◌++◌, IfOk, OnOk};
ghost use Rattle.c_meaning.specs.Place.{result_slot};
ghost use Rattle.c_graph.specs.Nodes.{places as places_of, spot_at as spot_in};
ghost use Rattle.cfg_lower.specs.Meant.{spot_of};
ghost use Rattle.cfg_lower.specs.Rows.{exit_places, goes_out as goes_out_in, row as row_in, rows_of, site_at, standing as standing_in, stands as stands_in};

use crate::forms::{Instruction, Spot};
use crate::listing::places;
use crate::places::{next_at, spot_at};
use crate::slots::slots;
use crate::tables::{CallSite, Row};
use c_tree::Program;
use mf_list::{Memory, Seq};
use std::alloc::Global;

fn is_place(spot: Spot) -> bool
    ensures { result ≡ stands_in (spot_of spot.entry) }
{
    match spot {
        Spot::AtGap(_) | Spot::AtAction(_) => true,
        Spot::Nowhere => false,
    }
}

/// The places of a function, `slot` being the nameless slot of its result.
fn all_places(
    alloc: Global,
    program: &Program,
    fun: usize,
    slot: Option<usize>,
) -> Result<Seq<Seq<usize>>, Memory>
    requires { slot ≡ result_slot program.now fun }
    ensures { IfOk result (λ list. list ≡ places_of program.now fun) }
{
    match program.funs.get(fun) {
        None => Ok(Seq::new(alloc)),
        Some(def) => places(alloc, slot, def),
    }
}

/// Those at which something stands.
fn standing(
    alloc: Global,
    program: &Program,
    fun: usize,
    slot: Option<usize>,
) -> Result<Seq<Seq<usize>>, Memory>
    requires { slot ≡ result_slot program.now fun }
    ensures { IfOk result (λ list. list ≡ standing_in program.now fun) }
{
    let all = all_places(alloc, program, fun, slot)?;
    let mut list = Seq::new(alloc);
    let paths = all.as_slice();
    for path in paths {
        if is_place(spot_at(program, fun, slot, path.as_slice())) {
            list.push(Seq::from_slice(alloc, path.as_slice())?)?;
        }
    }
    Ok(list)
}

/// Notes a call that stands at a path.
fn add_site(
    alloc: Global,
    calls: &mut Seq<CallSite>,
    program: &Program,
    fun: usize,
    slot: Option<usize>,
    path: &[usize],
) -> Result<(), Memory>
    requires { slot ≡ result_slot program.now fun }
    ensures { OnOk result (calls.new ≡ calls.old ++ site_at program.now fun path.now (spot_in program.now fun path.now)) }
{
    match spot_at(program, fun, slot, path) {
        Spot::AtAction(Instruction::Invoke(number, _, _, target)) => calls.push(CallSite {
            number,
            target,
            behind: next_at(alloc, program, fun, slot, None, path)?,
        }),
        _ => Ok(()),
    }
}

/// A function with its places and calls.
fn row(alloc: Global, program: &Program, fun: usize, slot: Option<usize>) -> Result<Row, Memory>
    requires { slot ≡ result_slot program.now fun }
    ensures { IfOk result (λ made. made ≡ row_in program.now fun) }
{
    let places = standing(alloc, program, fun, slot)?;
    let mut calls = Seq::new(alloc);
    let paths = places.as_slice();
    for path in paths {
        add_site(alloc, &mut calls, program, fun, slot, path.as_slice())?;
    }
    Ok(Row {
        slot,
        places,
        calls,
    })
}

/// The functions by number.
pub fn rows(alloc: Global, program: &Program) -> Result<Seq<Row>, Memory>
    ensures { IfOk result (λ rows. rows ≡ rows_of program.now) }
{
    let slots = slots(alloc, program)?;
    let mut rows = Seq::new(alloc);
    for fun in 0..program.funs.len() {
        rows.push(row(alloc, program, fun, *slots.at(fun))?)?;
    }
    Ok(rows)
}

fn goes_out(spot: Spot) -> bool
    ensures { result ≡ goes_out_in (spot_of spot.entry) }
{
    match spot {
        Spot::AtAction(Instruction::Return(_, _) | Instruction::Close(_, _)) => true,
        _ => false,
    }
}

/// The places of `main` behind which exits stand.
pub fn exits(alloc: Global, program: &Program, rows: &Seq<Row>) -> Result<Seq<Seq<usize>>, Memory>
    requires { rows.now ≡ rows_of program.now }
    ensures { IfOk result (λ list. list ≡ exit_places program.now) }
{
    let mut list = Seq::new(alloc);
    let Some(row) = rows.get(program.main) else {
        return Ok(list);
    };
    let paths = row.places.as_slice();
    for path in paths {
        if goes_out(spot_at(program, program.main, row.slot, path.as_slice())) {
            list.push(Seq::from_slice(alloc, path.as_slice())?)?;
        }
    }
    Ok(list)
}
