// What stands at a place of a function, and what follows it.
ghost use Rattle.std.specs.Prelude.{◌≡◌, ℕ, ◌+◌, ◌<◌, ◌^◌, [], ◌∷◌, Some, None, slice_get, option_map, Bool, Option, IfOk, OnSome};
ghost use Rattle.std.specs.Option.{option_copied};
ghost use Rattle.c_tree.specs.declared.program.Block.{Block as Body};
ghost use Rattle.c_tree.specs.declared.program.Block.{out-Block};
ghost use Rattle.c_tree.specs.declared.program.Item.{out-Item};
ghost use Rattle.c_meaning.specs.Parts.{Condition as AtCondition, Instruction as Action, One as AtOne, Row as AtRow};
ghost use Rattle.c_meaning.specs.Place.{By, Onward as Following, Spot as Standing, To};
ghost use Rattle.c_meaning.specs.Place.{behind_gap as behind_gap_in, behind_part as behind_part_in, brace_of, closing as closing_of, departed as departed_in, entered as entered_in, first_place as first_place_of, gap_at as gap_in, goes_back as goes_back_in, instruction_spot, item_at as item_in, next as next_of, next_in, next_in_fun as next_path, onward_path as path_of, part_at as part_in_block, reached as reached_in, result_slot as result_slot_of, spot_in, spot_in_fun as spot_in_function, spot_of as spot_in_block, spot_or_brace as spot_or_brace_of};
ghost use Rattle.cfg_lower.specs.Meant.{action_of, actions_of, departure_of, expr_of, goal_of, instruction_of, onward_of, part_of as part_meant, spot_of as spot_meant};

use crate::conditions::{behind_atom, first_of, test_of};
use crate::forms::{Departure, Goal, Instruction, Onward, Operand, Part, Row, Spot};
use crate::parts::{action_in, entry, goal, part_of, row_len};
use c_meaning::Stack;
use c_tree::{Block, FunDef, Item, Program};
use mf_list::{Memory, Seq};
use std::alloc::Global;

fn item_at<'a>(block: &'a Block, i: usize) -> Option<&'a Item>
    ensures item { option_map out-Item (option_copied result) ≡ item_in block.now i }
    ensures few { OnSome result (i + 1 < 2 ^ 64) }
{
    let items = block.items.as_slice();
    if i < items.len() {
        Some(&items[i].item)
    } else {
        None
    }
}

// what stands there

fn gap_at<'a>(block: &'a Block, i: usize) -> Spot<'a>
    ensures { spot_meant result ≡ gap_in block.now i (slice_get (out-Block block.now).items i) }
{
    let items = block.items.as_slice();
    if i < items.len() {
        Spot::AtGap(&items[i].gap)
    } else if i == items.len() {
        Spot::AtGap(&block.last_gap)
    } else {
        Spot::Nowhere
    }
}

fn spot_of_action<'a>(action: Option<Instruction<'a>>) -> Spot<'a>
    ensures { spot_meant result ≡ instruction_spot (action_of action.entry) }
{
    match action {
        Some(action) => Spot::AtAction(action),
        None => Spot::Nowhere,
    }
}

fn spot_in_one<'a>(path: &[usize], action: Option<Instruction<'a>>) -> Spot<'a>
    ensures { (inner : Body → Standing) → spot_meant result ≡ spot_in inner path.now (Some (AtOne (action_of action.entry))) }
{
    match path {
        [] => spot_of_action(action),
        [_, ..] => Spot::Nowhere,
    }
}

fn spot_in_row<'a>(path: &[usize], row: Row<'a>) -> Spot<'a>
    ensures { (inner : Body → Standing) → spot_meant result ≡ spot_in inner path.now (Some (AtRow (actions_of row.entry))) }
{
    match path {
        [k] => match action_in(row, *k) {
            Some(action) => spot_of_action(action),
            None => Spot::Nowhere,
        },
        _ => Spot::Nowhere,
    }
}

fn spot_in_condition<'a>(path: &[usize], condition: Operand<'a>) -> Spot<'a>
    ensures { (inner : Body → Standing) → spot_meant result ≡ spot_in inner path.now (Some (AtCondition (expr_of condition.entry))) }
{
    match test_of(path, condition) {
        Some(test) => Spot::AtAction(Instruction::Test(test)),
        None => Spot::Nowhere,
    }
}

fn part_at<'a>(slot: Option<usize>, block: &'a Block, i: usize, k: usize) -> Option<Part<'a>>
    ensures { option_map part_meant result ≡ part_in_block slot block.now i k }
{
    part_of(slot, item_at(block, i)?, k)
}

/// What stands at a path in a block. The recursion is as deep as blocks stand one within the other.
fn spot_of<'a>(slot: Option<usize>, path: &[usize], block: &'a Block) -> Spot<'a>
    ensures { spot_meant result ≡ spot_in_block slot path.now block.now }
{
    match path {
        [] => Spot::Nowhere,
        [i] => gap_at(block, *i),
        [i, k, rest @ ..] => match part_at(slot, block, *i, *k) {
            None => Spot::Nowhere,
            Some(Part::One(action)) => spot_in_one(rest, action),
            Some(Part::Row(row)) => spot_in_row(rest, row),
            Some(Part::Condition(condition)) => spot_in_condition(rest, condition),
            Some(Part::Within(inner)) => spot_of(slot, rest, inner),
        },
    }
}

// what follows

fn first_place(alloc: Global, part: Part) -> Result<Stack<usize>, Memory>
    ensures { IfOk result (λ path. path ≡ first_place_of (part_meant part.entry)) }
{
    let mut path = match part {
        Part::One(_) => return Ok(Stack::new(alloc)),
        Part::Condition(condition) => return first_of(alloc, condition),
        Part::Row(_) | Part::Within(_) => Stack::new(alloc),
    };
    path.push(0)?;
    Ok(path)
}

/// The gap with that number.
fn to_gap(alloc: Global, i: usize) -> Result<Onward, Memory>
    ensures { IfOk result (λ onward. onward_of onward ≡ To (i ∷ [])) }
{
    let mut path = Stack::new(alloc);
    path.push(i)?;
    Ok(Onward::To(path))
}

fn entered(alloc: Global, i: usize, k: usize, part: Option<Part>) -> Result<Onward, Memory>
    requires { i + 1 < 2 ^ 64 }
    ensures { IfOk result (λ onward. onward_of onward ≡ entered_in i k (option_map part_meant part.entry)) }
{
    match part {
        Some(part) => {
            let mut path = first_place(alloc, part)?;
            path.push(k)?;
            path.push(i)?;
            Ok(Onward::To(path))
        }
        None => to_gap(alloc, i + 1),
    }
}

fn departed(alloc: Global, i: usize, by: Departure) -> Result<Onward, Memory>
    requires { i + 1 < 2 ^ 64 }
    ensures { IfOk result (λ onward. onward_of onward ≡ departed_in i (departure_of by)) }
{
    match by {
        Departure::Through => to_gap(alloc, i + 1),
        Departure::Found(_) | Departure::Broken | Departure::Continued | Departure::Lost => {
            Ok(Onward::By(by))
        }
    }
}

fn reached(
    alloc: Global,
    slot: Option<usize>,
    i: usize,
    item: &Item,
    goal: Goal,
) -> Result<Onward, Memory>
    requires { i + 1 < 2 ^ 64 }
    ensures { IfOk result (λ onward. onward_of onward ≡ reached_in slot i (out-Item item.now) (goal_of goal)) }
{
    match goal {
        Goal::Into(k) => entered(alloc, i, k, part_of(slot, item, k)),
        Goal::Out(by) => departed(alloc, i, by),
    }
}

fn behind_gap(alloc: Global, slot: Option<usize>, block: &Block, i: usize) -> Result<Onward, Memory>
    ensures { IfOk result (λ onward. onward_of onward ≡ behind_gap_in slot i (item_in block.now i)) }
{
    match item_at(block, i) {
        Some(item) => reached(alloc, slot, i, item, entry(item)),
        None => Ok(Onward::By(Departure::Through)),
    }
}

fn behind_part(
    alloc: Global,
    slot: Option<usize>,
    i: usize,
    k: usize,
    item: &Item,
    inner: Onward,
) -> Result<Onward, Memory>
    requires item { i + 1 < 2 ^ 64 }
    requires part { k + 2 < 2 ^ 64 }
    ensures { IfOk result (λ onward. onward_of onward ≡ behind_part_in slot i k (onward_of inner) (out-Item item.now)) }
{
    match inner {
        Onward::To(mut path) => {
            path.push(k)?;
            path.push(i)?;
            Ok(Onward::To(path))
        }
        Onward::By(by) => reached(alloc, slot, i, item, goal(item, k, by)),
    }
}

fn behind_one(path: &[usize]) -> Departure
    ensures { (inner : Body → Following) (said : Option Bool) (a : Option Action) → By (departure_of result) ≡ next_in inner path.now said (Some (AtOne a)) }
{
    match path {
        [] => Departure::Through,
        [_, ..] => Departure::Lost,
    }
}

fn behind_in_row(alloc: Global, path: &[usize], row: Row) -> Result<Onward, Memory>
    ensures { (inner : Body → Following) (said : Option Bool) → IfOk result (λ onward. onward_of onward ≡ next_in inner path.now said (Some (AtRow (actions_of row.entry)))) }
{
    match path {
        [k] => {
            let count = row_len(row);
            if *k < count && *k + 1 < count {
                to_gap(alloc, *k + 1)
            } else {
                Ok(Onward::By(Departure::Through))
            }
        }
        _ => Ok(Onward::By(Departure::Lost)),
    }
}

/// What follows a path in a part.
#[cycle(next)]
fn next_in_part(
    alloc: Global,
    slot: Option<usize>,
    said: Option<bool>,
    path: &[usize],
    part: Part,
) -> Result<Onward, Memory>
    ensures { IfOk result (λ onward. onward_of onward ≡ next_in (next_of slot said path.now) path.now said (Some (part_meant part.entry))) }
{
    match part {
        Part::One(_) => Ok(Onward::By(behind_one(path))),
        Part::Row(row) => behind_in_row(alloc, path, row),
        Part::Condition(condition) => behind_atom(alloc, path, said, condition),
        Part::Within(block) => next(alloc, slot, said, path, block),
    }
}

/// What follows a path in a block, behind a test by what it says. The recursion is as deep as
/// blocks stand one within the other.
#[cycle(next)]
fn next(
    alloc: Global,
    slot: Option<usize>,
    said: Option<bool>,
    path: &[usize],
    block: &Block,
) -> Result<Onward, Memory>
    ensures { IfOk result (λ onward. onward_of onward ≡ next_of slot said path.now block.now) }
{
    let (i, k, rest) = match path {
        [] => return Ok(Onward::By(Departure::Lost)),
        [i] => return behind_gap(alloc, slot, block, *i),
        [i, k, rest @ ..] => (*i, *k, rest),
    };
    let Some(item) = item_at(block, i) else {
        return Ok(Onward::By(Departure::Lost));
    };
    let Some(part) = part_of(slot, item, k) else {
        return Ok(Onward::By(Departure::Lost));
    };
    let inner = next_in_part(alloc, slot, said, rest, part)?;
    behind_part(alloc, slot, i, k, item, inner)
}

// functions

fn goes_back(program: &Program, fun: usize, def: &FunDef) -> bool
    ensures { result ≡ goes_back_in program.now fun def.now.result }
{
    match def.result {
        None => true,
        Some(_) => fun == program.main,
    }
}

fn closing<'a>(program: &Program, fun: usize, def: &FunDef) -> Instruction<'a>
    ensures { instruction_of result ≡ closing_of program.now fun def.now }
{
    Instruction::Close(goes_back(program, fun, def), def.body.end.saturating_sub(1))
}

pub fn brace(block: &Block) -> usize
    ensures { result ≡ brace_of block.now }
{
    block.items.as_slice().len() + 1
}

/// What stands at a path in a function, `slot` being the nameless slot of its result.
pub fn spot_at<'a>(
    program: &'a Program,
    fun: usize,
    slot: Option<usize>,
    path: &[usize],
) -> Spot<'a>
    requires { slot ≡ result_slot_of program.now fun }
    ensures { spot_meant result ≡ spot_in_function program.now fun (slice_get program.now.funs fun) path.now }
{
    match program.funs.get(fun) {
        None => Spot::Nowhere,
        Some(def) => spot_or_brace(program, fun, slot, def, path),
    }
}

fn spot_or_brace<'a>(
    program: &Program,
    fun: usize,
    slot: Option<usize>,
    def: &'a FunDef,
    path: &[usize],
) -> Spot<'a>
    requires { slot ≡ result_slot_of program.now fun }
    ensures { spot_meant result ≡ spot_or_brace_of program.now fun def.now path.now }
{
    match path {
        [] => Spot::Nowhere,
        [i] => {
            if *i == brace(&def.body) {
                Spot::AtAction(closing(program, fun, def))
            } else {
                spot_of(slot, path, &def.body)
            }
        }
        [_, _, ..] => spot_of(slot, path, &def.body),
    }
}

/// The path that a stack of steps down spells, the outermost first.
fn path_from(alloc: Global, steps: Stack<usize>) -> Result<Seq<usize>, Memory>
    ensures { IfOk result (λ path. path ≡ steps) }
{
    let mut path = Seq::new(alloc);
    let mut left = steps;
    while let Some(step) = left.pop() {
        path.push(step)?;
    }
    Ok(path)
}

fn path_onward(alloc: Global, body: &Block, onward: Onward) -> Result<Seq<usize>, Memory>
    ensures { IfOk result (λ path. path ≡ path_of body.now (onward_of onward)) }
{
    match onward {
        Onward::To(steps) => path_from(alloc, steps),
        Onward::By(Departure::Through) => Seq::from_slice(alloc, &[brace(body)]),
        Onward::By(_) => Ok(Seq::new(alloc)),
    }
}

/// What follows a path in a function, behind a test by what it says; no path where control is lost.
pub fn next_at(
    alloc: Global,
    program: &Program,
    fun: usize,
    slot: Option<usize>,
    said: Option<bool>,
    path: &[usize],
) -> Result<Seq<usize>, Memory>
    requires { slot ≡ result_slot_of program.now fun }
    ensures { IfOk result (λ next. next ≡ next_path program.now fun (slice_get program.now.funs fun) said path.now) }
{
    match program.funs.get(fun) {
        None => Ok(Seq::new(alloc)),
        Some(def) => {
            let onward = next(alloc, slot, said, path, &def.body)?;
            path_onward(alloc, &def.body, onward)
        }
    }
}
