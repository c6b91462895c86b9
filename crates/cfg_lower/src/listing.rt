// The places of a function, in the order of the text.
ghost use Rattle.std.specs.Prelude.{◌≡◌, ◌++◌, ◌*◌, [], ◌∷◌, map, length, option_map, OnOk, IfOk};
ghost use Rattle.c_tree.specs.declared.program.Item.{out-Item};
ghost use Rattle.c_meaning.specs.Parts.{One as AtOne, arm_parts, declared as declared_in, else_parts, last_row, parts, returned, started as started_in};
ghost use Rattle.c_meaning.specs.Place.{arm_body, arm_test, instruction_places, brace_of, places_of, tests_of};
ghost use Rattle.cfg_lower.specs.Listing.{below_all, head_below, ones, parts_below, piece_below, tests_behind};
ghost use Rattle.cfg_lower.specs.Meant.{action_of, expr_of};

use crate::forms::{Instruction, Operand};
use crate::parts::{assigned, called, condition, declared, slot_operand, started};
use crate::places::brace;
use c_tree::{
    Arm, Block, Declr, Expr, ForHead, FunDef, Item, Oper, Piece, Right, Sign, Simple, Start,
};
use mf_list::{Memory, Seq};
use std::alloc::Global;

/// One step further down.
fn below(alloc: Global, prefix: &[usize], k: usize) -> Result<Seq<usize>, Memory>
    ensures { IfOk result (λ path. path ≡ prefix.now ++ k ∷ []) }
{
    let mut path = Seq::from_slice(alloc, prefix)?;
    path.push(k)?;
    Ok(path)
}

/// The place of an action, unless it is excluded.
fn add_action(
    alloc: Global,
    list: &mut Seq<Seq<usize>>,
    prefix: &[usize],
    k: usize,
    action: Option<Instruction>,
) -> Result<(), Memory>
    ensures { OnOk result (list.new ≡ list.old ++ below_all (prefix.now ++ k ∷ []) (instruction_places (action_of action.entry))) }
{
    match action {
        None => Ok(()),
        Some(_) => list.push(below(alloc, prefix, k)?),
    }
}

// conditions

#[cycle(tests)]
fn add_operand(
    alloc: Global,
    list: &mut Seq<Seq<usize>>,
    prefix: &[usize],
    k: usize,
    expr: &Expr,
) -> Result<(), Memory>
    ensures { OnOk result (list.new ≡ list.old ++ tests_behind expr.now (prefix.now ++ k ∷ [])) }
{
    let path = below(alloc, prefix, k)?;
    add_tests(alloc, list, path.as_slice(), expr)
}

/// The atomic tests of a condition.
#[cycle(tests)]
fn add_tests(
    alloc: Global,
    list: &mut Seq<Seq<usize>>,
    prefix: &[usize],
    expr: &Expr,
) -> Result<(), Memory>
    ensures { OnOk result (list.new ≡ list.old ++ tests_behind expr.now prefix.now) }
{
    match expr {
        Expr::Unary(Sign::Not, of, _) => add_operand(alloc, list, prefix, 0, of.get()),
        Expr::Binary(Oper::And | Oper::Or, left, right, _) => {
            add_operand(alloc, list, prefix, 0, left.get())?;
            add_operand(alloc, list, prefix, 1, right.get())
        }
        _ => list.push(Seq::from_slice(alloc, prefix)?),
    }
}

/// A condition, whose tests stand one step further down.
#[tactic(auto, using(crate::proofs::Listings::behind_is_below))]
fn add_test(
    alloc: Global,
    list: &mut Seq<Seq<usize>>,
    prefix: &[usize],
    k: usize,
    expr: &Expr,
) -> Result<(), Memory>
    ensures { OnOk result (list.new ≡ list.old ++ below_all (prefix.now ++ k ∷ []) (tests_of expr.now)) }
{
    add_operand(alloc, list, prefix, k, expr)
}

#[tactic(auto, using(crate::proofs::Listings::behind_is_below))]
fn add_condition(
    alloc: Global,
    list: &mut Seq<Seq<usize>>,
    prefix: &[usize],
    test: Operand,
) -> Result<(), Memory>
    ensures { OnOk result (list.new ≡ list.old ++ below_all prefix.now (tests_of (expr_of test.entry))) }
{
    match test {
        Operand::Written(test) => add_tests(alloc, list, prefix, test),
        Operand::Variable(_, _) | Operand::One => list.push(Seq::from_slice(alloc, prefix)?),
    }
}

// actions

fn add_declrs(
    alloc: Global,
    list: &mut Seq<Seq<usize>>,
    prefix: &[usize],
    declrs: &[Declr],
) -> Result<(), Memory>
    ensures { OnOk result (list.new ≡ list.old ++ parts_below None prefix.now 0 (map (λ d. AtOne (declared_in d d.right)) declrs.now)) }
{
    for (k, declr) in declrs.iter().enumerate() {
        add_action(alloc, list, prefix, k, declared(declr))?;
    }
    Ok(())
}

fn add_starts(
    alloc: Global,
    list: &mut Seq<Seq<usize>>,
    prefix: &[usize],
    starts: &[Start],
) -> Result<(), Memory>
    ensures { OnOk result (list.new ≡ list.old ++ parts_below None prefix.now 0 (map (λ s. AtOne (started_in s)) starts.now)) }
{
    for (k, start) in starts.iter().enumerate() {
        add_action(alloc, list, prefix, k, started(start))?;
    }
    Ok(())
}

fn add_step(
    alloc: Global,
    list: &mut Seq<Seq<usize>>,
    prefix: &[usize],
    step: &Option<Simple>,
) -> Result<(), Memory>
    ensures { OnOk result (list.new ≡ list.old ++ parts_below None prefix.now 0 (ones (last_row step.now))) }
{
    match step {
        None => Ok(()),
        Some(step) => add_action(alloc, list, prefix, 0, assigned(step)),
    }
}

/// What stands before the body of a `for`: its starts, its test and its step.
fn add_head(
    alloc: Global,
    list: &mut Seq<Seq<usize>>,
    prefix: &[usize],
    head: &ForHead,
) -> Result<(), Memory>
    ensures { OnOk result (list.new ≡ list.old ++ head_below prefix.now head.now) }
{
    let path = below(alloc, prefix, 0)?;
    add_starts(alloc, list, path.as_slice(), head.start.as_slice())?;
    let path = below(alloc, prefix, 1)?;
    add_condition(alloc, list, path.as_slice(), condition(&head.test))?;
    let path = below(alloc, prefix, 2)?;
    add_step(alloc, list, path.as_slice(), &head.step)
}

fn add_return(
    alloc: Global,
    list: &mut Seq<Seq<usize>>,
    slot: Option<usize>,
    prefix: &[usize],
    value: &Option<Right>,
    at: usize,
) -> Result<(), Memory>
    ensures { OnOk result (list.new ≡ list.old ++ parts_below slot prefix.now 0 (ones (returned slot value.now at))) }
{
    let Some(Right::Call(call)) = value else {
        return list.push(below(alloc, prefix, 0)?);
    };
    add_action(alloc, list, prefix, 0, called(slot_operand(slot, at), call))?;
    list.push(below(alloc, prefix, 1)?)
}

// blocks

#[cycle(places)]
fn add_item(
    alloc: Global,
    list: &mut Seq<Seq<usize>>,
    slot: Option<usize>,
    prefix: &[usize],
    item: &Item,
) -> Result<(), Memory>
    ensures { OnOk result (list.new ≡ list.old ++ parts_below slot prefix.now 0 (parts arm_test arm_body slot (out-Item item.now))) }
{
    match item {
        Item::Declare(declrs) => add_declrs(alloc, list, prefix, declrs.as_slice()),
        Item::Assign(simple) => add_action(alloc, list, prefix, 0, assigned(simple)),
        Item::Do(call) => add_action(alloc, list, prefix, 0, called(None, call)),
        Item::Nest(block) => {
            let path = below(alloc, prefix, 0)?;
            add_block(alloc, list, slot, path.as_slice(), block)
        }
        Item::If(arms, otherwise) => {
            let arms = arms.as_slice();
            add_arms(alloc, list, slot, prefix, arms)?;
            match otherwise {
                None => Ok(()),
                Some(block) => {
                    let path = below(alloc, prefix, 2 * arms.len())?;
                    add_block(alloc, list, slot, path.as_slice(), block)
                }
            }
        }
        Item::While(test, body) => {
            add_test(alloc, list, prefix, 0, test)?;
            let path = below(alloc, prefix, 1)?;
            add_block(alloc, list, slot, path.as_slice(), body)
        }
        Item::For(head, body) => {
            add_head(alloc, list, prefix, head)?;
            let path = below(alloc, prefix, 3)?;
            add_block(alloc, list, slot, path.as_slice(), body)
        }
        Item::Break => Ok(()),
        Item::Continue => Ok(()),
        Item::Return(value, at) => add_return(alloc, list, slot, prefix, value, *at),
    }
}

#[cycle(places)]
fn add_arms(
    alloc: Global,
    list: &mut Seq<Seq<usize>>,
    slot: Option<usize>,
    prefix: &[usize],
    arms: &[Arm],
) -> Result<(), Memory>
    ensures { OnOk result (list.new ≡ list.old ++ parts_below slot prefix.now 0 (arm_parts arm_test arm_body arms.now)) }
{
    for (j, arm) in arms.iter().enumerate() {
        add_test(alloc, list, prefix, 2 * j, &arm.test)?;
        let path = below(alloc, prefix, 2 * j + 1)?;
        add_block(alloc, list, slot, path.as_slice(), &arm.body)?;
    }
    Ok(())
}

#[cycle(places)]
#[tactic(auto, using(crate::proofs::Listings::block_lists))]
fn add_block(
    alloc: Global,
    list: &mut Seq<Seq<usize>>,
    slot: Option<usize>,
    prefix: &[usize],
    block: &Block,
) -> Result<(), Memory>
    ensures { OnOk result (list.new ≡ list.old ++ below_all prefix.now (places_of slot block.now)) }
{
    let pieces = block.items.as_slice();
    for (i, piece) in pieces.iter().enumerate() {
        add_piece(alloc, list, slot, prefix, i, piece)?;
    }
    list.push(below(alloc, prefix, pieces.len())?)
}

/// A gap, and the places of the item behind it.
#[cycle(places)]
fn add_piece(
    alloc: Global,
    list: &mut Seq<Seq<usize>>,
    slot: Option<usize>,
    prefix: &[usize],
    i: usize,
    piece: &Piece,
) -> Result<(), Memory>
    ensures { OnOk result (list.new ≡ list.old ++ piece_below slot (prefix.now ++ i ∷ []) piece.now) }
{
    let path = below(alloc, prefix, i)?;
    list.push(below(alloc, prefix, i)?)?;
    add_item(alloc, list, slot, path.as_slice(), &piece.item)
}

/// The places of a function, `slot` being the nameless slot of its result.
pub fn places(alloc: Global, slot: Option<usize>, def: &FunDef) -> Result<Seq<Seq<usize>>, Memory>
    ensures { IfOk result (λ list. list ≡ places_of slot def.now.body ++ (brace_of def.now.body ∷ []) ∷ []) }
{
    let mut list = Seq::new(alloc);
    add_block(alloc, &mut list, slot, &[], &def.body)?;
    list.push(below(alloc, &[], brace(&def.body))?)?;
    Ok(list)
}
