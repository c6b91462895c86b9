// The calls of users' functions in each function, in the order of the text.
ghost use Rattle.std.specs.Prelude.{◌≡◌, ◌++◌, IfOk, OnOk};
ghost use Rattle.std.specs.List.{flat_map};
ghost use Rattle.call_contexts.specs.Calls.{calls_by_function};
ghost use Rattle.c_tree.specs.UserCalls.{arm_calls_in, call_calls, calls_in, declr_calls, from_option, head_calls, item_calls_in, piece_calls_in, right_calls, simple_calls, start_calls};

use c_tree::{Arm, Block, Call, Declr, ForHead, Item, Piece, Program, Right, Start, UserCall};
use mf_list::{Memory, Seq};
use sqlite_items::Items;
use std::alloc::Global;

fn add_call(list: &mut Seq<UserCall>, caller: usize, call: &Call) -> Result<(), Memory>
    ensures { OnOk result (list.new ≡ list.old ++ call_calls caller call.now) }
{
    match call {
        Call::User(number, callee, _, at) => list.push(UserCall {
            number: *number,
            caller,
            callee: *callee,
            at: *at,
        }),
        Call::Malloc(_, _) => Ok(()),
        Call::Getchar(_) => Ok(()),
        Call::Putchar(_, _) => Ok(()),
        Call::Printf(_, _, _) => Ok(()),
    }
}

fn add_right(list: &mut Seq<UserCall>, caller: usize, right: &Right) -> Result<(), Memory>
    ensures { OnOk result (list.new ≡ list.old ++ right_calls caller right.now) }
{
    match right {
        Right::Plain(_) => Ok(()),
        Right::Call(call) => add_call(list, caller, call),
    }
}

fn add_any(list: &mut Seq<UserCall>, caller: usize, right: &Option<Right>) -> Result<(), Memory>
    ensures { OnOk result (list.new ≡ list.old ++ from_option (right_calls caller) right.now) }
{
    match right {
        None => Ok(()),
        Some(right) => add_right(list, caller, right),
    }
}

fn add_declrs(list: &mut Seq<UserCall>, caller: usize, declrs: &[Declr]) -> Result<(), Memory>
    ensures { OnOk result (list.new ≡ list.old ++ flat_map (declr_calls caller) declrs.now) }
{
    for declr in declrs {
        add_any(list, caller, &declr.right)?;
    }
    Ok(())
}

fn add_start(list: &mut Seq<UserCall>, caller: usize, start: &Start) -> Result<(), Memory>
    ensures { OnOk result (list.new ≡ list.old ++ start_calls caller start.now) }
{
    match start {
        Start::Declare(declr) => add_any(list, caller, &declr.right),
        Start::Assign(simple) => add_right(list, caller, &simple.right),
    }
}

fn add_starts(list: &mut Seq<UserCall>, caller: usize, starts: &[Start]) -> Result<(), Memory>
    ensures { OnOk result (list.new ≡ list.old ++ flat_map (start_calls caller) starts.now) }
{
    for start in starts {
        add_start(list, caller, start)?;
    }
    Ok(())
}

fn add_head(list: &mut Seq<UserCall>, caller: usize, head: &ForHead) -> Result<(), Memory>
    ensures { OnOk result (list.new ≡ list.old ++ head_calls caller head.now) }
{
    add_starts(list, caller, head.start.as_slice())?;
    match &head.step {
        None => Ok(()),
        Some(step) => add_right(list, caller, &step.right),
    }
}

#[cycle(calls)]
fn add_block(list: &mut Seq<UserCall>, caller: usize, block: &Block) -> Result<(), Memory>
    ensures { OnOk result (list.new ≡ list.old ++ calls_in caller block.now) }
{
    let pieces = block.items.as_slice();
    for piece in pieces {
        add_piece(list, caller, piece)?;
    }
    Ok(())
}

#[cycle(calls)]
fn add_piece(list: &mut Seq<UserCall>, caller: usize, piece: &Piece) -> Result<(), Memory>
    ensures { OnOk result (list.new ≡ list.old ++ piece_calls_in caller piece.now) }
{
    add_item(list, caller, &piece.item)
}

#[cycle(calls)]
fn add_item(list: &mut Seq<UserCall>, caller: usize, item: &Item) -> Result<(), Memory>
    ensures { OnOk result (list.new ≡ list.old ++ item_calls_in caller item.now) }
{
    match item {
        Item::Declare(declrs) => add_declrs(list, caller, declrs.as_slice()),
        Item::Assign(simple) => add_right(list, caller, &simple.right),
        Item::Do(call) => add_call(list, caller, call),
        Item::Nest(block) => add_block(list, caller, block),
        Item::If(arms, last) => {
            add_arms(list, caller, arms)?;
            add_last(list, caller, last)
        }
        Item::While(_, body) => add_block(list, caller, body),
        Item::For(head, body) => {
            add_head(list, caller, head)?;
            add_block(list, caller, body)
        }
        Item::Break => Ok(()),
        Item::Continue => Ok(()),
        Item::Return(right, _) => add_any(list, caller, right),
    }
}

#[cycle(calls)]
fn add_arms(list: &mut Seq<UserCall>, caller: usize, arms: &Items<Arm>) -> Result<(), Memory>
    ensures { OnOk result (list.new ≡ list.old ++ flat_map (arm_calls_in caller) arms.now) }
{
    let slice = arms.as_slice();
    for arm in slice {
        add_block(list, caller, &arm.body)?;
    }
    Ok(())
}

#[cycle(calls)]
fn add_last(list: &mut Seq<UserCall>, caller: usize, last: &Option<Block>) -> Result<(), Memory>
    ensures { OnOk result (list.new ≡ list.old ++ from_option (calls_in caller) last.now) }
{
    match last {
        None => Ok(()),
        Some(block) => add_block(list, caller, block),
    }
}

/// The calls of each function.
pub fn calls_by_function(alloc: Global, program: &Program) -> Result<Seq<Seq<UserCall>>, Memory>
    ensures { IfOk result (λ rows. rows ≡ calls_by_function program.now) }
{
    let mut rows = Seq::new(alloc);
    let funs = program.funs.as_slice();
    for (caller, fun) in funs.iter().enumerate() {
        let mut calls = Seq::new(alloc);
        add_block(&mut calls, caller, &fun.body)?;
        rows.push(calls)?;
    }
    Ok(rows)
}
