// Copies of a program with its gaps as they are, emptied or filled.
ghost use Rattle.std.specs.Prelude.{◌≡◌, ◌↔◌, IfOk, IsTrue, map};
ghost use Rattle.std.specs.Option.{option_copied};
ghost use Rattle.c_tree.specs.Fill.{IsAscending, ascends, filled, free_of as freed_put, puts_at};
ghost use Rattle.c_tree.specs.Fill.{regapped, regapped_block, regapped_fun};
ghost use Rattle.c_tree.specs.Fill.{fill as filled_program, skeleton as skeleton_of};
ghost use Rattle.c_tree.specs.WellFormed.{FreesFit, IsWellFormed, PutsFit};
ghost use Rattle.c_tree.specs.Copies.{AnyAscends, regap};
ghost use Rattle.c_tree.specs.Copies.{regapped_arm, regapped_item, regapped_piece};

use crate::choice::{Choice, Put};
use crate::duplicate::Duplicate;
use crate::expr::Expr;
use crate::program::{Arm, Block, Free, FunDef, Gap, Item, Piece, Program};
use mf_list::{Memory, Seq};
use sqlite_items::{Boxed, Items};
use std::alloc::Global;

/// The puts of a gap.
pub fn puts_of(puts: &[Put], gap: usize) -> &[Put]
    requires { IsTrue (ascends puts.now) }
    ensures { result.now ≡ puts_at puts.now gap }
{
    let start = puts.partition_point(|put| put.gap < gap);
    let end = puts.partition_point(|put| put.gap <= gap);
    &puts[start..end]
}

fn free_of(alloc: Global, put: &Put) -> Result<Free, Memory>
    ensures { IfOk result (λ free. free ≡ freed_put put.now) }
{
    let base = Expr::Var(put.var, 0);
    match put.field {
        None => Ok(Free {
            expr: base,
            start: 0,
            end: 0,
        }),
        Some(field) => {
            let expr = Expr::Field(Boxed::new(alloc, base)?, field, 0);
            Ok(Free {
                expr,
                start: 0,
                end: 0,
            })
        }
    }
}

fn filled_gap(alloc: Global, gap: &Gap, puts: &[Put]) -> Result<Gap, Memory>
    requires { IsTrue (ascends puts.now) }
    ensures { IfOk result (λ copy. copy ≡ filled puts.now gap.now) }
{
    let mut frees = Seq::new(alloc);
    let here = puts_of(puts, gap.number);
    for put in here {
        frees.push(free_of(alloc, put)?)?;
    }
    Ok(Gap {
        number: gap.number,
        frees,
    })
}

fn copied_gap(alloc: Global, gap: &Gap, puts: Option<&[Put]>) -> Result<Gap, Memory>
    requires { AnyAscends (option_copied puts) }
    ensures { IfOk result (λ copy. copy ≡ regap (option_copied puts.entry) gap.now) }
{
    match puts {
        None => gap.duplicate(alloc),
        Some(puts) => filled_gap(alloc, gap, puts),
    }
}

/// A copy in which each gap has the frees of its puts or, where there is no list of puts, its own.
#[cycle(copies)]
fn copied_block(alloc: Global, block: &Block, puts: Option<&[Put]>) -> Result<Block, Memory>
    requires { AnyAscends (option_copied puts) }
    ensures { let new_gap = regap (option_copied puts.entry) in
        IfOk result (λ copy. copy ≡ regapped_block new_gap block.now) }
{
    let mut items = Items::new(alloc);
    let pieces = block.items.as_slice();
    for piece in pieces {
        items.push(copied_piece(alloc, piece, puts)?)?;
    }
    Ok(Block {
        items,
        last_gap: copied_gap(alloc, &block.last_gap, puts)?,
        braced: block.braced,
        start: block.start,
        end: block.end,
    })
}

#[cycle(copies)]
fn copied_piece(alloc: Global, piece: &Piece, puts: Option<&[Put]>) -> Result<Piece, Memory>
    requires { AnyAscends (option_copied puts) }
    ensures { let new_gap = regap (option_copied puts.entry) in
        IfOk result (λ copy. copy ≡ regapped_piece new_gap piece.now) }
{
    Ok(Piece {
        gap: copied_gap(alloc, &piece.gap, puts)?,
        item: copied_item(alloc, &piece.item, puts)?,
        start: piece.start,
        end: piece.end,
    })
}

#[cycle(copies)]
fn copied_item(alloc: Global, item: &Item, puts: Option<&[Put]>) -> Result<Item, Memory>
    requires { AnyAscends (option_copied puts) }
    ensures { let new_gap = regap (option_copied puts.entry) in
        IfOk result (λ copy. copy ≡ regapped_item new_gap item.now) }
{
    match item {
        Item::Declare(declrs) => Ok(Item::Declare(declrs.duplicate(alloc)?)),
        Item::Assign(simple) => Ok(Item::Assign(simple.duplicate(alloc)?)),
        Item::Do(call) => Ok(Item::Do(call.duplicate(alloc)?)),
        Item::Nest(block) => Ok(Item::Nest(copied_block(alloc, block, puts)?)),
        Item::If(arms, None) => Ok(Item::If(copied_arms(alloc, arms, puts)?, None)),
        Item::If(arms, Some(otherwise)) => {
            let arms = copied_arms(alloc, arms, puts)?;
            Ok(Item::If(arms, Some(copied_block(alloc, otherwise, puts)?)))
        }
        Item::While(test, body) => {
            let test = test.duplicate(alloc)?;
            Ok(Item::While(test, copied_block(alloc, body, puts)?))
        }
        Item::For(head, body) => {
            let head = head.duplicate(alloc)?;
            Ok(Item::For(head, copied_block(alloc, body, puts)?))
        }
        Item::Break => Ok(Item::Break),
        Item::Continue => Ok(Item::Continue),
        Item::Return(value, at) => Ok(Item::Return(value.duplicate(alloc)?, *at)),
    }
}

#[cycle(copies)]
fn copied_arms(alloc: Global, arms: &Items<Arm>, puts: Option<&[Put]>) -> Result<Items<Arm>, Memory>
    requires { AnyAscends (option_copied puts) }
    ensures { let new_gap = regap (option_copied puts.entry) in
        IfOk result (λ copy. copy ≡ map (regapped_arm new_gap) arms.now) }
{
    let mut copy = Items::new(alloc);
    let arms = arms.as_slice();
    for arm in arms {
        copy.push(copied_arm(alloc, arm, puts)?)?;
    }
    Ok(copy)
}

#[cycle(copies)]
fn copied_arm(alloc: Global, arm: &Arm, puts: Option<&[Put]>) -> Result<Arm, Memory>
    requires { AnyAscends (option_copied puts) }
    ensures { let new_gap = regap (option_copied puts.entry) in
        IfOk result (λ copy. copy ≡ regapped_arm new_gap arm.now) }
{
    Ok(Arm {
        test: arm.test.duplicate(alloc)?,
        body: copied_block(alloc, &arm.body, puts)?,
    })
}

fn copied_fun(alloc: Global, fun: &FunDef, puts: Option<&[Put]>) -> Result<FunDef, Memory>
    requires { AnyAscends (option_copied puts) }
    ensures { let new_gap = regap (option_copied puts.entry) in
        IfOk result (λ copy. copy ≡ regapped_fun new_gap fun.now) }
{
    Ok(FunDef {
        name: Seq::from_slice(alloc, fun.name.as_slice())?,
        result: fun.result,
        params: Seq::from_slice(alloc, fun.params.as_slice())?,
        body: copied_block(alloc, &fun.body, puts)?,
        at: fun.at,
    })
}

fn copied_funs(alloc: Global, funs: &[FunDef], puts: Option<&[Put]>) -> Result<Seq<FunDef>, Memory>
    requires { AnyAscends (option_copied puts) }
    ensures { let new_gap = regap (option_copied puts.entry) in
        IfOk result (λ copy. copy ≡ map (regapped_fun new_gap) funs.now) }
{
    let mut copy = Seq::new(alloc);
    for fun in funs {
        copy.push(copied_fun(alloc, fun, puts)?)?;
    }
    Ok(copy)
}

fn copied_program(alloc: Global, program: &Program, puts: Option<&[Put]>) -> Result<Program, Memory>
    requires { AnyAscends (option_copied puts) }
    ensures { let new_gap = regap (option_copied puts.entry) in
        IfOk result (λ copy. copy ≡ regapped new_gap program.now) }
{
    Ok(Program {
        structs: program.structs.duplicate(alloc)?,
        vars: program.vars.duplicate(alloc)?,
        funs: copied_funs(alloc, program.funs.as_slice(), puts)?,
        main: program.main,
        gaps: program.gaps,
        calls: program.calls,
    })
}

/// The program with the `free` statements that the choice has, and no others.
pub fn fill(alloc: Global, program: &Program, choice: &Choice) -> Result<Program, Memory>
    requires { IsAscending choice.now }
    ensures filled { IfOk result (λ copy. copy ≡ filled_program program.now choice.now) }
    ensures well_formed { IsWellFormed program.now → PutsFit program.now choice.now → IfOk result IsWellFormed }
{
    copied_program(alloc, program, Some(choice.puts.as_slice()))
}

/// The program without `free` statements.
pub fn skeleton(alloc: Global, program: &Program) -> Result<Program, Memory>
    ensures emptied { IfOk result (λ copy. copy ≡ skeleton_of program.now) }
    ensures well_formed { IfOk result (λ copy. IsWellFormed program.now ↔ (IsWellFormed copy × FreesFit program.now)) }
{
    copied_program(alloc, program, Some(&[]))
}

impl Duplicate for Block {
    fn duplicate(&self, alloc: Global) -> Result<Block, Memory> {
        copied_block(alloc, self, None)
    }
}

impl Duplicate for Piece {
    fn duplicate(&self, alloc: Global) -> Result<Piece, Memory> {
        copied_piece(alloc, self, None)
    }
}

impl Duplicate for Item {
    fn duplicate(&self, alloc: Global) -> Result<Item, Memory> {
        copied_item(alloc, self, None)
    }
}

impl Duplicate for Arm {
    fn duplicate(&self, alloc: Global) -> Result<Arm, Memory> {
        copied_arm(alloc, self, None)
    }
}

impl Duplicate for FunDef {
    fn duplicate(&self, alloc: Global) -> Result<FunDef, Memory> {
        copied_fun(alloc, self, None)
    }
}

impl Duplicate for Program {
    fn duplicate(&self, alloc: Global) -> Result<Program, Memory> {
        copied_program(alloc, self, None)
    }
}
