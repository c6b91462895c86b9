// What changes about what is in scope, in the order of the text (C99 6.2.1p4).
ghost use Rattle.std.specs.Prelude.{◌≡◌, [], ◌++◌, map, option_map, IfOk, OnOk};
ghost use Rattle.std.specs.List.{flat_map, range_with_len};
ghost use Rattle.c_tree.specs.Numbers.{from_last};
ghost use Rattle.c_tree.specs.WellFormed.{IsWellFormed};
ghost use Rattle.c_scopes.specs.ScopeAt.{GapScope, scopes};
ghost use Rattle.c_scopes.specs.Turns.{arm_turns, block_turns, declr_turns, for_turns, function_turns, global_turns, is_shown, item_turns, narrowed, piece_turns, rows_from, scope_of, start_turns, turns, var_turns};

use crate::visible::up_to;
use c_tree::{Arm, Block, Declr, ForHead, FunDef, Item, Piece, Program, Start};
use mf_list::{Memory, Seq};
use sqlite_items::Items;
use std::alloc::Global;

/// What changes from one place of the text to the next.
#[derive(Clone, Copy, Debug, PartialEq, Eq)]
pub enum Turn {
    /// A scope begins.
    Open,
    /// A variable is visible from here on.
    See(usize),
    /// A gap, by its number.
    Gap(usize),
    /// The innermost scope ends.
    Close,
}

fn is_shown(hidden: &[bool], var: usize) -> bool
    ensures { result ≡ is_shown hidden.now var }
{
    match hidden.get(var) {
        None => true,
        Some(is_hidden) => !*is_hidden,
    }
}

fn see(turns: &mut Seq<Turn>, hidden: &[bool], var: usize) -> Result<(), Memory>
    ensures { OnOk result (turns.new ≡ turns.old ++ var_turns hidden.now var) }
{
    if is_shown(hidden, var) {
        turns.push(Turn::See(var))
    } else {
        Ok(())
    }
}

fn see_all(turns: &mut Seq<Turn>, hidden: &[bool], vars: &[usize]) -> Result<(), Memory>
    ensures { OnOk result (turns.new ≡ turns.old ++ flat_map (var_turns hidden.now) vars.now) }
{
    for var in vars {
        see(turns, hidden, *var)?;
    }
    Ok(())
}

fn declrs(turns: &mut Seq<Turn>, hidden: &[bool], declrs: &[Declr]) -> Result<(), Memory>
    ensures { OnOk result (turns.new ≡ turns.old ++ flat_map (declr_turns hidden.now) declrs.now) }
{
    for declr in declrs {
        see(turns, hidden, declr.var)?;
    }
    Ok(())
}

fn start(turns: &mut Seq<Turn>, hidden: &[bool], start: &Start) -> Result<(), Memory>
    ensures { OnOk result (turns.new ≡ turns.old ++ start_turns hidden.now start.now) }
{
    match start {
        Start::Declare(declr) => see(turns, hidden, declr.var),
        Start::Assign(_) => Ok(()),
    }
}

fn starts(turns: &mut Seq<Turn>, hidden: &[bool], starts: &[Start]) -> Result<(), Memory>
    ensures { OnOk result (turns.new ≡ turns.old ++ flat_map (start_turns hidden.now) starts.now) }
{
    for part in starts {
        start(turns, hidden, part)?;
    }
    Ok(())
}

#[cycle(turns)]
fn block(turns: &mut Seq<Turn>, hidden: &[bool], block: &Block) -> Result<(), Memory>
    ensures { OnOk result (turns.new ≡ turns.old ++ block_turns hidden.now block.now) }
{
    turns.push(Turn::Open)?;
    pieces(turns, hidden, &block.items)?;
    turns.push(Turn::Gap(block.last_gap.number))?;
    turns.push(Turn::Close)
}

#[cycle(turns)]
fn pieces(turns: &mut Seq<Turn>, hidden: &[bool], pieces: &Items<Piece>) -> Result<(), Memory>
    ensures { OnOk result (turns.new ≡ turns.old ++ flat_map (piece_turns hidden.now) pieces.now) }
{
    let pieces = pieces.as_slice();
    for part in pieces {
        piece(turns, hidden, part)?;
    }
    Ok(())
}

#[cycle(turns)]
fn piece(turns: &mut Seq<Turn>, hidden: &[bool], piece: &Piece) -> Result<(), Memory>
    ensures { OnOk result (turns.new ≡ turns.old ++ piece_turns hidden.now piece.now) }
{
    turns.push(Turn::Gap(piece.gap.number))?;
    item(turns, hidden, &piece.item)
}

#[cycle(turns)]
fn item(turns: &mut Seq<Turn>, hidden: &[bool], item: &Item) -> Result<(), Memory>
    ensures { OnOk result (turns.new ≡ turns.old ++ item_turns hidden.now item.now) }
{
    match item {
        Item::Declare(parts) => declrs(turns, hidden, parts.as_slice()),
        Item::Nest(inner) => block(turns, hidden, inner),
        Item::If(parts, otherwise) => {
            arms(turns, hidden, parts)?;
            last(turns, hidden, otherwise)
        }
        Item::While(_, body) => block(turns, hidden, body),
        Item::For(head, body) => in_for(turns, hidden, head, body),
        Item::Assign(_) => Ok(()),
        Item::Do(_) => Ok(()),
        Item::Break => Ok(()),
        Item::Continue => Ok(()),
        Item::Return(_, _) => Ok(()),
    }
}

#[cycle(turns)]
fn arms(turns: &mut Seq<Turn>, hidden: &[bool], arms: &Items<Arm>) -> Result<(), Memory>
    ensures { OnOk result (turns.new ≡ turns.old ++ flat_map (arm_turns hidden.now) arms.now) }
{
    let arms = arms.as_slice();
    for arm in arms {
        block(turns, hidden, &arm.body)?;
    }
    Ok(())
}

#[cycle(turns)]
fn last(turns: &mut Seq<Turn>, hidden: &[bool], last: &Option<Block>) -> Result<(), Memory>
    ensures { OnOk result (turns.new ≡ turns.old ++ from_last (option_map (block_turns hidden.now) last.now)) }
{
    match last {
        None => Ok(()),
        Some(inner) => block(turns, hidden, inner),
    }
}

#[cycle(turns)]
fn in_for(
    turns: &mut Seq<Turn>,
    hidden: &[bool],
    head: &ForHead,
    body: &Block,
) -> Result<(), Memory>
    ensures { OnOk result (turns.new ≡ turns.old ++ for_turns hidden.now head.now (block_turns hidden.now body.now)) }
{
    turns.push(Turn::Open)?;
    starts(turns, hidden, head.start.as_slice())?;
    block(turns, hidden, body)?;
    turns.push(Turn::Close)
}

fn function(turns: &mut Seq<Turn>, hidden: &[bool], fun: &FunDef) -> Result<(), Memory>
    ensures { OnOk result (turns.new ≡ turns.old ++ function_turns hidden.now fun.now) }
{
    turns.push(Turn::Open)?;
    see_all(turns, hidden, fun.params.as_slice())?;
    block(turns, hidden, &fun.body)?;
    turns.push(Turn::Close)
}

/// The globals from the one at place `from` on.
fn see_from(
    turns: &mut Seq<Turn>,
    hidden: &[bool],
    globals: &[usize],
    from: usize,
) -> Result<(), Memory>
    ensures { OnOk result (turns.new ≡ turns.old ++ global_turns hidden.now from globals.now) }
{
    for at in from..globals.len() {
        see(turns, hidden, globals[at])?;
    }
    Ok(())
}

fn all_turns(alloc: Global, program: &Program, hidden: &[bool]) -> Result<Seq<Turn>, Memory>
    ensures { IfOk result (λ ts. ts ≡ turns hidden.now program.now) }
{
    let mut turns = Seq::new(alloc);
    let mut globals = Seq::new(alloc);
    let funs = program.funs.as_slice();
    let vars = program.vars.as_slice();
    let mut count = 0;
    for (number, fun) in funs.iter().enumerate() {
        let before = globals.len();
        count = up_to(&mut globals, vars, count, number, fun)?;
        see_from(&mut turns, hidden, globals.as_slice(), before)?;
        function(&mut turns, hidden, fun)?;
    }
    Ok(turns)
}

/// What changes, in the order of the text, about all variables but the hidden ones, which are
/// marked by their numbers. It takes the time and the memory of the program, whatever is in scope.
pub fn turns(alloc: Global, program: &Program, hidden: &[bool]) -> Result<Seq<Turn>, Memory>
    ensures value { IfOk result (λ ts. ts ≡ turns hidden.now program.now) }
    ensures rows { IfOk result (λ ts. rows_from (scope_of [] []) ts ≡ map (narrowed hidden.now) (scopes program.now)) }
    ensures numbered { IsWellFormed program.now → IfOk result (λ ts. map (λ (r : GapScope). r.gap) (rows_from (scope_of [] []) ts) ≡ range_with_len 0 program.now.gaps) }
{
    all_turns(alloc, program, hidden)
}
