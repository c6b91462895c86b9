//! A program's own frees, as a choice of puts.
ghost use Rattle.std.specs.Prelude.{◌≡◌, ◌++◌, false, IfOk, MatchOption, OnOk, List, Some, map, option_map};
ghost use Rattle.std.specs.List.{flat_map};
ghost use Rattle.std.specs.Option.{option_copied};
ghost use Rattle.c_tree.specs.Fill.{ascends, precedes, precedes_in_gap, IsAscending};
ghost use Rattle.c_tree.specs.Numbers.{from_last, gaps_in};
ghost use Rattle.c_tree.specs.WellFormed.{IsWellFormed};
ghost use Rattle.c_tree.specs.declared.choice.Choice.{Choice as Chosen};
ghost use Rattle.c_tree.specs.declared.choice.Put.{Put as Placed};
ghost use Rattle.c_tree.specs.declared.expr.Expr.{out-Expr};
ghost use Rattle.memfix_engine.specs.OwnFrees.{AreOwn};
ghost use Rattle.memfix_engine.specs.OwnPuts.{arm_gaps_in, field_put, follows, gap_puts, item_gaps_in, own_puts, piece_gaps_in, put_of, variable_of};

use c_tree::{Arm, Block, Choice, Expr, Free, Gap, Item, Piece, Program, Put};
use mf_list::{Memory, Seq};
use sqlite_items::Items;
use std::alloc::Global;

/// The variable that an expression is, if it is one.
fn variable_of(expr: &Expr) -> Option<usize>
    ensures { result ≡ variable_of (out-Expr expr.now) }
{
    match expr {
        Expr::Var(var, _) => Some(*var),
        _ => None,
    }
}

/// The put of the field of a variable, where there is one.
fn field_put(gap: usize, field: usize, var: Option<usize>) -> Option<Put>
    ensures { result ≡ option_map (field_put gap field) var }
{
    match var {
        Some(var) => Some(Put {
            gap,
            var,
            field: Some(field),
        }),
        None => None,
    }
}

/// The put in a gap that frees the same, if the free is of a variable `x` or of `x->f`.
fn put_of(gap: usize, free: &Free) -> Option<Put>
    ensures { result ≡ put_of gap (out-Expr free.now.expr) }
{
    match &free.expr {
        Expr::Var(var, _) => Some(Put {
            gap,
            var: *var,
            field: None,
        }),
        Expr::Field(base, field, _) => field_put(gap, *field, variable_of(base.get())),
        _ => None,
    }
}

/// Adds the puts of the frees that stand in a gap.
fn push_gap(out: &mut Seq<Option<Put>>, gap: &Gap) -> Result<(), Memory>
    ensures { OnOk result (out.new ≡ out.old ++ gap_puts gap.now) }
{
    for free in gap.frees.as_slice() {
        out.push(put_of(gap.number, free))?;
    }
    Ok(())
}

/// Adds the puts of the frees that stand in the gaps of a block, in the order of the text.
#[cycle(own)]
fn push_block(out: &mut Seq<Option<Put>>, block: &Block) -> Result<(), Memory>
    ensures { OnOk result (out.new ≡ out.old ++ flat_map gap_puts (gaps_in block.now)) }
{
    push_pieces(out, &block.items)?;
    push_gap(out, &block.last_gap)
}

#[cycle(own)]
fn push_pieces(out: &mut Seq<Option<Put>>, pieces: &Items<Piece>) -> Result<(), Memory>
    ensures { OnOk result (out.new ≡ out.old ++ flat_map gap_puts (flat_map piece_gaps_in pieces.now)) }
{
    let pieces = pieces.as_slice();
    for piece in pieces {
        push_piece(out, piece)?;
    }
    Ok(())
}

#[cycle(own)]
fn push_piece(out: &mut Seq<Option<Put>>, piece: &Piece) -> Result<(), Memory>
    ensures { OnOk result (out.new ≡ out.old ++ flat_map gap_puts (piece_gaps_in piece.now)) }
{
    push_gap(out, &piece.gap)?;
    push_item(out, &piece.item)
}

#[cycle(own)]
fn push_item(out: &mut Seq<Option<Put>>, item: &Item) -> Result<(), Memory>
    ensures { OnOk result (out.new ≡ out.old ++ flat_map gap_puts (item_gaps_in item.now)) }
{
    match item {
        Item::Nest(block) => push_block(out, block),
        Item::If(arms, last) => {
            push_arms(out, arms)?;
            push_last(out, last)
        }
        Item::While(_, body) => push_block(out, body),
        Item::For(_, body) => push_block(out, body),
        Item::Declare(_) => Ok(()),
        Item::Assign(_) => Ok(()),
        Item::Do(_) => Ok(()),
        Item::Break => Ok(()),
        Item::Continue => Ok(()),
        Item::Return(_, _) => Ok(()),
    }
}

#[cycle(own)]
fn push_arms(out: &mut Seq<Option<Put>>, arms: &Items<Arm>) -> Result<(), Memory>
    ensures { OnOk result (out.new ≡ out.old ++ flat_map gap_puts (flat_map arm_gaps_in arms.now)) }
{
    let arms = arms.as_slice();
    for arm in arms {
        push_block(out, &arm.body)?;
    }
    Ok(())
}

#[cycle(own)]
fn push_last(out: &mut Seq<Option<Put>>, last: &Option<Block>) -> Result<(), Memory>
    ensures { OnOk result (out.new ≡ out.old ++ flat_map gap_puts (from_last (option_map gaps_in last.now))) }
{
    match last {
        None => Ok(()),
        Some(block) => push_block(out, block),
    }
}

/// What the frees in a program's gaps free, in the order of the text.
fn own_puts(alloc: Global, program: &Program) -> Result<Seq<Option<Put>>, Memory>
    ensures { IfOk result (λ found. found ≡ own_puts program.now) }
{
    let mut found = Seq::new(alloc);
    for fun in program.funs.as_slice() {
        push_block(&mut found, &fun.body)?;
    }
    Ok(found)
}

/// The puts, if each free has one.
fn all_puts(alloc: Global, found: &[Option<Put>]) -> Result<Option<Seq<Put>>, Memory>
    ensures { IfOk result (λ all. MatchOption all ((puts : List Placed) → found.now ≡ map Some puts → ⊥) (λ puts. found.now ≡ map Some puts)) }
{
    let mut puts = Seq::new(alloc);
    for one in found {
        match one {
            Some(put) => puts.push(*put)?,
            None => return Ok(None),
        }
    }
    Ok(Some(puts))
}

/// Whether a put comes before another one of its gap: fields before variables, each by number.
fn precedes_in_gap(p: &Put, q: &Put) -> bool
    ensures { result ≡ precedes_in_gap p.now.field q.now.field p.now.var q.now.var }
{
    match (p.field, q.field) {
        (None, None) => p.var < q.var,
        (None, Some(_)) => false,
        (Some(_), None) => true,
        (Some(f), Some(g)) => p.var < q.var || (p.var == q.var && f < g),
    }
}

/// Whether a put comes before another one in a choice.
fn precedes(p: &Put, q: &Put) -> bool
    ensures { result ≡ precedes p.now q.now }
{
    p.gap < q.gap || (p.gap == q.gap && precedes_in_gap(p, q))
}

/// Whether a put may come behind the last one, if there is one.
fn follows(last: Option<&Put>, put: &Put) -> bool
    ensures { result ≡ follows (option_copied last.entry) put.now }
{
    match last {
        None => true,
        Some(last) => precedes(last, put),
    }
}

/// Whether puts stand in the order of a choice.
fn ascends(puts: &[Put]) -> bool
    ensures { result ≡ ascends puts.now }
{
    let mut last: Option<&Put> = None;
    for put in puts {
        if !follows(last, put) {
            return false;
        }
        last = Some(put);
    }
    true
}

/// The choice of puts, if they stand in its order.
fn in_order(puts: Seq<Put>) -> Option<Choice>
    ensures { MatchOption result (ascends puts ≡ false) (λ s. (s.puts ≡ puts) × IsAscending s) }
{
    if !ascends(puts.as_slice()) {
        return None;
    }
    Some(Choice { puts })
}

/// The choice of the program's own frees: None where no choice is, since a free is not of a put or they don't stand in the order
/// of the puts of a gap.
pub(crate) fn own_choice(alloc: Global, program: &Program) -> Result<Option<Choice>, Memory>
    ensures { IsWellFormed program.now → IfOk result (λ own. MatchOption own ((s : Chosen) → AreOwn program.now s → ⊥) (AreOwn program.now)) }
{
    let found = own_puts(alloc, program)?;
    match all_puts(alloc, found.as_slice())? {
        None => Ok(None),
        Some(puts) => Ok(in_order(puts)),
    }
}
