// The walk over a program that finds all changes of its text.
ghost use Rattle.std.specs.Prelude.{◌≡◌, ◌++◌, IfOk, OnOk};
ghost use Rattle.std.specs.List.{flat_map, list_any};
ghost use Rattle.c_tree.specs.Numbers.{from_last};
ghost use Rattle.c_tree.specs.declared.program.Block.{out-Block};
ghost use Rattle.c_tree.specs.declared.program.Piece.{Piece, out-Piece};
ghost use Rattle.std.specs.Prelude.{option_map};
ghost use Rattle.source_patcher.specs.Changes.{Changes, Part, arm_changes, block_changes, brace, changes, gets_braces, item_changes, last_place, piece_part};
ghost use Rattle.source_patcher.specs.Gaps.{AreInOrder, writes};

use crate::change::{Change, Writing};
use crate::gaps::{push_gap, writes};
use crate::puts::GapPuts;
use c_lexer::Token;
use c_tree::{Arm, Block, Item, Piece, Program};
use mf_list::{Memory, Seq};
use sqlite_items::Items;
use std::alloc::Global;

fn push_brace(
    out: &mut Seq<Change>,
    wanted: bool,
    at: usize,
    writing: Writing,
) -> Result<(), Memory>
    ensures { OnOk result (out.new ≡ out.old ++ brace wanted at writing) }
{
    if !wanted {
        return Ok(());
    }
    out.push(Change {
        start: at,
        end: at,
        writing,
    })
}

/// Whether a free is written into a gap before one of the items.
fn writes_before(puts: &GapPuts, pieces: &[Piece]) -> bool
    ensures { result ≡ list_any (λ (p : Piece). writes puts.now (out-Piece p).gap) pieces.now }
{
    for piece in pieces {
        if writes(puts, &piece.gap) {
            return true;
        }
    }
    false
}

/// Whether a body without braces gets them.
fn gets_braces(puts: &GapPuts, block: &Block) -> bool
    ensures { result ≡ gets_braces puts.now (out-Block block.now).braced (list_any (λ (p : Piece). writes puts.now (out-Piece p).gap) (out-Block block.now).items) (out-Block block.now).last_gap }
{
    !block.braced && (writes_before(puts, block.items.as_slice()) || writes(puts, &block.last_gap))
}

fn last_place(block: &Block) -> usize
    ensures { result ≡ last_place (out-Block block.now).braced (out-Block block.now).end }
{
    if block.braced {
        block.end.saturating_sub(1)
    } else {
        block.end
    }
}

#[cycle(walk)]
fn push_block(
    out: &mut Seq<Change>,
    tokens: &[Token],
    puts: &GapPuts,
    block: &Block,
) -> Result<(), Memory>
    requires { AreInOrder tokens.now }
    ensures { OnOk result (out.new ≡ out.old ++ block_changes tokens.now puts.now block.now) }
{
    let braces = gets_braces(puts, block);
    push_brace(out, braces, block.start, Writing::Open)?;
    push_pieces(out, tokens, puts, &block.items)?;
    push_gap(out, tokens, puts, last_place(block), &block.last_gap)?;
    push_brace(out, braces, block.end, Writing::Close)
}

#[cycle(walk)]
fn push_pieces(
    out: &mut Seq<Change>,
    tokens: &[Token],
    puts: &GapPuts,
    pieces: &Items<Piece>,
) -> Result<(), Memory>
    requires { AreInOrder tokens.now }
    ensures { OnOk result (out.new ≡ out.old ++ flat_map (λ p. (piece_part tokens.now puts.now p).changes) pieces.now) }
{
    let pieces = pieces.as_slice();
    for piece in pieces {
        push_piece(out, tokens, puts, piece)?;
    }
    Ok(())
}

#[cycle(walk)]
fn push_piece(
    out: &mut Seq<Change>,
    tokens: &[Token],
    puts: &GapPuts,
    piece: &Piece,
) -> Result<(), Memory>
    requires { AreInOrder tokens.now }
    ensures { OnOk result (out.new ≡ out.old ++ (piece_part tokens.now puts.now piece.now).changes) }
{
    push_gap(out, tokens, puts, piece.start, &piece.gap)?;
    push_item(out, tokens, puts, &piece.item)
}

#[cycle(walk)]
fn push_item(
    out: &mut Seq<Change>,
    tokens: &[Token],
    puts: &GapPuts,
    item: &Item,
) -> Result<(), Memory>
    requires { AreInOrder tokens.now }
    ensures { OnOk result (out.new ≡ out.old ++ item_changes tokens.now puts.now item.now) }
{
    match item {
        Item::Nest(block) => push_block(out, tokens, puts, block),
        Item::If(arms, last) => {
            push_arms(out, tokens, puts, arms)?;
            push_last(out, tokens, puts, last)
        }
        Item::While(_, body) => push_block(out, tokens, puts, body),
        Item::For(_, body) => push_block(out, tokens, puts, body),
        Item::Declare(_) => Ok(()),
        Item::Assign(_) => Ok(()),
        Item::Do(_) => Ok(()),
        Item::Break => Ok(()),
        Item::Continue => Ok(()),
        Item::Return(_, _) => Ok(()),
    }
}

#[cycle(walk)]
fn push_arms(
    out: &mut Seq<Change>,
    tokens: &[Token],
    puts: &GapPuts,
    arms: &Items<Arm>,
) -> Result<(), Memory>
    requires { AreInOrder tokens.now }
    ensures { OnOk result (out.new ≡ out.old ++ flat_map (arm_changes tokens.now puts.now) arms.now) }
{
    let arms = arms.as_slice();
    for arm in arms {
        push_block(out, tokens, puts, &arm.body)?;
    }
    Ok(())
}

#[cycle(walk)]
fn push_last(
    out: &mut Seq<Change>,
    tokens: &[Token],
    puts: &GapPuts,
    last: &Option<Block>,
) -> Result<(), Memory>
    requires { AreInOrder tokens.now }
    ensures { OnOk result (out.new ≡ out.old ++ from_last (option_map (block_changes tokens.now puts.now) last.now)) }
{
    match last {
        None => Ok(()),
        Some(block) => push_block(out, tokens, puts, block),
    }
}

/// All changes of a program's text, in the order of the text.
pub(crate) fn changes(
    alloc: Global,
    tokens: &[Token],
    puts: &GapPuts,
    program: &Program,
) -> Result<Seq<Change>, Memory>
    requires { AreInOrder tokens.now }
    ensures { IfOk result (λ list. list ≡ changes tokens.now puts.now program.now) }
{
    let mut list = Seq::new(alloc);
    for fun in program.funs.as_slice() {
        push_block(&mut list, tokens, puts, &fun.body)?;
    }
    Ok(list)
}
