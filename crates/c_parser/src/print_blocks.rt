// Statements and blocks as tokens (C99 6.8). Each body has braces.
ghost use Rattle.std.specs.Prelude.{◌≡◌, [], ◌∷◌, ◌++◌, drop, map, OnOk, codes};
ghost use Rattle.c_lexer.specs.declared.token.Kind.TheVariants as kind;
ghost use Rattle.c_parser.specs.Printed.{key, each, maybe, ended, printed_free, printed_gap, printed_test, printed_for_head, printed_other_arm, printed_arms, printed_else, printed_right, printed_arm, printed_block, printed_item, printed_piece};

use crate::parts::{Part, print_each, print_ended, print_maybe};
use crate::print_statements::print_starts;
use crate::words::{
    BREAK, CLOSE, CLOSE_BRACE, CONTINUE, ELSE, FOR, FREE, IF, OPEN, OPEN_BRACE, RETURN, SEMICOLON,
    WHILE,
};
use crate::written::Written;
use c_tree::tree::{Arm, Block, Expr, ForHead, Free, Gap, Item, Piece, Right};
use mf_list::Memory;
use std::alloc::Global;

impl Part for Free {
    ghost printed = { printed_free };

    fn print(&self, alloc: Global, out: &mut Written) -> Result<(), Memory> {
        out.key(FREE)?;
        out.mark(OPEN)?;
        self.expr.print(alloc, out)?;
        out.mark(CLOSE)?;
        out.mark(SEMICOLON)
    }
}

impl Part for Gap {
    ghost printed = { printed_gap };

    fn print(&self, alloc: Global, out: &mut Written) -> Result<(), Memory> {
        print_each(alloc, self.frees.as_slice(), out)
    }
}

fn print_test(alloc: Global, test: &Expr, out: &mut Written) -> Result<(), Memory>
    ensures { OnOk result (out.new ≡ out.old ++ printed_test test.now) }
{
    out.mark(OPEN)?;
    test.print(alloc, out)?;
    out.mark(CLOSE)
}

impl Part for ForHead {
    ghost printed = { printed_for_head };

    fn print(&self, alloc: Global, out: &mut Written) -> Result<(), Memory> {
        out.mark(OPEN)?;
        print_starts(alloc, self.start.as_slice(), out)?;
        out.mark(SEMICOLON)?;
        print_maybe(alloc, &self.test, out)?;
        out.mark(SEMICOLON)?;
        print_maybe(alloc, &self.step, out)?;
        out.mark(CLOSE)
    }
}

/// A key word, and a `;` behind it.
fn print_jump(word: u16, out: &mut Written) -> Result<(), Memory>
    ensures { OnOk result (out.new ≡ out.old ++ ended (kind.Key word ∷ [])) }
{
    out.key(word)?;
    out.mark(SEMICOLON)
}

fn print_return(alloc: Global, value: &Option<Right>, out: &mut Written) -> Result<(), Memory>
    ensures { OnOk result (out.new ≡ out.old ++ ended (key (codes "return") ∷ maybe printed_right value.now)) }
{
    out.key(RETURN)?;
    print_maybe(alloc, value, out)?;
    out.mark(SEMICOLON)
}

#[cycle(prints)]
pub fn print_block(alloc: Global, block: &Block, out: &mut Written) -> Result<(), Memory>
    ensures { OnOk result (out.new ≡ out.old ++ printed_block block.now) }
{
    out.mark(OPEN_BRACE)?;
    print_pieces(alloc, block.items.as_slice(), out)?;
    block.last_gap.print(alloc, out)?;
    out.mark(CLOSE_BRACE)
}

#[cycle(prints)]
fn print_pieces(alloc: Global, pieces: &[Piece], out: &mut Written) -> Result<(), Memory>
    ensures { OnOk result (out.new ≡ out.old ++ each printed_piece pieces.now) }
{
    for piece in pieces {
        print_piece(alloc, piece, out)?;
    }
    Ok(())
}

#[cycle(prints)]
fn print_piece(alloc: Global, piece: &Piece, out: &mut Written) -> Result<(), Memory>
    ensures { OnOk result (out.new ≡ out.old ++ printed_piece piece.now) }
{
    piece.gap.print(alloc, out)?;
    print_item(alloc, &piece.item, out)
}

#[cycle(prints)]
#[tactic(auto, using(crate::proofs::OpenedBlocks::print_declare, crate::proofs::OpenedBlocks::print_assign, crate::proofs::OpenedBlocks::print_call, crate::proofs::OpenedBlocks::print_nest, crate::proofs::OpenedBlocks::print_break, crate::proofs::OpenedBlocks::print_continue, crate::proofs::OpenedBlocks::print_return))]
fn print_item(alloc: Global, item: &Item, out: &mut Written) -> Result<(), Memory>
    ensures { OnOk result (out.new ≡ out.old ++ printed_item item.now) }
{
    match item {
        Item::Declare(declrs) => print_ended(alloc, declrs, out),
        Item::Assign(simple) => print_ended(alloc, simple, out),
        Item::Do(call) => print_ended(alloc, call, out),
        Item::Nest(block) => print_block(alloc, block, out),
        Item::If(arms, otherwise) => {
            print_arms(alloc, arms.as_slice(), out)?;
            match otherwise {
                None => Ok(()),
                Some(block) => {
                    out.key(ELSE)?;
                    print_block(alloc, block, out)
                }
            }
        }
        Item::While(test, body) => {
            out.key(WHILE)?;
            print_test(alloc, test, out)?;
            print_block(alloc, body, out)
        }
        Item::For(head, body) => {
            out.key(FOR)?;
            head.print(alloc, out)?;
            print_block(alloc, body, out)
        }
        Item::Break => print_jump(BREAK, out),
        Item::Continue => print_jump(CONTINUE, out),
        Item::Return(value, _) => print_return(alloc, value, out),
    }
}

#[cycle(prints)]
fn print_arms(alloc: Global, arms: &[Arm], out: &mut Written) -> Result<(), Memory>
    ensures { OnOk result (out.new ≡ out.old ++ printed_arms (map printed_arm arms.now)) }
{
    match arms {
        [] => Ok(()),
        [first, ..] => {
            out.key(IF)?;
            print_arm(alloc, first, out)?;
            print_other_arms(alloc, arms, out)
        }
    }
}

/// Each arm but the first, behind `else if`.
#[cycle(prints)]
fn print_other_arms(alloc: Global, arms: &[Arm], out: &mut Written) -> Result<(), Memory>
    ensures { OnOk result (out.new ≡ out.old ++ each printed_other_arm (map printed_arm (drop 1 arms.now))) }
{
    for at in 1..arms.len() {
        out.key(ELSE)?;
        out.key(IF)?;
        print_arm(alloc, &arms[at], out)?;
    }
    Ok(())
}

/// A test in parentheses, and its body.
#[cycle(prints)]
fn print_arm(alloc: Global, arm: &Arm, out: &mut Written) -> Result<(), Memory>
    ensures { OnOk result (out.new ≡ out.old ++ printed_arm arm.now) }
{
    print_test(alloc, &arm.test, out)?;
    print_block(alloc, &arm.body, out)
}
