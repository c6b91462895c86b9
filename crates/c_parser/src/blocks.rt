// The reader of statements, their bodies, and blocks (C99 6.8); each is read with the end of its last token. The depth
// bounds how deep expressions nest, and `within` how deep the items in a body do.
ghost use Rattle.std.specs.Prelude.{◌≡◌, IfOk, [], ◌∷◌, false, length};
ghost use Rattle.c_parser.specs.Answer.{Gives};
ghost use Rattle.c_parser.specs.Blocks.{block};
ghost use Rattle.c_parser.specs.Loops.{piece_turn_at, piece_turn, else_turn_at, else_turn};
ghost use Rattle.c_parser.specs.ReadBlocks.{read_pieces, read_block, body_of, read_body, read_arm, read_else, read_branch, read_while, read_for, read_return, read_plain_item, read_item_by, read_item};
ghost use Rattle.c_parser.specs.Term.{next};

use crate::calls::{begins_call, read_call, read_right};
use crate::gaps::{read_free, read_gap};
use crate::heads::{read_for_head, read_test};
use crate::reading::{Unread, added, one, read_want};
use crate::sizes::skip;
use crate::statements::{begins_decl, read_decl, read_simple};
use crate::term::{Term, next, same, term_of};
use crate::turn::Turn;
use c_lexer::Token;
use c_tree::tree::{Arm, Block, Free, Gap, Item, Piece};
use mf_list::{Memory, Seq};
use sqlite_items::Items;
use std::alloc::Global;

/// A `return` behind its word.
#[tactic(auto, unfolding(crate::specs::ReadBlocks::read_return))]
fn read_return<'a>(
    alloc: Global,
    depth: usize,
    word: &Token,
    tokens: &'a [Token],
) -> Result<((Item, usize), &'a [Token]), Unread>
    ensures { Gives (λ r. (r.0, r.1.now)) result (read_return depth word.now tokens.now) }
{
    let [token, rest @ ..] = tokens else {
        return Err(Unread::NotHere);
    };
    if same(Term::Semicolon, term_of(token)) {
        return Ok(((Item::Return(None, word.start), token.end), rest));
    }
    let (right, rest) = read_right(alloc, depth, tokens)?;
    let (semicolon, rest) = read_want(Term::Semicolon, rest)?;
    Ok(((Item::Return(Some(right), word.start), semicolon.end), rest))
}

/// A declaration, a call or an assignment, with its `;`.
#[tactic(auto, unfolding(crate::specs::ReadBlocks::read_plain_item))]
fn read_plain_item(
    alloc: Global,
    depth: usize,
    tokens: &[Token],
) -> Result<((Item, usize), &[Token]), Unread>
    ensures { Gives (λ r. (r.0, r.1.now)) result (read_plain_item depth tokens.now) }
{
    if begins_decl(tokens) {
        let (declrs, rest) = read_decl(alloc, depth, tokens)?;
        let (semicolon, rest) = read_want(Term::Semicolon, rest)?;
        return Ok(((Item::Declare(declrs), semicolon.end), rest));
    }
    if begins_call(tokens) {
        let (call, rest) = read_call(alloc, depth, tokens)?;
        let (semicolon, rest) = read_want(Term::Semicolon, rest)?;
        return Ok(((Item::Do(call), semicolon.end), rest));
    }
    let (simple, rest) = read_simple(alloc, depth, tokens)?;
    let (semicolon, rest) = read_want(Term::Semicolon, rest)?;
    Ok(((Item::Assign(simple), semicolon.end), rest))
}

/// A body without braces, and its end.
fn unbraced(items: Items<Piece>, frees: Seq<Free>, start: usize, end: usize) -> (Block, usize)
    ensures { result ≡ (block items frees false start end, end) }
{
    let last_gap = Gap { frees };
    let braced = false;
    (
        Block {
            items,
            last_gap,
            braced,
            start,
            end,
        },
        end,
    )
}

/// An item that is a body without braces, from this token on.
fn body_of(alloc: Global, token: &Token, item: Item, end: usize) -> Result<(Block, usize), Memory>
    ensures { IfOk result (λ body. body ≡ body_of token.now (item, end)) }
{
    let start = token.start;
    let frees = Seq::new(alloc);
    let piece = Piece {
        gap: Gap { frees },
        item,
        start,
        end,
    };
    let items = Items::from_vec(one(alloc, piece)?);
    Ok(unbraced(items, Seq::new(alloc), start, end))
}

/// A `free` statement that is a body without braces.
fn free_body(alloc: Global, free: Free) -> Result<(Block, usize), Memory>
    ensures { IfOk result (λ body. body ≡ (block [] (free ∷ []) false free.start free.end, free.end)) }
{
    let start = free.start;
    let end = free.end;
    let frees = Seq::from_vec(one(alloc, free)?);
    Ok(unbraced(Items::new(alloc), frees, start, end))
}

/// A semicolon that is a body.
fn empty_body(alloc: Global, token: &Token) -> (Block, usize)
    ensures { result ≡ (block [] [] false token.now.start token.now.end, token.now.end) }
{
    unbraced(Items::new(alloc), Seq::new(alloc), token.start, token.end)
}

/// The item behind its gap, behind the pieces in front; or the `}` of the block that began at a place.
#[cycle(items)]
fn read_piece_behind(
    alloc: Global,
    within: usize,
    begun: usize,
    front: Items<Piece>,
    frees: Seq<Free>,
    tokens: &[Token],
) -> Result<(Turn<Items<Piece>, (Block, usize)>, &[Token]), Unread>
    ensures { Gives (λ r. (r.0, r.1.now)) result (piece_turn_at (read_item within) begun front frees tokens.now) }
{
    let [token, rest @ ..] = tokens else {
        return Err(Unread::NotHere);
    };
    let gap = Gap { frees };
    if same(Term::CloseBrace, term_of(token)) {
        let block = Block {
            items: front,
            last_gap: gap,
            braced: true,
            start: begun,
            end: token.end,
        };
        return Ok((Turn::Done((block, token.end)), rest));
    }
    let ((item, end), rest) = read_item(alloc, within, tokens)?;
    let start = token.start;
    let piece = Piece {
        gap,
        item,
        start,
        end,
    };
    Ok((Turn::More(added(alloc, front, piece)?), rest))
}

/// A piece behind those in front, or the last gap and the `}`.
#[cycle(items)]
fn read_piece_turn(
    alloc: Global,
    depth: usize,
    within: usize,
    begun: usize,
    front: Items<Piece>,
    tokens: &[Token],
) -> Result<(Turn<Items<Piece>, (Block, usize)>, &[Token]), Unread>
    ensures { Gives (λ r. (r.0, r.1.now)) result (piece_turn depth (read_item within) begun front tokens.now) }
{
    let (frees, rest) = read_gap(alloc, depth, tokens)?;
    read_piece_behind(alloc, within, begun, front, frees, rest)
}

/// The pieces and the `}` of a block that began at a place.
#[cycle(items)]
fn read_pieces(
    alloc: Global,
    depth: usize,
    within: usize,
    begun: usize,
    tokens: &[Token],
) -> Result<((Block, usize), &[Token]), Unread>
    ensures { Gives (λ r. (r.0, r.1.now)) result (read_pieces depth (read_item within) begun (length tokens.now) [] tokens.now) }
{
    let mut pieces = Items::new(alloc);
    let mut left = tokens;
    for _turn in 0..tokens.len() {
        let (turn, rest) = read_piece_turn(alloc, depth, within, begun, pieces, left)?;
        match turn {
            Turn::More(more) => {
                pieces = more;
                left = rest;
            }
            Turn::Done(block) => return Ok((block, rest)),
        }
    }
    Err(Unread::NotHere)
}

/// A block in braces.
#[cycle(items)]
#[tactic(auto, unfolding(crate::specs::ReadBlocks::read_block))]
pub fn read_block(
    alloc: Global,
    depth: usize,
    within: usize,
    tokens: &[Token],
) -> Result<((Block, usize), &[Token]), Unread>
    ensures { Gives (λ r. (r.0, r.1.now)) result (read_block depth (read_item within) tokens.now) }
{
    let (brace, rest) = read_want(Term::OpenBrace, tokens)?;
    read_pieces(alloc, depth, within, brace.start, rest)
}

/// A body: a block, or one piece.
#[cycle(items)]
#[tactic(auto, unfolding(crate::specs::ReadBlocks::read_body))]
fn read_body(
    alloc: Global,
    depth: usize,
    within: usize,
    tokens: &[Token],
) -> Result<((Block, usize), &[Token]), Unread>
    ensures { Gives (λ r. (r.0, r.1.now)) result (read_body depth (read_item within) tokens.now) }
{
    let [token, rest @ ..] = tokens else {
        return Err(Unread::NotHere);
    };
    match term_of(token) {
        Term::OpenBrace => read_block(alloc, depth, within, tokens),
        Term::Free => {
            let (free, rest) = read_free(alloc, depth, tokens)?;
            Ok((free_body(alloc, free)?, rest))
        }
        Term::Semicolon => Ok((empty_body(alloc, token), rest)),
        _ => {
            let ((item, end), rest) = read_item(alloc, within, tokens)?;
            Ok((body_of(alloc, token, item, end)?, rest))
        }
    }
}

/// A test and its body.
#[cycle(items)]
#[tactic(auto, unfolding(crate::specs::ReadBlocks::read_arm))]
fn read_arm(
    alloc: Global,
    depth: usize,
    within: usize,
    tokens: &[Token],
) -> Result<((Arm, usize), &[Token]), Unread>
    ensures { Gives (λ r. (r.0, r.1.now)) result (read_arm depth (read_item within) tokens.now) }
{
    let (test, rest) = read_test(alloc, depth, tokens)?;
    let ((body, end), rest) = read_body(alloc, depth, within, rest)?;
    Ok(((Arm { test, body }, end), rest))
}

/// What stands behind an `else`: an arm behind those in front, or the last body.
#[cycle(items)]
fn read_else_behind(
    alloc: Global,
    depth: usize,
    within: usize,
    front: Items<Arm>,
    tokens: &[Token],
) -> Result<(Turn<(Items<Arm>, usize), (Item, usize)>, &[Token]), Unread>
    ensures { Gives (λ r. (r.0, r.1.now)) result (else_turn_at depth (read_item within) front (next tokens.now) tokens.now) }
{
    match next(tokens) {
        Term::If => {
            let ((arm, end), rest) = read_arm(alloc, depth, within, skip(tokens))?;
            let mut arms = front;
            arms.push(arm)?;
            Ok((Turn::More((arms, end)), rest))
        }
        _ => {
            let ((body, end), rest) = read_body(alloc, depth, within, tokens)?;
            Ok((Turn::Done((Item::If(front, Some(body)), end)), rest))
        }
    }
}

/// An `else` behind the arms so far, the last of which ends at a place; or their end.
#[cycle(items)]
fn read_else_turn(
    alloc: Global,
    depth: usize,
    within: usize,
    arms: Items<Arm>,
    end: usize,
    tokens: &[Token],
) -> Result<(Turn<(Items<Arm>, usize), (Item, usize)>, &[Token]), Unread>
    ensures { Gives (λ r. (r.0, r.1.now)) result (else_turn depth (read_item within) (arms, end) tokens.now) }
{
    match tokens {
        [token, rest @ ..] if same(Term::Else, term_of(token)) => {
            read_else_behind(alloc, depth, within, arms, rest)
        }
        _ => Ok((Turn::Done((Item::If(arms, None), end)), tokens)),
    }
}

/// The `if` statement that begins with these arms, the last of which ends at a place.
#[cycle(items)]
fn read_else(
    alloc: Global,
    depth: usize,
    within: usize,
    turns: usize,
    front: (Items<Arm>, usize),
    tokens: &[Token],
) -> Result<((Item, usize), &[Token]), Unread>
    ensures { Gives (λ r. (r.0, r.1.now)) result (read_else depth (read_item within) turns front.0 front.1 tokens.now) }
{
    let (mut arms, mut end) = front;
    let mut left = tokens;
    for _turn in 0..turns {
        let (turn, rest) = read_else_turn(alloc, depth, within, arms, end, left)?;
        match turn {
            Turn::More((more, last)) => {
                arms = more;
                end = last;
                left = rest;
            }
            Turn::Done(item) => return Ok((item, rest)),
        }
    }
    Err(Unread::NotHere)
}

/// An `if` behind its word, with each `else` behind it.
#[cycle(items)]
#[tactic(auto, unfolding(crate::specs::ReadBlocks::read_branch))]
fn read_branch(
    alloc: Global,
    depth: usize,
    within: usize,
    tokens: &[Token],
) -> Result<((Item, usize), &[Token]), Unread>
    ensures { Gives (λ r. (r.0, r.1.now)) result (read_branch depth (read_item within) tokens.now) }
{
    let ((arm, end), rest) = read_arm(alloc, depth, within, tokens)?;
    let arms = Items::from_vec(one(alloc, arm)?);
    read_else(alloc, depth, within, tokens.len(), (arms, end), rest)
}

/// A `while` behind its word.
#[cycle(items)]
#[tactic(auto, unfolding(crate::specs::ReadBlocks::read_while))]
fn read_while(
    alloc: Global,
    depth: usize,
    within: usize,
    tokens: &[Token],
) -> Result<((Item, usize), &[Token]), Unread>
    ensures { Gives (λ r. (r.0, r.1.now)) result (read_while depth (read_item within) tokens.now) }
{
    let (test, rest) = read_test(alloc, depth, tokens)?;
    let ((body, end), rest) = read_body(alloc, depth, within, rest)?;
    Ok(((Item::While(test, body), end), rest))
}

/// A `for` behind its word.
#[cycle(items)]
#[tactic(auto, unfolding(crate::specs::ReadBlocks::read_for))]
fn read_for(
    alloc: Global,
    depth: usize,
    within: usize,
    tokens: &[Token],
) -> Result<((Item, usize), &[Token]), Unread>
    ensures { Gives (λ r. (r.0, r.1.now)) result (read_for depth (read_item within) tokens.now) }
{
    let (head, rest) = read_for_head(alloc, depth, tokens)?;
    let ((body, end), rest) = read_body(alloc, depth, within, rest)?;
    Ok(((Item::For(head, body), end), rest))
}

/// An item, the items in whose bodies are within a depth.
#[cycle(items)]
fn read_item_by(
    alloc: Global,
    depth: usize,
    within: usize,
    tokens: &[Token],
) -> Result<((Item, usize), &[Token]), Unread>
    ensures { Gives (λ r. (r.0, r.1.now)) result (read_item_by depth (read_item within) tokens.now) }
{
    let [token, rest @ ..] = tokens else {
        return Err(Unread::NotHere);
    };
    match term_of(token) {
        Term::OpenBrace => {
            let ((block, end), rest) = read_block(alloc, depth, within, tokens)?;
            Ok(((Item::Nest(block), end), rest))
        }
        Term::If => read_branch(alloc, depth, within, rest),
        Term::While => read_while(alloc, depth, within, rest),
        Term::For => read_for(alloc, depth, within, rest),
        Term::Break => {
            let (semicolon, rest) = read_want(Term::Semicolon, rest)?;
            Ok(((Item::Break, semicolon.end), rest))
        }
        Term::Continue => {
            let (semicolon, rest) = read_want(Term::Semicolon, rest)?;
            Ok(((Item::Continue, semicolon.end), rest))
        }
        Term::Return => read_return(alloc, depth, token, rest),
        _ => read_plain_item(alloc, depth, tokens),
    }
}

/// An item.
#[cycle(items)]
#[tactic(auto, unfolding(crate::specs::ReadBlocks::read_item))]
fn read_item(
    alloc: Global,
    depth: usize,
    tokens: &[Token],
) -> Result<((Item, usize), &[Token]), Unread>
    ensures { Gives (λ r. (r.0, r.1.now)) result (read_item depth tokens.now) }
{
    if depth == 0 {
        return Err(Unread::NotHere);
    }
    read_item_by(alloc, depth, depth - 1, tokens)
}
