// What an edit changes at one gap.
ghost use Rattle.std.specs.Prelude.{◌≡◌, ◌++◌, OnOk, map, filter};
ghost use Rattle.std.specs.List.{flat_map};
ghost use Rattle.c_tree.specs.declared.expr.Expr.{out-Expr};
ghost use Rattle.source_patcher.specs.Gaps.{AreInOrder, is_variable, is_put, are_put, is_within, blanked, blanks, freed_at, gap_changes, writes};

use crate::change::{Change, Writing};
use crate::puts::GapPuts;
use c_lexer::Token;
use c_tree::{Expr, Free, Gap, Put};
use mf_list::{Memory, Seq};

fn is_variable(x: usize, expr: &Expr) -> bool
    ensures { result ≡ is_variable x (out-Expr expr.now) }
{
    match expr {
        Expr::Var(y, _) => *y == x,
        _ => false,
    }
}

fn is_put(free: &Free, put: &Put) -> bool
    ensures { result ≡ is_put free.now put.now }
{
    match (put.field, &free.expr) {
        (None, expr) => is_variable(put.var, expr),
        (Some(f), Expr::Field(base, g, _)) => *g == f && is_variable(put.var, base.get()),
        (Some(_), _) => false,
    }
}

fn are_put(frees: &[Free], puts: &[Put]) -> bool
    ensures { result ≡ are_put frees.now puts.now }
{
    if frees.len() != puts.len() {
        return false;
    }
    for i in 0..frees.len() {
        if !is_put(&frees[i], &puts[i]) {
            return false;
        }
    }
    true
}

/// The tokens of an old free but its `;`, by two binary searches.
fn tokens_within<'a>(tokens: &'a [Token], free: &Free) -> &'a [Token]
    requires { AreInOrder tokens.now }
    ensures { result.now ≡ filter (is_within free.now) tokens.now }
{
    let first = tokens.partition_point(|token| token.start < free.start);
    let (_, behind) = tokens.split_at(first);
    let count = behind.partition_point(|token| token.end < free.end);
    let (within, _) = behind.split_at(count);
    within
}

fn blanked(token: &Token) -> Change
    ensures { result ≡ blanked token.now }
{
    Change {
        start: token.start,
        end: token.end,
        writing: Writing::Blanks,
    }
}

fn push_blanks(out: &mut Seq<Change>, tokens: &[Token], free: &Free) -> Result<(), Memory>
    requires { AreInOrder tokens.now }
    ensures { OnOk result (out.new ≡ out.old ++ blanks tokens.now free.now) }
{
    let within = tokens_within(tokens, free);
    for token in within {
        out.push(blanked(token))?;
    }
    Ok(())
}

fn push_old(out: &mut Seq<Change>, tokens: &[Token], frees: &[Free]) -> Result<(), Memory>
    requires { AreInOrder tokens.now }
    ensures { OnOk result (out.new ≡ out.old ++ flat_map (blanks tokens.now) frees.now) }
{
    for free in frees {
        push_blanks(out, tokens, free)?;
    }
    Ok(())
}

fn freed_at(at: usize, put: &Put) -> Change
    ensures { result ≡ freed_at at put.now }
{
    Change {
        start: at,
        end: at,
        writing: Writing::Free(*put),
    }
}

fn push_new(out: &mut Seq<Change>, at: usize, puts: &[Put]) -> Result<(), Memory>
    ensures { OnOk result (out.new ≡ out.old ++ map (freed_at at) puts.now) }
{
    for put in puts {
        out.push(freed_at(at, put))?;
    }
    Ok(())
}

/// Whether a free is written into the gap.
pub(crate) fn writes(puts: &GapPuts, gap: &Gap) -> bool
    ensures { result ≡ writes puts.now gap.now }
{
    let new = puts.of(gap.number);
    !are_put(gap.frees.as_slice(), new) && !new.is_empty()
}

/// Adds the changes at a gap whose new frees stand at an offset.
pub(crate) fn push_gap(
    out: &mut Seq<Change>,
    tokens: &[Token],
    puts: &GapPuts,
    at: usize,
    gap: &Gap,
) -> Result<(), Memory>
    requires { AreInOrder tokens.now }
    ensures { OnOk result (out.new ≡ out.old ++ gap_changes tokens.now puts.now at gap.now) }
{
    let new = puts.of(gap.number);
    if are_put(gap.frees.as_slice(), new) {
        return Ok(());
    }
    push_old(out, tokens, gap.frees.as_slice())?;
    push_new(out, at, new)
}
