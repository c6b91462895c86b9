// Each edited text, which reads as a program alike the filled one.
ghost use Rattle.std.specs.Prelude.{◌≡◌};
ghost use Rattle.c_tree.specs.Fill.{ascends, precedes, precedes_in_gap};
ghost use Rattle.source_patcher_tests.specs.Order.{precedes_next};

use crate::cases::{CASES, Case};
use c_lexer::lex;
use c_parser::parse;
use c_tree::{Choice, Put};
use c_types::resolve;
use mf_list::Seq;
use source_patcher::edit;
use std::test::Fail;

fn precedes_in_gap(p: &Put, q: &Put) -> bool
    ensures { result ≡ precedes_in_gap p.now.field q.now.field p.now.var q.now.var }
{
    match (p.field, q.field) {
        (None, None) => p.var < q.var,
        (None, Some(_)) => false,
        (Some(_), None) => true,
        (Some(f), Some(g)) => p.var < q.var || p.var == q.var && f < g,
    }
}

fn precedes(p: &Put, q: &Put) -> bool
    ensures { result ≡ precedes p.now q.now }
{
    p.gap < q.gap || p.gap == q.gap && precedes_in_gap(p, q)
}

fn precedes_next(p: &Put, behind: &[Put]) -> bool
    ensures { result ≡ precedes_next p.now behind.now }
{
    match behind {
        [q, ..] => precedes(p, q),
        [] => true,
    }
}

#[tactic(auto, using(crate::proofs::OrderLaws::ascends_opens))]
fn ascends(puts: &[Put]) -> bool
    ensures { result ≡ ascends puts.now }
{
    let mut left = puts;
    while let [first, rest @ ..] = left {
        if !precedes_next(first, rest) {
            return false;
        }
        left = rest;
    }
    true
}

fn is_edited(rt: &impl Alloc<A = std::alloc::Global>, case: &Case) -> Result<bool, Fail> {
    let tokens = lex(rt.alloc(), case.text)?;
    let tree = parse(rt.alloc(), &tokens)?;
    let program = resolve(rt.alloc(), &tree)?;
    let choice = Choice {
        puts: Seq::from_slice(rt.alloc(), case.puts)?,
    };
    if !ascends(choice.puts.as_slice()) {
        return Ok(false);
    }
    let text = edit(rt.alloc(), case.text, &program, &choice)?;
    Ok(text.as_slice() == case.edited)
}

#[test]
fn texts_are_edited(rt: HostRuntime) -> Result<(), Fail> {
    for case in &CASES {
        assert!(rt; is_edited(&rt, case)?);
    }
    Ok(())
}
