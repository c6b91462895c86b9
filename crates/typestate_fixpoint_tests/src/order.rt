//! Whether puts ascend, as a choice of puts has to.
ghost use Rattle.std.specs.Prelude.{◌≡◌};
ghost use Rattle.c_tree.specs.Fill.{ascends, precedes, precedes_in_gap};
ghost use Rattle.typestate_fixpoint_tests.specs.Order.{precedes_next};

use c_tree::Put;

fn precedes_in_gap(p: &Put, q: &Put) -> bool
    ensures { result ≡ precedes_in_gap p.now.field q.now.field p.now.var q.now.var }
{
    match (p.field, q.field) {
        (None, None) => p.var < q.var,
        (None, Some(_)) => false,
        (Some(_), None) => true,
        (Some(f), Some(g)) => p.var < q.var || p.var == q.var && f < g,
    }
}

fn precedes(p: &Put, q: &Put) -> bool
    ensures { result ≡ precedes p.now q.now }
{
    p.gap < q.gap || p.gap == q.gap && precedes_in_gap(p, q)
}

fn precedes_next(p: &Put, behind: &[Put]) -> bool
    ensures { result ≡ precedes_next p.now behind.now }
{
    match behind {
        [q, ..] => precedes(p, q),
        [] => true,
    }
}

/// Whether each put comes before the next one.
#[tactic(auto, using(crate::proofs::OrderLaws::ascends_opens))]
pub fn ascends(puts: &[Put]) -> bool
    ensures { result ≡ ascends puts.now }
{
    let mut left = puts;
    while let [first, rest @ ..] = left {
        if !precedes_next(first, rest) {
            return false;
        }
        left = rest;
    }
    true
}
