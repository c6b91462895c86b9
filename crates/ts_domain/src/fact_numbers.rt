// The numbers of facts. Past the greatest number of a machine all are that one, which no set has.
ghost use Rattle.std.specs.Prelude.{◌≡◌, ℕ, ◌-◌, ◌^◌, min};
ghost use Rattle.mf_set.specs.Numbers.{has};
ghost use Rattle.ts_domain.specs.Facts.{number_of, pair_number, pairs_below};
ghost use Rattle.ts_domain.specs.Path.{holds_at};

use crate::fact::Fact;
use crate::facts::Path;
use crate::names::Names;
use mf_set::BitSet;

#[tactic(auto, using(crate::proofs::FactNumbers::pairs_more))]
fn pairs_below(vars: usize, x: usize) -> usize
    ensures { result ≡ min (pairs_below vars x) (2 ^ 64 - 1) }
{
    let mut sum: usize = 0;
    for first in 0..x {
        sum = sum.saturating_add(vars.saturating_sub(first + 1));
    }
    sum
}

fn pair_number(vars: usize, x: usize, y: usize) -> usize
    ensures { result ≡ min (pair_number vars x y) (2 ^ 64 - 1) }
{
    pairs_below(vars, x).saturating_add(y.saturating_sub(x).saturating_sub(1))
}

/// The number of a fact.
fn number_of(names: &Names, fact: Fact) -> usize
    ensures { result ≡ min (number_of names.now fact) (2 ^ 64 - 1) }
{
    let vars = names.vars.len();
    let fields = names.fields.len();
    match fact {
        Fact::Ready(x) => x,
        Fact::Full(x) => vars.saturating_add(x),
        Fact::Filled(field) => vars.saturating_add(vars).saturating_add(field),
        Fact::Equal(x, y) => {
            let pair = pair_number(vars, x, y);
            vars.saturating_add(vars)
                .saturating_add(fields)
                .saturating_add(pair)
        }
        Fact::Apart(x, y) => {
            let pair = pair_number(vars, x, y);
            let pairs = pairs_below(vars, vars);
            vars.saturating_add(vars)
                .saturating_add(fields)
                .saturating_add(pairs)
                .saturating_add(pair)
        }
    }
}

fn has_number(set: &BitSet, number: usize) -> bool
    ensures { (n : ℕ) → number ≡ min n (2 ^ 64 - 1) → result ≡ has set.now.items n }
{
    number < set.room() && set.contains(number)
}

/// Whether a fact is noted at a node.
pub fn holds_at(names: &Names, path: &Path, node: usize, fact: Fact) -> bool
    ensures { result ≡ holds_at names.now path.now node fact }
{
    match path.at.get(node) {
        None => false,
        Some(facts) => has_number(facts, number_of(names, fact)),
    }
}
