// The numbers of facts: by kind, and in each by variable, field or pair.
ghost use Rattle.std.specs.Prelude.{◌≡◌, ◌+◌, ◌<◌, ◌≤◌, true, length, IfOk};
ghost use Rattle.ts_domain.specs.Facts.{exists, fact_number, pair_number, pairs_below};
ghost use Rattle.path_facts.specs.Numbering.{AreNumbers, ArePairs, IsNumbering};

use mf_list::{Memory, Seq};
use std::alloc::{AllocError, Global};
use ts_domain::{Fact, Names};

/// How many pointer variables and fields there are, where the numbers of each kind of fact begin, how many pairs come
/// before those of each variable, and how many facts there are.
#[derive(Debug, Drop)]
pub struct Numbering {
    pub vars: usize,
    pub fields: usize,
    pub pairs: Seq<usize>,
    pub filled: usize,
    pub equal: usize,
    pub apart: usize,
    pub count: usize,
}

fn sum(a: usize, b: usize) -> Result<usize, Memory>
    ensures { IfOk result (λ c. c ≡ a + b) }
{
    match a.checked_add(b) {
        None => Err(AllocError),
        Some(c) => Ok(c),
    }
}

/// How many pairs come before those of each variable, and how many there are.
fn pairs_of(alloc: Global, vars: usize) -> Result<(Seq<usize>, usize), Memory>
    ensures { IfOk result (λ r. ArePairs vars vars r.0 × (r.1 ≡ pairs_below vars vars)) }
{
    let mut pairs = Seq::new(alloc);
    let mut next = 0;
    for variable in 0..vars {
        pairs.push(next)?;
        next = sum(next, vars - variable - 1)?;
    }
    Ok((pairs, next))
}

/// The numbers of the facts about the variables and fields of names.
pub fn numbering_of(alloc: Global, names: &Names) -> Result<Numbering, Memory>
    ensures { IfOk result (IsNumbering names.now) }
{
    let vars = names.vars.len();
    let fields = names.fields.len();
    let (pairs, pair_count) = pairs_of(alloc, vars)?;
    let filled = sum(vars, vars)?;
    let equal = sum(filled, fields)?;
    let apart = sum(equal, pair_count)?;
    let count = sum(apart, pair_count)?;
    Ok(Numbering {
        vars,
        fields,
        pairs,
        filled,
        equal,
        apart,
        count,
    })
}

fn pair_number(numbering: &Numbering, x: usize, y: usize) -> usize
    requires numbers { AreNumbers numbering.now }
    requires order { x < y }
    requires within { y < numbering.now.vars }
    ensures { result ≡ pair_number numbering.now.vars x y }
{
    *numbering.pairs.at(x) + (y - x - 1)
}

/// The number of a fact.
pub fn number(numbering: &Numbering, fact: Fact) -> usize
    requires numbers { AreNumbers numbering.now }
    requires exists { exists numbering.now.vars numbering.now.fields fact ≡ true }
    ensures { result ≡ fact_number numbering.now.vars numbering.now.fields fact }
{
    match fact {
        Fact::Ready(x) => x,
        Fact::Full(x) => numbering.vars + x,
        Fact::Filled(field) => numbering.filled + field,
        Fact::Equal(x, y) => numbering.equal + pair_number(numbering, x, y),
        Fact::Apart(x, y) => numbering.apart + pair_number(numbering, x, y),
    }
}
