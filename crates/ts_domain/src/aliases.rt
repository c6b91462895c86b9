// Whether two variables hold the same object where a mark's object is.
ghost use Rattle.std.specs.Prelude.{◌≡◌};
ghost use Rattle.ts_domain.specs.declared.fact.Fact.TheVariants.{Equal, Apart};
ghost use Rattle.ts_domain.specs.Aliases.{alias, are_apart, are_same, base_alias, chain_alias, is_split, stands};
ghost use Rattle.ts_domain.specs.Marks.{knowledge};

use crate::fact::Fact;
use crate::fact_numbers::holds_at;
use crate::facts::Facts;
use crate::known::Known;
use crate::marks::{Alias, Mark};
use crate::names::{Names, Read};
use crate::sites::{shares, shares_variable};

fn stand_equal(names: &Names, facts: &Facts, node: usize, z: usize, x: usize) -> bool
    ensures { result ≡ stands names.now facts.now node Equal z x }
{
    let fact = if z < x {
        Fact::Equal(z, x)
    } else {
        Fact::Equal(x, z)
    };
    holds_at(names, &facts.path, node, fact)
}

fn stand_apart(names: &Names, facts: &Facts, node: usize, z: usize, x: usize) -> bool
    ensures { result ≡ stands names.now facts.now node Apart z x }
{
    let fact = if z < x {
        Fact::Apart(z, x)
    } else {
        Fact::Apart(x, z)
    };
    holds_at(names, &facts.path, node, fact)
}

fn is_split(mark: &Mark, z: usize, x: usize) -> bool
    ensures { result ≡ is_split mark.now z x }
{
    mark.holds.contains(z) && mark.lacks.contains(x)
        || mark.lacks.contains(z) && mark.holds.contains(x)
}

fn are_same(names: &Names, facts: &Facts, node: usize, mark: &Mark, z: usize, x: usize) -> bool
    ensures { result ≡ are_same names.now facts.now node mark.now z x }
{
    z == x
        || stand_equal(names, facts, node, z, x)
        || mark.holds.contains(z) && mark.holds.contains(x)
}

fn are_apart(names: &Names, facts: &Facts, node: usize, mark: &Mark, z: usize, x: usize) -> bool
    ensures { result ≡ are_apart names.now facts.now node mark.now z x }
{
    stand_apart(names, facts, node, z, x)
        || is_split(mark, z, x)
        || !shares_variable(&facts.may, z, x)
}

/// Whether two variables, by their places, hold the same object at a node where a mark's object is: surely, surely not, or
/// maybe. A field of the one is then a field of the other.
pub fn alias(names: &Names, facts: &Facts, node: usize, mark: &Mark, z: usize, x: usize) -> Alias
    ensures { result ≡ alias names.now facts.now node mark.now z x }
{
    if are_same(names, facts, node, mark, z, x) {
        Alias::Same
    } else if are_apart(names, facts, node, mark, z, x) {
        Alias::Diff
    } else {
        Alias::Maybe
    }
}

fn chain_alias(known: Known, z: usize, base: Read) -> Alias
    ensures { result ≡ chain_alias (knowledge known.entry) z base }
{
    if shares(known, z, base) {
        Alias::Maybe
    } else {
        Alias::Diff
    }
}

/// The same of a variable and the base of a write to a field.
pub fn base_alias(known: Known, mark: &Mark, z: usize, base: Read) -> Alias
    ensures { result ≡ base_alias (knowledge known.entry) mark.now z base }
{
    if let Read::Name(x) = base {
        if x < known.names.vars.len() {
            return alias(known.names, known.facts, known.node, mark, z, x);
        }
    }
    chain_alias(known, z, base)
}
