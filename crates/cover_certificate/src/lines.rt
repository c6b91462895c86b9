// The lines of marks, and their order.
ghost use Rattle.std.specs.Prelude.{◌≡◌};
ghost use Rattle.std.specs.Cmp.Lexicographic.{slice_cmp};
ghost use Rattle.std.specs.Ordering.{nat_cmp};
ghost use Rattle.cover_certificate.specs.Lines.{held_cmp, line_cmp, open_cmp, site_cmp};

use crate::types::CertMark;
use mf_set::BitSet;
use std::cmp::Ordering;

/// A mark, and the expressions that it leaves undecided, by which its line stands among the others.
#[derive(Debug, Drop)]
pub struct Line {
    pub mark: CertMark,
    pub undecided: BitSet,
}

/// Sets compared number by number.
fn compare_sets(x: &BitSet, y: &BitSet) -> Ordering
    ensures { result ≡ slice_cmp nat_cmp x.now.items y.now.items }
{
    let mut from = 0;
    while let Some(number) = x.next_from(from) {
        let Some(other) = y.next_from(from) else {
            return Ordering::Greater;
        };
        if number != other {
            return number.cmp(&other);
        }
        from = number + 1;
    }
    if y.next_from(from).is_some() {
        Ordering::Less
    } else {
        Ordering::Equal
    }
}

fn compare_open(x: &Line, y: &Line) -> Ordering
    ensures { result ≡ open_cmp x.now y.now }
{
    match compare_sets(&x.undecided, &y.undecided) {
        Ordering::Equal => x.mark.freed.cmp(&y.mark.freed),
        unequal => unequal,
    }
}

fn compare_held(x: &Line, y: &Line) -> Ordering
    ensures { result ≡ held_cmp x.now y.now }
{
    match compare_sets(&x.mark.mark.holds, &y.mark.mark.holds) {
        Ordering::Equal => compare_open(x, y),
        unequal => unequal,
    }
}

fn compare_site(x: &Line, y: &Line) -> Ordering
    ensures { result ≡ site_cmp x.now y.now }
{
    match x.mark.mark.site.cmp(&y.mark.mark.site) {
        Ordering::Equal => compare_held(x, y),
        unequal => unequal,
    }
}

/// Lines by node, by site, by what surely points to the object, by what is undecided, and last by the bit.
pub fn compare(x: &Line, y: &Line) -> Ordering
    ensures { result ≡ line_cmp x.now y.now }
{
    match x.mark.node.cmp(&y.mark.node) {
        Ordering::Equal => compare_site(x, y),
        unequal => unequal,
    }
}
