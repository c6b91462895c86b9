// Whether a mark is matched at a node.
ghost use Rattle.std.specs.Prelude.{◌≡◌};
ghost use Rattle.ts_domain.specs.Path.{same_bool};
ghost use Rattle.cover_certificate.specs.Closed.{says_no_more};
ghost use Rattle.cert_checker.specs.Checking.{matched_by, passes};

use crate::checking::Checking;
use cover_certificate::CertMark;
use ts_domain::{Mark, row};

fn same_bool(a: bool, b: bool) -> bool
    ensures { result ≡ same_bool a b }
{
    if a { b } else { !b }
}

fn says_no_more(mark: &Mark, freed: bool, other: &CertMark) -> bool
    ensures { result ≡ says_no_more mark.now freed other.now }
{
    other.mark.site == mark.site
        && (same_bool(other.freed, freed)
            && (other.mark.holds.is_subset(&mark.holds) && other.mark.lacks.is_subset(&mark.lacks)))
}

fn matches_at(marks: &[CertMark], mark: &Mark, freed: bool, place: usize) -> bool
    ensures { result ≡ passes (says_no_more mark.now freed) marks.now place }
{
    match marks.get(place) {
        None => false,
        Some(other) => says_no_more(mark, freed, other),
    }
}

/// Whether some mark at a node has the site and the bit, and says no more.
pub fn is_matched(checking: Checking, node: usize, mark: &Mark, freed: bool) -> bool
    ensures { result ≡ matched_by checking.entry node mark.now freed }
{
    let marks = checking.cert.marks.as_slice();
    let places = row(checking.marks.as_slice(), node);
    places
        .iter()
        .any(|place| matches_at(marks, mark, freed, *place))
}
