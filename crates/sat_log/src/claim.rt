//! What the check of a log decides at each of its clauses.
ghost use Rattle.std.specs.Prelude.{◌≡◌, slice_get};
ghost use Rattle.std.specs.Option.{option_copied};

use crate::Lit;
use mf_list::Seq;

/// That unit propagation over the given clauses and the earlier ones of a log clashes where the literals of `aim` are false.
#[derive(Clone, Copy, Debug)]
pub struct Claim<'a> {
    pub given: &'a [Seq<Lit>],
    pub earlier: &'a [Seq<Lit>],
    pub aim: &'a [Lit],
}

impl Claim<'_> {
    ghost use Rattle.sat_log.specs.Propagation.{base_of};

    /// The clause at a place, first of those given and then of the earlier ones.
    pub fn clause(&self, at: usize) -> Option<&[Lit]>
        ensures { option_copied result ≡ slice_get (base_of self.now) at }
    {
        match self.given.get(at) {
            Some(clause) => Some(clause.as_slice()),
            None => self
                .earlier
                .get(at - self.given.len())
                .map(|clause| clause.as_slice()),
        }
    }

    pub fn count(&self) -> usize {
        self.given.len() + self.earlier.len()
    }
}
