// Sets compared and fed to a hasher.
ghost use Rattle.std.specs.Prelude.{◌≡◌, ◌↔◌, IsTrue, refl};
ghost use Rattle.std.specs.Cmp.{partial_order_from_agreeing_total, partial_equiv_from_equiv};
ghost use Rattle.std.specs.Ordering.{as_partial_cmp};
ghost use Rattle.mf_set.specs.Order.{numbers_eq, numbers_cmp, writes_of, numbers_eq_equiv, numbers_cmp_total, numbers_ties, numbers_fed};

use super::BitSet;
use crate::words;
use std::cmp::Ordering;
use std::hash::{Hash, Hasher};

impl PartialEq for BitSet {
    ghost eq = { numbers_eq };

    ghost laws = { partial_equiv_from_equiv numbers_eq_equiv };

    fn eq(&self, other: &BitSet) -> bool
        ensures value { result ≡ numbers_eq self.now other.now }
        ensures same { IsTrue result ↔ (self.now ≡ other.now) }
    {
        self.room == other.room && words::is_equal(self.words.as_slice(), other.words.as_slice())
    }
}

impl Eq for BitSet {
    ghost laws = { numbers_eq_equiv };
}

/// By the rooms, and then by the greatest number that is in one of the sets alone.
impl Ord for BitSet {
    ghost cmp = { numbers_cmp };

    ghost total = { numbers_cmp_total };

    ghost matches_partial_cmp = { λ x y. refl };

    ghost matches_eq = { numbers_ties };

    fn cmp(&self, other: &BitSet) -> Ordering {
        match self.room.cmp(&other.room) {
            Ordering::Equal => words::compare(self.words.as_slice(), other.words.as_slice()),
            unequal => unequal,
        }
    }
}

impl PartialOrd for BitSet {
    ghost partial_cmp = { as_partial_cmp numbers_cmp };

    ghost laws = { partial_order_from_agreeing_total numbers_cmp numbers_cmp_total (λ _ _. refl) numbers_ties };

    fn partial_cmp(&self, other: &BitSet) -> Option<Ordering> {
        Some(self.cmp(other))
    }
}

impl Hash for BitSet {
    ghost hash_input = { writes_of };

    ghost respects_eq = { numbers_fed };

    fn hash<H: Hasher>(&self, state: &mut H) {
        self.room.hash(state);
        words::hash(self.words.as_slice(), state);
    }
}
