// Entries: marks on their way over an edge.
ghost use Rattle.std.specs.Prelude.{◌≡◌};
ghost use Rattle.std.specs.Cmp.{partial_equiv_from_equiv};
ghost use Rattle.ts_domain.specs.SameEntries.{notes_fed, same_notes, same_notes_equiv, same_notes_fed};

use crate::marks::Mark;
use mf_list::Seq;
use std::hash::{Hash, Hasher};

/// The places, among the noted reads of an edge, of those that met the object.
#[derive(Debug, Drop)]
pub struct Notes {
    pub places: Seq<usize>,
}

impl PartialEq for Notes {
    ghost eq = { same_notes };

    ghost laws = { partial_equiv_from_equiv same_notes_equiv };

    fn eq(&self, other: &Notes) -> bool {
        self.places.as_slice() == other.places.as_slice()
    }
}

impl Eq for Notes {
    ghost laws = { same_notes_equiv };
}

impl Hash for Notes {
    ghost hash_input = { notes_fed };

    ghost respects_eq = { same_notes_fed };

    fn hash<H: Hasher>(&self, state: &mut H) {
        self.places.as_slice().hash(state);
    }
}

/// A mark, whether the object was touched so far, and what the noted reads found so far.
#[derive(Debug, Drop, PartialEq, Eq, Hash)]
pub struct Entry {
    pub mark: Mark,
    pub touched: bool,
    pub notes: Notes,
}
