// Tables of names, each with a value, in the order in which the names came.
ghost use Rattle.std.specs.Prelude.{◌≡◌, [], ◌∷◌, ◌++◌, None, OnOk, OnErr, length, take, ◌-◌};
ghost use Rattle.std.specs.Option.{option_copied};
ghost use Rattle.c_types.specs.Tables.{found, place_of};

use mf_list::{Memory, Seq};
use std::alloc::Global;
use std::collections::BTreeMap;
use std::marker::Model;

/// Names with a value each, seen as the list of its rows in the order in which they came. No name
/// comes twice. Look-ups go by a search tree, so that no choice of names makes them slow.
#[derive(Drop)]
pub struct NameTable<T> {
    rows: Vec<(Seq<u8>, T)>,
    places: BTreeMap<Vec<u8>, usize>,
}

impl<T> Model for NameTable<T> {
    ghost use Rattle.std.specs.Prelude.{List, ℕ};
    ghost use Rattle.std.specs.Coded.{coded_list, coded×, coded_ℕ};
    ghost use Rattle.c_types.specs.Tables.{IsIndex};

    ghost Value = { List (List ℕ × T) };

    ghost coded = { coded_list (coded× (coded_list coded_ℕ) T.code) };

    ghost view = { λ t. t.rows.items };

    ghost invariant = { λ t. IsIndex (λ name. name.items) t.places.entries t.rows.items };
}

impl<T: Drop> NameTable<T> {
    pub fn new(alloc: Global) -> NameTable<T>
        ensures { result ≡ [] }
    {
        NameTable {
            rows: Vec::new(alloc),
            places: BTreeMap::new(alloc),
        }
    }

    pub fn len(&self) -> usize
        ensures { result ≡ length self.now }
    {
        self.rows.len()
    }

    pub fn as_slice(&self) -> &[(Seq<u8>, T)]
        ensures { result.now ≡ self.now }
    {
        self.rows.as_slice()
    }

    /// The value of a name.
    pub fn find(&self, name: &[u8]) -> Option<&T>
        ensures { option_copied result ≡ found self.now name.now }
    {
        let place = *self.places.get(name)?;
        Some(&self.rows[place].1)
    }

    /// The place of a name's row.
    pub fn place(&self, name: &[u8]) -> Option<usize>
        ensures { result ≡ place_of self.now name.now }
    {
        self.places.get(name).copied()
    }

    /// Gives a name that is not there a value, in a new last row.
    pub fn declare(&mut self, alloc: Global, name: &[u8], value: T) -> Result<(), Memory>
        requires { found self.old name.now ≡ None }
        ensures ok { OnOk result (self.new ≡ self.old ++ (name.now, value) ∷ []) }
        ensures err { OnErr result (self.new ≡ self.old) }
    {
        let key = Vec::from_slice(alloc, name)?;
        let name = Seq::from_slice(alloc, name)?;
        self.rows.reserve(1)?;
        self.places.insert(key, self.rows.len())?;
        self.rows.push((name, value))?;
        Ok(())
    }

    /// Takes away the last row, if there is one.
    fn drop_last(&mut self)
        ensures { self.new ≡ take (length self.old - 1) self.old }
    {
        if let Some((name, _)) = self.rows.pop() {
            self.places.remove(name.as_slice());
        }
    }

    /// Takes away the rows behind the first n.
    pub fn truncate(&mut self, n: usize)
        ensures { self.new ≡ take n self.old }
    {
        while n < self.len() {
            self.drop_last();
        }
    }
}
