// Places of a list in rows by their keys, so that no list is searched again and again.
ghost use Rattle.std.specs.Prelude.{◌≡◌, ◌<◌, length, slice_get, IfOk, OnOk};
ghost use Rattle.ts_domain.specs.Rows.{row, AreAdded, AreRows, AreSame};

use mf_list::{Memory, Seq};
use std::alloc::Global;

/// The row of a key, which is empty where there is none.
pub fn row(rows: &[Seq<usize>], key: usize) -> &[usize]
    ensures { result.now ≡ row rows.now key }
{
    match rows.get(key) {
        None => &[],
        Some(row) => row.as_slice(),
    }
}

/// The first place of a key.
pub fn first(rows: &[Seq<usize>], key: usize) -> Option<usize>
    ensures { result ≡ slice_get (row rows.now key) 0 }
{
    row(rows, key).get(0).copied()
}

fn grow(alloc: Global, rows: &mut Seq<Seq<usize>>, key: usize) -> Result<(), Memory>
    ensures same { OnOk result (AreSame rows.old rows.new) }
    ensures reaches { OnOk result (key < length rows.new) }
{
    while rows.len() <= key {
        rows.push(Seq::new(alloc))?;
    }
    Ok(())
}

fn add(
    alloc: Global,
    rows: &mut Seq<Seq<usize>>,
    key: Option<usize>,
    place: usize,
) -> Result<(), Memory>
    ensures { OnOk result (AreAdded key place rows.old rows.new) }
{
    let Some(key) = key else {
        return Ok(());
    };
    grow(alloc, rows, key)?;
    rows.at_mut(key).push(place)?;
    Ok(())
}

/// The places of each key.
pub fn rows_of(alloc: Global, keys: &Seq<Option<usize>>) -> Result<Seq<Seq<usize>>, Memory>
    ensures { IfOk result (λ rows. AreRows keys.now rows) }
{
    let mut rows = Seq::new(alloc);
    for place in 0..keys.len() {
        add(alloc, &mut rows, *keys.at(place), place)?;
    }
    Ok(rows)
}
