// What puts free, and the puts of each gap.
ghost use Rattle.std.specs.Prelude.{◌≡◌, map, IfOk};
ghost use Rattle.ts_domain.specs.Derived.{base, base_at, freed, freed_at, put_gap};
ghost use Rattle.typestate_fixpoint.specs.Gaps.{freed_of, ArePuts};

use c_tree::Put;
use mf_list::{Memory, Seq};
use std::alloc::Global;
use ts_domain::{Names, field_place, place_of, rows_of};

/// The expression that a put frees, and the variable if it is a field.
#[derive(Clone, Copy, Debug)]
pub struct Freed {
    pub expression: Option<usize>,
    pub base: Option<usize>,
}

/// The places of the puts of each gap, and what each put frees.
#[derive(Debug, Drop)]
pub struct Puts {
    pub rows: Seq<Seq<usize>>,
    pub freed: Seq<Freed>,
}

fn field_freed(names: &Names, variable: usize, field: usize) -> Option<usize>
    ensures { result ≡ freed_at names.now (Some field) variable }
{
    let vars = names.vars.as_slice();
    match field_place(names.fields.as_slice(), variable, field) {
        None => None,
        Some(place) => Some(vars.len() + place),
    }
}

fn freed_at(names: &Names, field: Option<usize>, variable: usize) -> Option<usize>
    ensures { result ≡ freed_at names.now field variable }
{
    match field {
        None => Some(variable),
        Some(field) => field_freed(names, variable, field),
    }
}

fn expression_of(names: &Names, put: Put) -> Option<usize>
    ensures { result ≡ freed names.now put }
{
    match place_of(names, put.var) {
        None => None,
        Some(variable) => freed_at(names, put.field, variable),
    }
}

fn base_at(field: Option<usize>, variable: usize) -> Option<usize>
    ensures { result ≡ base_at field variable }
{
    match field {
        None => None,
        Some(_) => Some(variable),
    }
}

fn base_of(names: &Names, put: Put) -> Option<usize>
    ensures { result ≡ base names.now put }
{
    match place_of(names, put.var) {
        None => None,
        Some(variable) => base_at(put.field, variable),
    }
}

fn freed_of(names: &Names, put: Put) -> Freed
    ensures { result ≡ freed_of names.now put }
{
    Freed {
        expression: expression_of(names, put),
        base: base_of(names, put),
    }
}

fn all_freed(alloc: Global, names: &Names, puts: &[Put]) -> Result<Seq<Freed>, Memory>
    ensures { IfOk result (λ list. list ≡ map (freed_of names.now) puts.now) }
{
    let mut list = Seq::new(alloc);
    for put in puts {
        list.push(freed_of(names, *put))?;
    }
    Ok(list)
}

fn gap_keys(alloc: Global, puts: &[Put]) -> Result<Seq<Option<usize>>, Memory>
    ensures { IfOk result (λ keys. keys ≡ map put_gap puts.now) }
{
    let mut keys = Seq::new(alloc);
    for put in puts {
        keys.push(Some(put.gap))?;
    }
    Ok(keys)
}

/// What each put frees, and the puts of each gap in the order in which a gap is filled.
pub fn puts_of(alloc: Global, names: &Names) -> Result<Puts, Memory>
    ensures { IfOk result (ArePuts names.now) }
{
    let keys = gap_keys(alloc, names.puts.as_slice())?;
    let rows = rows_of(alloc, &keys)?;
    let freed = all_freed(alloc, names, names.puts.as_slice())?;
    Ok(Puts { rows, freed })
}
