// Which puts a choice has.
ghost use Rattle.std.specs.Prelude.{◌≡◌, slice_get, IsTrue};
ghost use Rattle.c_tree.specs.Fill.{IsAscending, ascends, precedes, precedes_in_gap};
ghost use Rattle.c_tree.specs.Typing.{has};
ghost use Rattle.ts_domain.specs.Chosen.{has_put, is_chosen, is_field, is_put};

use crate::names::Names;
use c_tree::{Choice, Put};

fn is_field(one: Option<usize>, other: Option<usize>) -> bool
    ensures { result ≡ is_field one other }
{
    match (one, other) {
        (None, None) => true,
        (None, Some(_)) => false,
        (Some(_), None) => false,
        (Some(one), Some(other)) => one == other,
    }
}

fn is_put(one: Put, other: Put) -> bool
    ensures { result ≡ is_put one other }
{
    one.gap == other.gap && (one.var == other.var && is_field(one.field, other.field))
}

/// Whether one of the puts is that put.
pub fn has_put(puts: &[Put], put: Put) -> bool
    ensures { result ≡ has_put puts.now put }
{
    puts.iter().any(|other| is_put(put, *other))
}

fn precedes_in_gap(one: Put, other: Put) -> bool
    ensures { result ≡ precedes_in_gap one.field other.field one.var other.var }
{
    match (one.field, other.field) {
        (None, None) => one.var < other.var,
        (None, Some(_)) => false,
        (Some(_), None) => true,
        (Some(field), Some(next)) => {
            one.var < other.var || (one.var == other.var && field < next)
        }
    }
}

fn precedes(one: Put, other: Put) -> bool
    ensures { result ≡ precedes one other }
{
    one.gap < other.gap || (one.gap == other.gap && precedes_in_gap(one, other))
}

fn is_put_at(puts: &[Put], place: usize, put: Put) -> bool
    ensures { result ≡ has (is_put put) (slice_get puts.now place) }
{
    match puts.get(place) {
        None => false,
        Some(other) => is_put(put, *other),
    }
}

/// Whether one of the puts, which ascend, is that put: a binary search.
fn finds_put(puts: &[Put], put: Put) -> bool
    requires { IsTrue (ascends puts.now) }
    ensures { result ≡ has_put puts.now put }
{
    let place = puts.partition_point(|other| precedes(*other, put));
    is_put_at(puts, place, put)
}

/// Whether the put of a place is chosen.
pub fn is_chosen(names: &Names, choice: &Choice, place: usize) -> bool
    requires { IsAscending choice.now }
    ensures { result ≡ is_chosen names.now choice.now place }
{
    match names.puts.get(place) {
        None => false,
        Some(put) => finds_put(choice.puts.as_slice(), *put),
    }
}
