// The texts of the faults, and the faults of texts.
ghost use Rattle.std.specs.Prelude.{◌≡◌, ◌↔◌, ℕ, List, Some, IsTrue, slice_get};
ghost use Rattle.std.specs.Option.{option_and_then};
ghost use Rattle.c_meaning.specs.declared.machine.Kind.{Kind as Fault};
ghost use Rattle.c_meaning.specs.Texts.{text_of, faults, place_of_fault, fault_of};
ghost use Rattle.mf_tables.specs.Table.{ascends, number_of, word_of};

use crate::Kind;
use mf_tables::{Table, rows};

// The texts, ascending, each with its place.
fn texts() -> Table<7>
    ensures sorted { IsTrue (ascends result.rows.now) }
    ensures words { (k : Fault) → word_of (place_of_fault k) result.rows.now ≡ Some (text_of k) }
    ensures numbers { (text : List ℕ) → option_and_then (slice_get faults) (number_of text result.rows.now) ≡ fault_of text }
{
    rows![
        b"division by zero" => 0,
        b"double free" => 1,
        b"null dereference" => 2,
        b"out of bounds" => 3,
        b"overflow" => 4,
        b"uninitialised value" => 5,
        b"use after free" => 6,
    ]
}

fn place_of(kind: Kind) -> u16
    ensures { result ≡ place_of_fault kind }
{
    match kind {
        Kind::DivZero => 0,
        Kind::DoubleFree => 1,
        Kind::NullDeref => 2,
        Kind::Bounds => 3,
        Kind::Overflow => 4,
        Kind::Uninit => 5,
        Kind::UseAfterFree => 6,
    }
}

fn kind_at(place: u16) -> Option<Kind>
    ensures { result ≡ slice_get faults place }
{
    let kinds = [
        Kind::DivZero,
        Kind::DoubleFree,
        Kind::NullDeref,
        Kind::Bounds,
        Kind::Overflow,
        Kind::Uninit,
        Kind::UseAfterFree,
    ];
    kinds.get(place as usize).copied()
}

/// The words for a fault, as they stand in lines on notes.
pub fn kind_text(kind: Kind) -> &'static [u8]
    ensures { result.now ≡ text_of kind }
{
    match texts().word_of(place_of(kind)) {
        Some(text) => text,
        None => unreachable!(),
    }
}

/// The fault that has a text.
pub fn kind_of(text: &[u8]) -> Option<Kind>
    ensures { (k : Fault) → (result ≡ Some k) ↔ (text.now ≡ text_of k) }
{
    match texts().find(text) {
        Some(place) => kind_at(place),
        None => None,
    }
}
