// Facts that deeds show, which are put into a set.
ghost use Rattle.std.specs.Prelude.{◌≡◌, ◌<◌, true, length};
ghost use Rattle.mf_set.specs.Numbers.{with_number};
ghost use Rattle.ts_domain.specs.Facts.{differ_shows, equal_shows, follow_shows, is_fact, null_shows, number_of, read_shows, saying_shows, write_shows};
ghost use Rattle.path_facts.specs.Numbering.{IsNumbering, room_of};
ghost use Rattle.path_facts.specs.Shows.{Shows, chosen, is_apart_from, is_filled, is_filled_at};

use crate::before::{apart_pair, equal_pair, field_at, is_field_of, owns_field};
use crate::numbering::{Numbering, number};
use mf_set::BitSet;
use ts_domain::{Fact, Looked, Names, Read, Saying};

/// Puts a fact into a set.
fn show(names: &Names, numbering: &Numbering, set: &mut BitSet, fact: Fact)
    requires numbering { IsNumbering names.now numbering.now }
    requires room { set.old.room ≡ room_of names.now }
    requires fact { is_fact names.now fact ≡ true }
    ensures { set.new ≡ record set.old { items = with_number set.old.items (number_of names.now fact) } }
{
    set.insert(number(numbering, fact));
}

fn show_name(names: &Names, numbering: &Numbering, set: &mut BitSet, name: usize)
    requires numbering { IsNumbering names.now numbering.now }
    requires room { set.old.room ≡ room_of names.now }
    ensures { Shows names.now (read_shows names.now (Read.Name name)) set.old set.new }
{
    let vars = names.vars.len();
    if name < vars {
        show(names, numbering, set, Fact::Ready(name));
        return;
    }
    if name - vars < names.fields.len() {
        show(names, numbering, set, Fact::Filled(name - vars));
    }
}

/// What is read is set.
pub fn show_read(names: &Names, numbering: &Numbering, set: &mut BitSet, read: Read)
    requires numbering { IsNumbering names.now numbering.now }
    requires room { set.old.room ≡ room_of names.now }
    ensures { Shows names.now (read_shows names.now read) set.old set.new }
{
    match read {
        Read::Name(name) => show_name(names, numbering, set, name),
        Read::Deep(_, _) => {}
    }
}

/// What is followed holds an object.
pub fn show_followed(names: &Names, numbering: &Numbering, set: &mut BitSet, variable: usize)
    requires numbering { IsNumbering names.now numbering.now }
    requires room { set.old.room ≡ room_of names.now }
    ensures { Shows names.now (follow_shows variable) set.old set.new }
{
    if variable < names.vars.len() {
        show(names, numbering, set, Fact::Full(variable));
    }
}

/// Whether a field is one of a variable, and that of a number where one is given.
fn chosen(variable: usize, number: Option<usize>, field: Option<(usize, usize)>) -> bool
    ensures { result ≡ chosen variable number field }
{
    match number {
        None => owns_field(variable, field),
        Some(number) => is_field_of(variable, number, field),
    }
}

fn show_field(
    names: &Names,
    numbering: &Numbering,
    set: &mut BitSet,
    variable: usize,
    number: Option<usize>,
    field: usize,
)
    requires numbering { IsNumbering names.now numbering.now }
    requires room { set.old.room ≡ room_of names.now }
    requires within { field < length names.now.fields }
    ensures { Shows names.now (is_filled_at names.now variable number field) set.old set.new }
{
    if chosen(variable, number, field_at(names, field)) {
        show(names, numbering, set, Fact::Filled(field));
    }
}

/// The fields of a variable that are chosen are set.
fn show_fields(
    names: &Names,
    numbering: &Numbering,
    set: &mut BitSet,
    variable: usize,
    number: Option<usize>,
)
    requires numbering { IsNumbering names.now numbering.now }
    requires room { set.old.room ≡ room_of names.now }
    ensures { Shows names.now (is_filled names.now variable number (length names.now.fields)) set.old set.new }
{
    for field in 0..names.fields.len() {
        show_field(names, numbering, set, variable, number, field);
    }
}

/// A field of what is stored to is set.
pub fn show_stored(
    names: &Names,
    numbering: &Numbering,
    set: &mut BitSet,
    base: Read,
    number: usize,
)
    requires numbering { IsNumbering names.now numbering.now }
    requires room { set.old.room ≡ room_of names.now }
    ensures { Shows names.now (write_shows names.now base number) set.old set.new }
{
    match base {
        Read::Name(variable) => show_fields(names, numbering, set, variable, Some(number)),
        Read::Deep(_, _) => {}
    }
}

fn show_equal(names: &Names, numbering: &Numbering, set: &mut BitSet, x: usize, y: usize)
    requires numbering { IsNumbering names.now numbering.now }
    requires room { set.old.room ≡ room_of names.now }
    ensures { Shows names.now (equal_shows (Looked.Name x) (Looked.Name y)) set.old set.new }
{
    let vars = names.vars.len();
    if x < vars && y < vars && x != y {
        show(names, numbering, set, equal_pair(x, y));
    }
}

fn show_apart(names: &Names, numbering: &Numbering, set: &mut BitSet, x: usize, y: usize)
    requires numbering { IsNumbering names.now numbering.now }
    requires room { set.old.room ≡ room_of names.now }
    ensures { Shows names.now (differ_shows (Looked.Name x) (Looked.Name y)) set.old set.new }
{
    let vars = names.vars.len();
    if x < vars && y < vars && x != y {
        show(names, numbering, set, apart_pair(x, y));
    }
}

/// A variable is apart from each other.
fn show_aparts(names: &Names, numbering: &Numbering, set: &mut BitSet, variable: usize)
    requires numbering { IsNumbering names.now numbering.now }
    requires room { set.old.room ≡ room_of names.now }
    ensures { Shows names.now (is_apart_from variable (length names.now.vars)) set.old set.new }
{
    for other in 0..names.vars.len() {
        show_apart(names, numbering, set, variable, other);
    }
}

/// A null pointer is apart from all, and its fields count as set.
fn show_null(names: &Names, numbering: &Numbering, set: &mut BitSet, variable: usize)
    requires numbering { IsNumbering names.now numbering.now }
    requires room { set.old.room ≡ room_of names.now }
    ensures { Shows names.now (null_shows names.now variable) set.old set.new }
{
    show_fields(names, numbering, set, variable, None);
    show_aparts(names, numbering, set, variable);
}

fn show_equals(names: &Names, numbering: &Numbering, set: &mut BitSet, left: Looked, right: Looked)
    requires numbering { IsNumbering names.now numbering.now }
    requires room { set.old.room ≡ room_of names.now }
    ensures { Shows names.now (equal_shows left right) set.old set.new }
{
    if let (Looked::Name(x), Looked::Name(y)) = (left, right) {
        show_equal(names, numbering, set, x, y);
    }
}

fn show_differs(names: &Names, numbering: &Numbering, set: &mut BitSet, left: Looked, right: Looked)
    requires numbering { IsNumbering names.now numbering.now }
    requires room { set.old.room ≡ room_of names.now }
    ensures { Shows names.now (differ_shows left right) set.old set.new }
{
    if let (Looked::Name(x), Looked::Name(y)) = (left, right) {
        show_apart(names, numbering, set, x, y);
    }
}

/// What a test says.
pub fn show_said(names: &Names, numbering: &Numbering, set: &mut BitSet, saying: Saying)
    requires numbering { IsNumbering names.now numbering.now }
    requires room { set.old.room ≡ room_of names.now }
    ensures { Shows names.now (saying_shows names.now saying) set.old set.new }
{
    match saying {
        Saying::IsNull(x) => show_null(names, numbering, set, x),
        Saying::IsntNull(x) => show_followed(names, numbering, set, x),
        Saying::AreEqual(left, right) => show_equals(names, numbering, set, left, right),
        Saying::Differ(left, right) => show_differs(names, numbering, set, left, right),
    }
}
