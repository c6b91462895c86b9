// Facts of a set that are set to what they are to be behind a write to a variable, by the set before it.
ghost use Rattle.std.specs.Prelude.{◌≡◌, ◌⊎◌, ◌<◌, true, length, slice_get};
ghost use Rattle.ts_domain.specs.Facts.{is_fact, owns_field};
ghost use Rattle.path_facts.specs.Corrections.{Corrects, IsOfVariable, is_of_field, is_of_name, is_of_pair, is_of_two, right_set};
ghost use Rattle.path_facts.specs.Numbering.{IsNumbering, holds_before, is_known, put, room_of};

use crate::before::{apart_pair, before_given, equal_pair, field_at, given, owns_field};
use crate::numbering::{Numbering, number};
use mf_set::BitSet;
use ts_domain::{Before, Fact, Names, Source};

/// Puts a number into a set, or takes it out.
pub fn put(set: &mut BitSet, number: usize, value: bool)
    requires { number < set.old.room }
    ensures { set.new ≡ put number value set.old }
{
    if value {
        set.insert(number)
    } else {
        set.remove(number)
    }
}

/// Whether a set has what has to hold before.
fn held(names: &Names, numbering: &Numbering, set: &BitSet, before: Before) -> bool
    requires numbering { IsNumbering names.now numbering.now }
    requires known { is_known names.now before ≡ true }
    ensures { result ≡ holds_before names.now set.now before }
{
    match before {
        Before::Always => true,
        Before::Never => false,
        Before::Where(fact) => set.contains(number(numbering, fact)),
    }
}

/// Sets a fact to what it has to be behind the write.
fn correct(
    names: &Names,
    numbering: &Numbering,
    variable: usize,
    value: Source,
    source: &BitSet,
    set: &mut BitSet,
    fact: Fact,
)
    requires numbering { IsNumbering names.now numbering.now }
    requires room { set.old.room ≡ room_of names.now }
    requires fact { is_fact names.now fact ≡ true }
    ensures { Corrects names.now (right_set names.now variable value source.now) (λ f. f ≡ fact) set.old set.new }
{
    let before = before_given(names, variable, given(names, value), fact);
    let holds = held(names, numbering, source, before);
    put(set, number(numbering, fact), holds);
}

fn correct_variable(
    names: &Names,
    numbering: &Numbering,
    variable: usize,
    value: Source,
    source: &BitSet,
    set: &mut BitSet,
)
    requires numbering { IsNumbering names.now numbering.now }
    requires room { set.old.room ≡ room_of names.now }
    requires within { variable < length names.now.vars }
    ensures { Corrects names.now (right_set names.now variable value source.now) (λ f. (f ≡ Fact.Ready variable) ⊎ (f ≡ Fact.Full variable)) set.old set.new }
{
    correct(
        names,
        numbering,
        variable,
        value,
        source,
        set,
        Fact::Ready(variable),
    );
    correct(
        names,
        numbering,
        variable,
        value,
        source,
        set,
        Fact::Full(variable),
    );
}

fn correct_field(
    names: &Names,
    numbering: &Numbering,
    variable: usize,
    value: Source,
    source: &BitSet,
    set: &mut BitSet,
    field: usize,
)
    requires numbering { IsNumbering names.now numbering.now }
    requires room { set.old.room ≡ room_of names.now }
    ensures { Corrects names.now (right_set names.now variable value source.now) (λ f. f ≡ Fact.Filled field) set.old set.new }
{
    if field < names.fields.len() {
        correct(
            names,
            numbering,
            variable,
            value,
            source,
            set,
            Fact::Filled(field),
        );
    }
}

/// The facts of the variable itself.
fn correct_name(
    names: &Names,
    numbering: &Numbering,
    variable: usize,
    value: Source,
    source: &BitSet,
    set: &mut BitSet,
)
    requires numbering { IsNumbering names.now numbering.now }
    requires room { set.old.room ≡ room_of names.now }
    ensures { Corrects names.now (right_set names.now variable value source.now) (λ f. is_of_name names.now variable f ≡ true) set.old set.new }
{
    let vars = names.vars.len();
    if variable < vars {
        correct_variable(names, numbering, variable, value, source, set);
    } else {
        correct_field(
            names,
            numbering,
            variable,
            value,
            source,
            set,
            variable - vars,
        );
    }
}

fn correct_field_of(
    names: &Names,
    numbering: &Numbering,
    variable: usize,
    value: Source,
    source: &BitSet,
    set: &mut BitSet,
    field: usize,
)
    requires numbering { IsNumbering names.now numbering.now }
    requires room { set.old.room ≡ room_of names.now }
    ensures { Corrects names.now (right_set names.now variable value source.now) (λ f. (f ≡ Fact.Filled field) × (owns_field variable (slice_get names.now.fields field) ≡ true)) set.old set.new }
{
    if owns_field(variable, field_at(names, field)) {
        correct_field(names, numbering, variable, value, source, set, field);
    }
}

/// The facts of the fields of the variable.
fn correct_fields(
    names: &Names,
    numbering: &Numbering,
    variable: usize,
    value: Source,
    source: &BitSet,
    set: &mut BitSet,
)
    requires numbering { IsNumbering names.now numbering.now }
    requires room { set.old.room ≡ room_of names.now }
    ensures { Corrects names.now (right_set names.now variable value source.now) (λ f. is_of_field names.now variable (length names.now.fields) f ≡ true) set.old set.new }
{
    for field in 0..names.fields.len() {
        correct_field_of(names, numbering, variable, value, source, set, field);
    }
}

/// The facts of the variable and another.
fn correct_pair(
    names: &Names,
    numbering: &Numbering,
    variable: usize,
    value: Source,
    source: &BitSet,
    set: &mut BitSet,
    other: usize,
)
    requires numbering { IsNumbering names.now numbering.now }
    requires room { set.old.room ≡ room_of names.now }
    ensures { Corrects names.now (right_set names.now variable value source.now) (λ f. is_of_two variable other f ≡ true) set.old set.new }
{
    let vars = names.vars.len();
    if variable < vars && other < vars && variable != other {
        correct(
            names,
            numbering,
            variable,
            value,
            source,
            set,
            equal_pair(variable, other),
        );
        correct(
            names,
            numbering,
            variable,
            value,
            source,
            set,
            apart_pair(variable, other),
        );
    }
}

/// The facts of the variable and each other.
fn correct_pairs(
    names: &Names,
    numbering: &Numbering,
    variable: usize,
    value: Source,
    source: &BitSet,
    set: &mut BitSet,
)
    requires numbering { IsNumbering names.now numbering.now }
    requires room { set.old.room ≡ room_of names.now }
    ensures { Corrects names.now (right_set names.now variable value source.now) (λ f. is_of_pair variable (length names.now.vars) f ≡ true) set.old set.new }
{
    for other in 0..names.vars.len() {
        correct_pair(names, numbering, variable, value, source, set, other);
    }
}

/// All facts of the variable.
pub fn correct_all(
    names: &Names,
    numbering: &Numbering,
    variable: usize,
    value: Source,
    source: &BitSet,
    set: &mut BitSet,
)
    requires numbering { IsNumbering names.now numbering.now }
    requires room { set.old.room ≡ room_of names.now }
    ensures { Corrects names.now (right_set names.now variable value source.now) (IsOfVariable names.now variable) set.old set.new }
{
    correct_name(names, numbering, variable, value, source, set);
    correct_fields(names, numbering, variable, value, source, set);
    correct_pairs(names, numbering, variable, value, source, set);
}
