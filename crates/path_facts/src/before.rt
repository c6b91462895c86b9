// What has to hold before a write to a variable so that a fact holds behind it.
ghost use Rattle.std.specs.Prelude.{◌≡◌, ◌==◌, cond, slice_get};
ghost use Rattle.ts_domain.specs.Facts.{apart, apart_of, apart_pair, before_given, equal, equal_of, equal_pair, filled, filled_of, full_of, given, given_read, is_field_of, is_itself, other_of, owns_field, pair_of, ready_of};

use ts_domain::{Before, Fact, Given, Looked, Names, Source, field_place};

/// That two variables are equal.
pub fn equal_pair(x: usize, y: usize) -> Fact
    ensures { result ≡ equal_pair x y }
{
    if x < y {
        Fact::Equal(x, y)
    } else {
        Fact::Equal(y, x)
    }
}

/// That two variables are apart.
pub fn apart_pair(x: usize, y: usize) -> Fact
    ensures { result ≡ apart_pair x y }
{
    if x < y {
        Fact::Apart(x, y)
    } else {
        Fact::Apart(y, x)
    }
}

fn equal(x: usize, y: usize) -> Before
    ensures { result ≡ equal x y }
{
    if x == y {
        Before::Always
    } else {
        Before::Where(equal_pair(x, y))
    }
}

fn apart(x: usize, y: usize) -> Before
    ensures { result ≡ apart x y }
{
    if x == y {
        Before::Never
    } else {
        Before::Where(apart_pair(x, y))
    }
}

fn filled(place: Option<usize>) -> Before
    ensures { result ≡ filled place }
{
    match place {
        None => Before::Never,
        Some(field) => Before::Where(Fact::Filled(field)),
    }
}

fn given_read(names: &Names, looked: Looked) -> Given
    ensures { result ≡ given_read names.now looked }
{
    match looked {
        Looked::Name(name) => {
            if name < names.vars.len() {
                Given::Copied(name)
            } else {
                Given::Loaded
            }
        }
        Looked::Deep(_, _, _) => Given::Loaded,
    }
}

/// What a write gives, as far as facts tell.
pub fn given(names: &Names, source: Source) -> Given
    ensures { result ≡ given names.now source }
{
    match source {
        Source::Content(looked) => given_read(names, looked),
        Source::Null => Given::Nothing,
        Source::New(_) => Given::Fresh,
        Source::Undef => Given::Unset,
    }
}

fn ready_of(given: Given) -> Before
    ensures { result ≡ ready_of given }
{
    match given {
        Given::Copied(_) | Given::Loaded | Given::Nothing | Given::Fresh => Before::Always,
        Given::Unset => Before::Never,
    }
}

fn full_of(given: Given) -> Before
    ensures { result ≡ full_of given }
{
    match given {
        Given::Copied(y) => Before::Where(Fact::Full(y)),
        Given::Fresh => Before::Always,
        Given::Loaded | Given::Nothing | Given::Unset => Before::Never,
    }
}

fn filled_of(names: &Names, field: usize, given: Given) -> Before
    ensures { result ≡ filled_of names.now field given }
{
    match given {
        Given::Copied(y) => filled(field_place(names.fields.as_slice(), y, field)),
        Given::Nothing | Given::Unset => Before::Always,
        Given::Loaded | Given::Fresh => Before::Never,
    }
}

fn equal_of(z: usize, given: Given) -> Before
    ensures { result ≡ equal_of z given }
{
    match given {
        Given::Copied(y) => equal(y, z),
        Given::Loaded | Given::Nothing | Given::Fresh | Given::Unset => Before::Never,
    }
}

fn apart_of(z: usize, given: Given) -> Before
    ensures { result ≡ apart_of z given }
{
    match given {
        Given::Copied(y) => apart(y, z),
        Given::Nothing | Given::Fresh | Given::Unset => Before::Always,
        Given::Loaded => Before::Never,
    }
}

fn other_of(x: usize, y: usize, z: usize) -> Option<usize>
    ensures { result ≡ other_of x y z }
{
    if x == y {
        Some(z)
    } else if x == z {
        Some(y)
    } else {
        None
    }
}

/// The variable of a field and its number in the struct.
pub fn field_at(names: &Names, field: usize) -> Option<(usize, usize)>
    ensures { result ≡ slice_get names.now.fields field }
{
    names.fields.as_slice().get(field).copied()
}

fn ready_before(x: usize, given: Given, y: usize) -> Before
    ensures { result ≡ cond (x == y) (ready_of given) (Before.Where (Fact.Ready y)) }
{
    if x == y {
        ready_of(given)
    } else {
        Before::Where(Fact::Ready(y))
    }
}

fn full_before(x: usize, given: Given, y: usize) -> Before
    ensures { result ≡ cond (x == y) (full_of given) (Before.Where (Fact.Full y)) }
{
    if x == y {
        full_of(given)
    } else {
        Before::Where(Fact::Full(y))
    }
}

fn filled_before(names: &Names, x: usize, given: Given, field: usize) -> Before
    ensures { result ≡ before_given names.now x given (Fact.Filled field) }
{
    match field_at(names, field) {
        None => Before::Where(Fact::Filled(field)),
        Some((variable, number)) => {
            if variable == x {
                filled_of(names, number, given)
            } else {
                Before::Where(Fact::Filled(field))
            }
        }
    }
}

fn equal_before(x: usize, given: Given, y: usize, z: usize) -> Before
    ensures { result ≡ pair_of (Fact.Equal y z) (λ o. equal_of o given) (other_of x y z) }
{
    match other_of(x, y, z) {
        None => Before::Where(Fact::Equal(y, z)),
        Some(other) => equal_of(other, given),
    }
}

fn apart_before(x: usize, given: Given, y: usize, z: usize) -> Before
    ensures { result ≡ pair_of (Fact.Apart y z) (λ o. apart_of o given) (other_of x y z) }
{
    match other_of(x, y, z) {
        None => Before::Where(Fact::Apart(y, z)),
        Some(other) => apart_of(other, given),
    }
}

/// What has to hold before a variable gets that, so that a fact holds behind it.
pub fn before_given(names: &Names, x: usize, given: Given, fact: Fact) -> Before
    ensures { result ≡ before_given names.now x given fact }
{
    match fact {
        Fact::Ready(y) => ready_before(x, given, y),
        Fact::Full(y) => full_before(x, given, y),
        Fact::Filled(field) => filled_before(names, x, given, field),
        Fact::Equal(y, z) => equal_before(x, given, y, z),
        Fact::Apart(y, z) => apart_before(x, given, y, z),
    }
}

/// Whether a variable gets its own content.
pub fn is_itself(x: usize, given: Given) -> bool
    ensures { result ≡ is_itself x given }
{
    match given {
        Given::Copied(y) => x == y,
        Given::Loaded | Given::Nothing | Given::Fresh | Given::Unset => false,
    }
}

/// Whether a field is that of a number of a variable.
pub fn is_field_of(x: usize, number: usize, field: Option<(usize, usize)>) -> bool
    ensures { result ≡ is_field_of x number field }
{
    match field {
        None => false,
        Some((variable, of)) => variable == x && of == number,
    }
}

/// Whether a field is one of a variable.
pub fn owns_field(x: usize, field: Option<(usize, usize)>) -> bool
    ensures { result ≡ owns_field x field }
{
    match field {
        None => false,
        Some((variable, _)) => variable == x,
    }
}
