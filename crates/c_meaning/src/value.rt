/// The content of a slot or a cell: indeterminate (C99 6.7.8p10), an `int`, a null pointer, or a
/// pointer to the object of that number.
#[derive(Clone, Copy, Debug, PartialEq, Eq)]
pub enum Value {
    Undef,
    Int(i32),
    Null,
    Ptr(usize),
}
