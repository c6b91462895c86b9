// The facts that are known of pointers at a node.

/// A fact about contents, in which freed objects count as objects. Variables are places among the pointer variables, and a
/// field is a place among the fields.
#[derive(Clone, Copy, Debug, PartialEq, Eq)]
pub enum Fact {
    /// The variable is not indeterminate.
    Ready(usize),
    /// The variable holds an object.
    Full(usize),
    /// The variable of the field holds no object, or its field is not indeterminate.
    Filled(usize),
    /// Both hold the same content; the lesser variable comes first.
    Equal(usize, usize),
    /// No object is held by both; the lesser variable comes first.
    Apart(usize, usize),
}
