// What is said of control in a program: the edges of tests, the ends of blocks, and calls.

/// The edges of a test that may be taken: where it holds, and where it fails.
#[derive(Clone, Copy)]
pub struct Edges {
    pub holds: bool,
    pub fails: bool,
}

/// Whether a path may reach the end of a part of a function, and whether one may leave it by a
/// `break` of a loop around it.
#[derive(Clone, Copy)]
pub struct Flow {
    pub ends: bool,
    pub breaks: bool,
}

/// A call by its number, of a function by a function, each by its number; `at` is the offset of the
/// callee's name.
#[derive(Clone, Copy, Debug, PartialEq, Eq)]
pub struct UserCall {
    pub number: usize,
    pub caller: usize,
    pub callee: usize,
    pub at: usize,
}
