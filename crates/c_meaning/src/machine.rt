// The state of a run, and how it ends.
use crate::cells::Cells;
use crate::stack::Stack;
use crate::supply::Supply;
use crate::value::Value;
use mf_list::Seq;

/// What one `malloc` made: its cells, and whether it was freed (C99 6.2.4, 7.20.3).
#[derive(Debug, Drop)]
pub struct Object {
    pub cells: Cells,
    pub freed: bool,
}

/// The faults of a run; each is undefined behavior of the program.
#[derive(Clone, Copy, Debug, PartialEq, Eq)]
pub enum Kind {
    NullDeref,
    Bounds,
    Uninit,
    UseAfterFree,
    Overflow,
    DivZero,
    DoubleFree,
}

/// Where a value is kept: in the slot of the variable of that number, or in a cell of an object, by
/// the numbers of both (C99 3.14).
#[derive(Clone, Copy, Debug, PartialEq, Eq)]
pub enum Location {
    Slot(usize),
    Cell(usize, usize),
}

/// Why an evaluation gives no value: a fault at an offset in the text, or a form that the grammar or
/// the types exclude, so that no well-formed program comes to it.
#[derive(Clone, Copy, Debug, PartialEq, Eq)]
pub enum Stop {
    Faulted(Kind, usize),
    Excluded,
}

/// How far a run is. `Fault` has the fault, its offset in the text, and whether a free raised it.
#[derive(Clone, Copy, Debug, PartialEq, Eq)]
pub enum Ending {
    Running,
    Returned(i32),
    Fault(Kind, usize, bool),
}

/// A call that has not returned: its function, the place where control stands in it, and the
/// variable that receives its result, where one does.
#[derive(Debug, Drop)]
pub struct Frame {
    pub fun: usize,
    pub path: Seq<usize>,
    pub target: Option<usize>,
}

/// The state of a run: a slot for each variable, the objects in the order of their births, the
/// calls that have not returned, the innermost first, the input left, the answers left of `malloc`
/// (true where it fails), the output, the steps taken and the ending.
#[derive(Debug, Drop)]
pub struct Machine {
    pub slots: Seq<Value>,
    pub objects: Seq<Object>,
    pub rest: Stack<Frame>,
    pub input: Supply<u8>,
    pub fails: Supply<bool>,
    pub output: Seq<u8>,
    pub steps: u64,
    pub ending: Ending,
}
