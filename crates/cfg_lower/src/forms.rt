// The instructions, parts and places of a function, as they are met in its tree.
use c_meaning::Stack;
use c_tree::{Block, Expr, Gap, Op, Simple, Size, Start};

/// An expression of an instruction: one of the tree, a variable with an offset, or the constant 1
/// that stands for an absent condition (C99 6.8.5.3p2).
#[derive(Clone, Copy)]
pub enum Operand<'a> {
    Written(&'a Expr),
    Variable(usize, usize),
    One,
}

/// An action behind which control goes straight on.
#[derive(Clone, Copy)]
pub enum Deed<'a> {
    Unset(usize),
    /// The place, the operator, the right side, and the operator's offset.
    Assign(Operand<'a>, Op, &'a Expr, usize),
    /// The last number is the offset of the word.
    Malloc(Option<Operand<'a>>, &'a Size, usize),
    Getchar(Option<Operand<'a>>),
    Putchar(&'a Expr),
    Printf(&'a [u8], &'a [Expr]),
}

/// What one step does behind the frees. The last number of `Return` and `Close` is an offset.
#[derive(Clone, Copy)]
pub enum Instruction<'a> {
    Plain(Deed<'a>),
    Test(Operand<'a>),
    /// The call's number, the callee, the arguments, and the variable that gets the result.
    Invoke(usize, usize, &'a [Expr], Option<usize>),
    Return(Option<Operand<'a>>, usize),
    /// Whether control goes back from the brace.
    Close(bool, usize),
}

/// Actions one after another: what stands before the first `;` of a `for`, or its step.
#[derive(Clone, Copy)]
pub enum Row<'a> {
    Starts(&'a [Start]),
    Step(&'a Option<Simple>),
}

/// What an item consists of; an action may be one that the grammar or the types exclude.
#[derive(Clone, Copy)]
pub enum Part<'a> {
    One(Option<Instruction<'a>>),
    Row(Row<'a>),
    Condition(Operand<'a>),
    Within(&'a Block),
}

/// What stands at a place.
#[derive(Clone, Copy)]
pub enum Spot<'a> {
    AtGap(&'a Gap),
    AtAction(Instruction<'a>),
    Nowhere,
}

/// How control leaves a part: through its end, as a condition that says yes or no, by a `break`, by
/// a `continue`; or nothing stands there.
#[derive(Clone, Copy)]
pub enum Departure {
    Through,
    Found(bool),
    Broken,
    Continued,
    Lost,
}

/// Where control goes on in an item: at a part, or out of it.
#[derive(Clone, Copy)]
pub enum Goal {
    Into(usize),
    Out(Departure),
}

/// What follows a place: another place of the same part or block, or how control leaves that.
#[derive(Drop)]
pub enum Onward {
    To(Stack<usize>),
    By(Departure),
}
