// A program whose names are numbers: types, variables, functions, blocks, items and gaps.
use crate::expr::{Expr, Op};
use mf_list::Seq;
use sqlite_items::{Boxed, Items};

/// The types of variables, fields and results: `int`, `int *` and a pointer to a struct by its number.
#[derive(Clone, Copy, Debug, PartialEq, Eq)]
pub enum Ty {
    Int,
    IntPtr,
    StructPtr(usize),
}

/// A struct; `body` is the offset of its body's `{`, where it has one.
#[derive(Debug, Drop)]
pub struct StructDef {
    pub fields: Seq<FieldDef>,
    pub body: Option<usize>,
}

#[derive(Debug, Drop)]
pub struct FieldDef {
    pub name: Seq<u8>,
    pub ty: Ty,
}

/// Where a variable was declared: in the file, with its constant, or in the function of that number
/// as a parameter, in a block, or as the nameless slot of its result.
#[derive(Clone, Copy, Debug, PartialEq, Eq)]
pub enum Home {
    Global(i32),
    Param(usize),
    Local(usize),
    Result(usize),
}

/// A variable; `at` is the offset of its name, for a nameless result slot that of the closing brace.
#[derive(Debug, Drop)]
pub struct VarDef {
    pub name: Seq<u8>,
    pub ty: Ty,
    pub home: Home,
    pub at: usize,
}

/// A function definition; `at` is the offset of its name, and no `result` is `void`.
#[derive(Debug, Drop)]
pub struct FunDef {
    pub name: Seq<u8>,
    pub result: Option<Ty>,
    pub params: Seq<usize>,
    pub body: Block,
    pub at: usize,
}

/// A program: its structs, variables and functions by number, the number of `main`, and how many
/// gaps and calls of user functions it has.
#[derive(Debug, Drop)]
pub struct Program {
    pub structs: Seq<StructDef>,
    pub vars: Seq<VarDef>,
    pub funs: Seq<FunDef>,
    pub main: usize,
    pub gaps: usize,
    pub calls: usize,
}

/// A block: a gap before each item, and a last gap. `start` is the offset of its first byte and
/// `end` the one after its last, with its braces where it is `braced`; a body without braces is a
/// block of that one piece.
#[cycle(tree)]
#[derive(Debug, Drop)]
pub struct Block {
    pub items: Items<Piece>,
    pub last_gap: Gap,
    pub braced: bool,
    pub start: usize,
    pub end: usize,
}

/// An item behind its gap; `start` and `end` are those of the item.
#[cycle(tree)]
#[derive(Debug, Drop)]
pub struct Piece {
    pub gap: Gap,
    pub item: Item,
    pub start: usize,
    pub end: usize,
}

/// A statement or declaration (C99 6.8). `Return` has the offset of its word.
#[cycle(tree)]
#[derive(Debug, Drop)]
pub enum Item {
    Declare(Seq<Declr>),
    Assign(Simple),
    Do(Call),
    Nest(Block),
    /// The arms of `if` and each `else if`, and the block of the last `else`.
    If(Items<Arm>, Option<Block>),
    While(Expr, Block),
    For(ForHead, Block),
    Break,
    Continue,
    Return(Option<Right>, usize),
}

#[cycle(tree)]
#[derive(Debug, Drop)]
pub struct Arm {
    pub test: Expr,
    pub body: Block,
}

/// A place between items, by its number, with the `free` statements that stand there.
#[derive(Debug, Drop)]
pub struct Gap {
    pub number: usize,
    pub frees: Seq<Free>,
}

/// `free(expr);`, from the word `free` to behind the `;`.
#[derive(Debug, Drop)]
pub struct Free {
    pub expr: Expr,
    pub start: usize,
    pub end: usize,
}

/// One declarator; `at` is the offset of its `=`, or of its name where it has none.
#[derive(Debug, Drop)]
pub struct Declr {
    pub var: usize,
    pub right: Option<Right>,
    pub at: usize,
}

/// An assignment; `at` is the offset of its operator.
#[derive(Debug, Drop)]
pub struct Simple {
    pub place: Expr,
    pub op: Op,
    pub right: Right,
    pub at: usize,
}

/// The right side of an assignment, an initialiser or a returned value.
#[derive(Debug, Drop)]
pub enum Right {
    Plain(Expr),
    Call(Call),
}

/// A call; the last number is the offset of the callee's name or word.
#[derive(Debug, Drop)]
pub enum Call {
    /// The call's number, the callee's number and the arguments.
    User(usize, usize, Seq<Expr>, usize),
    Malloc(Size, usize),
    Getchar(usize),
    Putchar(Expr, usize),
    /// The text's bytes after escapes, and the arguments.
    Printf(Seq<u8>, Seq<Expr>, usize),
}

/// The size of a request: the struct of that number, or a count of `int`, one where none is written.
#[derive(Debug, Drop)]
pub enum Size {
    Fields(usize),
    Ints(Option<Boxed<Expr>>),
}

/// What stands before the body of a `for` (C99 6.8.5.3).
#[derive(Debug, Drop)]
pub struct ForHead {
    pub start: Seq<Start>,
    pub test: Option<Expr>,
    pub step: Option<Simple>,
}

#[derive(Debug, Drop)]
pub enum Start {
    Declare(Declr),
    Assign(Simple),
}
