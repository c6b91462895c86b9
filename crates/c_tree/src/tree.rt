// The types of a Tree: a text as the grammar reads it, with its names as they are spelled.

use crate::expr::{Op, Oper, Sign};
use mf_bytes::SharedBytes;
use mf_list::Seq;
use sqlite_items::{Boxed, Items};

/// A name and the offset of its first byte.
#[derive(Debug, Drop)]
pub struct Word {
    pub text: SharedBytes,
    pub at: usize,
}

/// A file: what is declared in it, and its size in bytes.
#[derive(Debug, Drop)]
pub struct Tree {
    pub tops: Seq<Top>,
    pub end: usize,
}

/// The types that are written: `void`, `int`, `struct N` and a typedef name.
#[derive(Debug, Drop)]
pub enum Base {
    Void,
    Int,
    Tag(Word),
    Alias(Word),
}

/// A type with its `*`s and what it names; `at` is the offset of the base's first token.
#[derive(Debug, Drop)]
pub struct Spec {
    pub base: Base,
    pub stars: usize,
    pub name: Option<Word>,
    pub at: usize,
}

/// An external declaration (C99 6.9).
#[derive(Debug, Drop)]
pub enum Top {
    /// The tag, the body and the typedef name.
    Struct(Option<Word>, Option<Body>, Option<Word>),
    Globals(Seq<GlobalDecl>),
    Proto(Head),
    Fun(Head, Block),
}

/// The fields of a struct; `at` is the offset of its `{`.
#[derive(Debug, Drop)]
pub struct Body {
    pub fields: Seq<Spec>,
    pub at: usize,
}

/// A declarator of the file; `at` is the offset of its `=`, or of its name where it has none.
#[derive(Debug, Drop)]
pub struct GlobalDecl {
    pub spec: Spec,
    pub value: Option<Expr>,
    pub at: usize,
}

/// A function's result type with the function's name, and its parameters.
#[derive(Debug, Drop)]
pub struct Head {
    pub result: Spec,
    pub params: Seq<Spec>,
}

/// A block: a gap before each item, and a last gap. `start` is the offset of its first byte and
/// `end` the one after its last, with its braces where it is `braced`; a body without braces is a
/// block of that one piece.
#[cycle(parsed)]
#[derive(Debug, Drop)]
pub struct Block {
    pub items: Items<Piece>,
    pub last_gap: Gap,
    pub braced: bool,
    pub start: usize,
    pub end: usize,
}

/// An item behind its gap; `start` and `end` are those of the item.
#[cycle(parsed)]
#[derive(Debug, Drop)]
pub struct Piece {
    pub gap: Gap,
    pub item: Item,
    pub start: usize,
    pub end: usize,
}

/// A statement or declaration (C99 6.8). `Return` has the offset of its word.
#[cycle(parsed)]
#[derive(Debug, Drop)]
pub enum Item {
    Declare(Seq<Declr>),
    Assign(Simple),
    Do(Call),
    Nest(Block),
    /// The arms of `if` and each `else if`, and the block of the last `else`.
    If(Items<Arm>, Option<Block>),
    While(Expr, Block),
    For(ForHead, Block),
    Break,
    Continue,
    Return(Option<Right>, usize),
}

#[cycle(parsed)]
#[derive(Debug, Drop)]
pub struct Arm {
    pub test: Expr,
    pub body: Block,
}

/// A place between items, with the `free` statements that stand there.
#[derive(Debug, Drop)]
pub struct Gap {
    pub frees: Seq<Free>,
}

/// `free(expr);`, from the word `free` to behind the `;`.
#[derive(Debug, Drop)]
pub struct Free {
    pub expr: Arg,
    pub start: usize,
    pub end: usize,
}

/// An expression; `at` is the offset of its first token, which may be a `(`.
#[derive(Debug, Drop)]
pub struct Arg {
    pub expr: Expr,
    pub at: usize,
}

/// A declarator; `at` is the offset of its `=`, or of its name where it has none.
#[derive(Debug, Drop)]
pub struct Declr {
    pub spec: Spec,
    pub right: Option<Right>,
    pub at: usize,
}

/// An assignment; `at` is the offset of its operator, where the 1 of `++` and `--` stands too.
#[derive(Debug, Drop)]
pub struct Simple {
    pub place: Arg,
    pub op: Op,
    pub right: Right,
    pub at: usize,
}

/// The right side of an assignment, an initialiser or a returned value.
#[derive(Debug, Drop)]
pub enum Right {
    Plain(Arg),
    Call(Call),
}

#[derive(Debug, Drop)]
pub enum Call {
    /// The callee, the arguments and the offset of the `)`.
    User(Word, Seq<Arg>, usize),
    /// The type of the cast with its one `*`, the size and the offset of the word.
    Malloc(Option<Spec>, Size, usize),
    /// The offset of the word.
    Getchar(usize),
    /// The argument and the offset of the word.
    Putchar(Arg, usize),
    /// The text's bytes after escapes and its offset, the arguments, and the offsets of the word and of the `)`.
    Printf(SharedBytes, usize, Seq<Arg>, usize, usize),
}

/// The size of a request: a unit, and how many of it where that is written. `at` is the offset of the word `sizeof`.
#[derive(Debug, Drop)]
pub struct Size {
    pub unit: Unit,
    pub count: Option<Boxed<Expr>>,
    pub at: usize,
}

/// What `sizeof` is asked of: a type, or what the name points to.
#[derive(Debug, Drop)]
pub enum Unit {
    Of(Spec),
    Star(Word),
}

/// What stands before the body of a `for` (C99 6.8.5.3).
#[derive(Debug, Drop)]
pub struct ForHead {
    pub start: Seq<Start>,
    pub test: Option<Expr>,
    pub step: Option<Simple>,
}

#[derive(Debug, Drop)]
pub enum Start {
    Declare(Declr),
    Assign(Simple),
}

/// An expression. The last number of each variant but `Var` is an offset in the text: that of the
/// constant, or of the operator, `->`, `*` and `[` among them.
#[derive(Debug, Drop)]
pub enum Expr {
    Const(i32, usize),
    Null(usize),
    Var(Word),
    /// `e->f`, with the name of the field.
    Field(Boxed<Expr>, Word, usize),
    Deref(Boxed<Expr>, usize),
    Index(Boxed<Expr>, Boxed<Expr>, usize),
    Unary(Sign, Boxed<Expr>, usize),
    Binary(Oper, Boxed<Expr>, Boxed<Expr>, usize),
}
