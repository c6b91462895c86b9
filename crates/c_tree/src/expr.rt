// Expressions (C99 6.5).
use sqlite_items::Boxed;

/// The operators of assignment: `=`, `+=`, `-=`, `*=` (C99 6.5.16). `++` and `--` are `+= 1` and `-= 1`.
#[derive(Clone, Copy, Debug, PartialEq, Eq)]
pub enum Op {
    Put,
    Add,
    Sub,
    Mul,
}

/// The unary operators on values: `-` and `!` (C99 6.5.3.3).
#[derive(Clone, Copy, Debug, PartialEq, Eq)]
pub enum Sign {
    Minus,
    Not,
}

/// The binary operators (C99 6.5.5 to 6.5.14).
#[derive(Clone, Copy, Debug, PartialEq, Eq)]
pub enum Oper {
    Mul,
    Div,
    Rem,
    Add,
    Sub,
    Lt,
    Le,
    Gt,
    Ge,
    Eq,
    Ne,
    And,
    Or,
}

/// An expression. The last number of each variant is an offset in the text: that of the constant,
/// of the variable's name, or of the operator, `->`, `*` and `[` among them.
#[derive(Debug, Drop)]
pub enum Expr {
    Const(i32, usize),
    Null(usize),
    /// A variable by its number.
    Var(usize, usize),
    /// `e->f`, with the field's number within its struct.
    Field(Boxed<Expr>, usize, usize),
    Deref(Boxed<Expr>, usize),
    Index(Boxed<Expr>, Boxed<Expr>, usize),
    Unary(Sign, Boxed<Expr>, usize),
    Binary(Oper, Boxed<Expr>, Boxed<Expr>, usize),
}
