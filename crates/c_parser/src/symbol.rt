// What the recogniser of the grammar still expects of the tokens.
use crate::term::Term;

/// What an expression is a part of, which decides what may stand behind an operand.
#[derive(Clone, Copy, Debug, PartialEq, Eq)]
pub enum Part {
    /// An expr.
    Whole,
    /// A unary.
    Factor,
    /// What is counted in a size: operators of products, up to `*` and a unit.
    Count,
    /// A post that is changed: up to and with what changes it.
    Target,
    /// A unary behind `*` that is changed.
    Pointed,
}

/// A symbol: a part of a text that is still to come. By default it is all of the text.
#[derive(Clone, Copy, Debug, Default, PartialEq, Eq)]
pub enum Symbol {
    Want(Term),
    // expressions
    Operand(Part),
    /// What stands behind an operand.
    After(Part),
    // right sides and calls; the part says what an expression in parentheses begins
    Right,
    /// What stands behind a name that begins a right side.
    Named,
    /// What stands behind a `(` that begins a right side or an item.
    Opened(Part),
    /// What stands behind `(` and a name.
    OpenedName(Part),
    /// What stands behind `(`, a name and `*`.
    OpenedStar(Part),
    Arguments,
    MoreArguments,
    // sizes
    Size,
    /// What stands behind a `*` of a size.
    NextFactor,
    /// What stands behind `sizeof`.
    Unit,
    /// What stands behind `sizeof` and `(`.
    UnitWithin,
    /// What stands behind a unit that begins a size.
    AfterUnit,
    // declarators in a function
    Local,
    AfterLocal,
    MoreLocals,
    // statements
    Piece,
    /// What stands behind a name that begins an item.
    Begun,
    /// Pieces and the closing brace.
    Pieces,
    Otherwise,
    Returned,
    ForStart,
    /// What stands behind a name that begins the first part of a `for`.
    ForBegun,
    ForTest,
    ForStep,
    // external declarations
    #[default]
    File,
    /// What stands behind `typedef struct`.
    Typedef,
    /// What stands behind `typedef struct` and a name.
    TypedefNamed,
    /// What stands behind `struct` and a name.
    Tagged,
    Field,
    MoreFields,
    /// ["*"] N.
    StarredName,
    MoreNames,
    Outer,
    AfterOuter,
    Global,
    AfterGlobal,
    MoreGlobals,
    Const,
    Parameters,
    Parameter,
    /// What stands behind the base of a parameter.
    AfterBase,
    /// What stands behind the star of a parameter.
    AfterStar,
    MoreParameters,
    AfterHead,
}
