// The terms of the grammar: what it tells apart among tokens.
ghost use Rattle.std.specs.Prelude.{◌≡◌};
ghost use Rattle.c_parser.specs.Term.{key_term, punctuator_term, kind_term, term_of, next, same};

use c_lexer::{Kind, Token};

/// What the grammar sees of a token. `Other` is the end of the tokens too, and what is refused.
#[derive(Clone, Copy, Debug, PartialEq, Eq)]
pub enum Term {
    Name,
    Number,
    Text,
    Other,
    // key words
    Eof,
    Null,
    Break,
    Continue,
    Else,
    For,
    Free,
    Getchar,
    If,
    Int,
    Malloc,
    Printf,
    Putchar,
    Return,
    Sizeof,
    Struct,
    Typedef,
    Void,
    While,
    // punctuators
    Not,
    Differs,
    Percent,
    AndAnd,
    Open,
    Close,
    Star,
    StarPut,
    Plus,
    PlusPlus,
    PlusPut,
    Comma,
    Minus,
    MinusMinus,
    MinusPut,
    Arrow,
    Slash,
    Semicolon,
    Less,
    AtMost,
    Put,
    Equals,
    Greater,
    AtLeast,
    OpenIndex,
    CloseIndex,
    OpenBrace,
    OrOr,
    CloseBrace,
}

/// The term of the key word of this number.
fn key_term(number: u16) -> Term
    ensures { result ≡ key_term number }
{
    match number {
        0 => Term::Eof,
        1 => Term::Null,
        2 => Term::Break,
        3 => Term::Continue,
        4 => Term::Else,
        5 => Term::For,
        6 => Term::Free,
        7 => Term::Getchar,
        8 => Term::If,
        9 => Term::Int,
        10 => Term::Malloc,
        11 => Term::Printf,
        12 => Term::Putchar,
        13 => Term::Return,
        14 => Term::Sizeof,
        15 => Term::Struct,
        16 => Term::Typedef,
        17 => Term::Void,
        18 => Term::While,
        _ => Term::Other,
    }
}

/// The term of the punctuator of this number.
fn punctuator_term(number: u16) -> Term
    ensures { result ≡ punctuator_term number }
{
    match number {
        0 => Term::Not,
        1 => Term::Differs,
        2 => Term::Percent,
        3 => Term::AndAnd,
        4 => Term::Open,
        5 => Term::Close,
        6 => Term::Star,
        7 => Term::StarPut,
        8 => Term::Plus,
        9 => Term::PlusPlus,
        10 => Term::PlusPut,
        11 => Term::Comma,
        12 => Term::Minus,
        13 => Term::MinusMinus,
        14 => Term::MinusPut,
        15 => Term::Arrow,
        16 => Term::Slash,
        17 => Term::Semicolon,
        18 => Term::Less,
        19 => Term::AtMost,
        20 => Term::Put,
        21 => Term::Equals,
        22 => Term::Greater,
        23 => Term::AtLeast,
        24 => Term::OpenIndex,
        25 => Term::CloseIndex,
        26 => Term::OpenBrace,
        27 => Term::OrOr,
        28 => Term::CloseBrace,
        _ => Term::Other,
    }
}

/// The term of a token of this kind.
fn kind_term(kind: &Kind) -> Term
    ensures { result ≡ kind_term kind.now }
{
    match kind {
        Kind::Name(_) => Term::Name,
        Kind::Key(number) => key_term(*number),
        Kind::Number(_) => Term::Number,
        Kind::Text(_) => Term::Text,
        Kind::Punct(number) => punctuator_term(*number),
        Kind::Refused(_) => Term::Other,
    }
}

/// The term of a token.
#[tactic(auto, unfolding(crate::specs::Term::term_of))]
pub fn term_of(token: &Token) -> Term
    ensures { result ≡ term_of token.now }
{
    kind_term(&token.kind)
}

/// The term of the first token.
pub fn next(tokens: &[Token]) -> Term
    ensures { result ≡ next tokens.now }
{
    match tokens {
        [] => Term::Other,
        [token, ..] => term_of(token),
    }
}

/// Whether the two are one.
#[tactic(auto, unfolding(crate::specs::Term::same))]
pub fn same(one: Term, other: Term) -> bool
    ensures { result ≡ same one other }
{
    one == other
}
