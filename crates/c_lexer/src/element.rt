// What stands at the front of a text.
use crate::Kind;

/// The first lexical fault of a text.
#[derive(Clone, Copy, Debug, PartialEq, Eq)]
pub enum Fault {
    BadByte,
    OpenComment,
    OpenText,
    BadEscape,
    WideNumber,
}

/// An input element: the blank, comment, include line or token at the front of a text, with its number of bytes; `Bad` has
/// the place of the fault.
#[derive(Debug, Drop)]
pub enum Element {
    End,
    Blank,
    Comment(usize),
    Include(usize),
    Lexeme(Kind, usize),
    Bad(Fault, usize),
}

/// What the first bytes of a text begin.
#[derive(Clone, Copy, Debug, PartialEq, Eq)]
pub enum Class {
    End,
    Blank,
    LineComment,
    BlockComment,
    IncludeLine,
    Word,
    Digits,
    Text,
    Character,
    Other,
}

/// What may end early.
#[derive(Clone, Copy, Debug, PartialEq, Eq)]
pub enum Stop {
    LineComment,
    IncludeLine,
    BlockComment,
}

/// A string or a character constant.
#[derive(Clone, Copy, Debug, PartialEq, Eq)]
pub enum Quote {
    Double,
    Single,
}

/// What stands next between quotes: a byte, an escape, or what ends it.
#[derive(Clone, Copy, Debug, PartialEq, Eq)]
pub enum Next {
    Plain(u8),
    Escape(u8),
    Close,
    LineEnd,
    NoByte,
    NoEscape,
}
