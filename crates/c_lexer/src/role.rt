// The role of each token in the nest.
ghost use Rattle.std.specs.Prelude.{◌≡◌, codes};
ghost use Rattle.c_lexer.specs.Nest.{is_key, is_word, next_is, punctuator_role, key_role, role_of};

use crate::{Kind, Token};

/// What a token does to the nest.
#[derive(Clone, Copy, Debug, PartialEq, Eq)]
pub enum Role {
    Opens,
    Closes,
    Ends,
    Counts,
    Bracket,
    CloseBracket,
    Part,
    Nothing,
}

const ELSE: u16 = 4;

const FOR: u16 = 5;

const IF: u16 = 8;

const WHILE: u16 = 18;

const OPEN_PARENTHESIS: u16 = 4;

const CLOSE_PARENTHESIS: u16 = 5;

const COMMA: u16 = 11;

const SEMICOLON: u16 = 17;

const OPEN_BRACKET: u16 = 24;

const CLOSE_BRACKET: u16 = 25;

const OPEN_BRACE: u16 = 26;

const CLOSE_BRACE: u16 = 28;

/// Whether the token is `else`.
pub fn is_else(kind: &Kind) -> bool
    ensures { result ≡ is_word kind.now (codes "else") }
{
    match kind {
        Kind::Key(number) => *number == ELSE,
        _ => false,
    }
}

fn is_if(kind: &Kind) -> bool
    ensures { result ≡ is_word kind.now (codes "if") }
{
    match kind {
        Kind::Key(number) => *number == IF,
        _ => false,
    }
}

/// Whether the next token is `else`.
pub fn else_next(rest: &[Token]) -> bool
    ensures { result ≡ next_is rest.now (codes "else") }
{
    match rest {
        [] => false,
        [token, ..] => is_else(&token.kind),
    }
}

fn if_next(rest: &[Token]) -> bool
    ensures { result ≡ next_is rest.now (codes "if") }
{
    match rest {
        [] => false,
        [token, ..] => is_if(&token.kind),
    }
}

fn punctuator_role(number: u16) -> Role
    ensures { result ≡ punctuator_role number }
{
    match number {
        OPEN_BRACE => Role::Opens,
        CLOSE_BRACE => Role::Closes,
        SEMICOLON => Role::Ends,
        OPEN_PARENTHESIS | OPEN_BRACKET => Role::Bracket,
        CLOSE_PARENTHESIS | CLOSE_BRACKET => Role::CloseBracket,
        COMMA => Role::Nothing,
        _ => Role::Part,
    }
}

fn key_role(after_else: bool, number: u16, before_if: bool) -> Role
    ensures { result ≡ key_role after_else number before_if }
{
    let counts = match number {
        WHILE | FOR => true,
        IF => !after_else,
        ELSE => !before_if,
        _ => false,
    };
    if counts { Role::Counts } else { Role::Nothing }
}

/// What the token does, directly behind `else` or not, and before the rest.
pub fn role_of(after_else: bool, kind: &Kind, rest: &[Token]) -> Role
    ensures { result ≡ role_of after_else kind.now rest.now }
{
    match kind {
        Kind::Punct(number) => punctuator_role(*number),
        Kind::Key(number) => key_role(after_else, *number, if_next(rest)),
        _ => Role::Nothing,
    }
}
