// The longest punctuator at the front of a text (C99 6.4.6), by its bytes.
ghost use Rattle.std.specs.Prelude.{◌≡◌, ◌≤◌, [], ◌∷◌, length};
ghost use Rattle.c_lexer.specs.Opening.{Fits};
ghost use Rattle.c_lexer.specs.Elements.{IsPunctuator};
ghost use Rattle.c_lexer.specs.Words.{punctuator_kind, most_bytes};

use crate::Kind;
use crate::element::{Element, Fault};

/// How many bytes a punctuator has at most that begins as the text does.
fn most_bytes(rest: &[u8]) -> usize
    ensures { result ≡ most_bytes rest.now }
{
    match rest {
        [] => 0,
        [
            b'(' | b')' | b',' | b';' | b'?' | b'[' | b']' | b'{' | b'}' | b'~',
            ..
        ] => 1,
        [b'.' | b'<' | b'>', ..] => 3,
        [b'%', ..] => 4,
        _ => 2,
    }
}

fn of_one_byte(a: u8) -> Option<Kind>
    ensures { result ≡ punctuator_kind (a ∷ []) }
{
    match a {
        b'!' => Some(Kind::Punct(0)),
        b'#' => Some(Kind::Refused(33)),
        b'%' => Some(Kind::Punct(2)),
        b'&' => Some(Kind::Refused(39)),
        b'(' => Some(Kind::Punct(4)),
        b')' => Some(Kind::Punct(5)),
        b'*' => Some(Kind::Punct(6)),
        b'+' => Some(Kind::Punct(8)),
        b',' => Some(Kind::Punct(11)),
        b'-' => Some(Kind::Punct(12)),
        b'.' => Some(Kind::Refused(41)),
        b'/' => Some(Kind::Punct(16)),
        b':' => Some(Kind::Refused(44)),
        b';' => Some(Kind::Punct(17)),
        b'<' => Some(Kind::Punct(18)),
        b'=' => Some(Kind::Punct(20)),
        b'>' => Some(Kind::Punct(22)),
        b'?' => Some(Kind::Refused(52)),
        b'[' => Some(Kind::Punct(24)),
        b']' => Some(Kind::Punct(25)),
        b'^' => Some(Kind::Refused(53)),
        b'{' => Some(Kind::Punct(26)),
        b'|' => Some(Kind::Refused(55)),
        b'}' => Some(Kind::Punct(28)),
        b'~' => Some(Kind::Refused(57)),
        _ => None,
    }
}

fn before_equals(a: u8) -> Option<Kind>
    ensures { result ≡ punctuator_kind (a ∷ 61 ∷ []) }
{
    match a {
        b'!' => Some(Kind::Punct(1)),
        b'%' => Some(Kind::Refused(37)),
        b'&' => Some(Kind::Refused(40)),
        b'*' => Some(Kind::Punct(7)),
        b'+' => Some(Kind::Punct(10)),
        b'-' => Some(Kind::Punct(14)),
        b'/' => Some(Kind::Refused(43)),
        b'<' => Some(Kind::Punct(19)),
        b'=' => Some(Kind::Punct(21)),
        b'>' => Some(Kind::Punct(23)),
        b'^' => Some(Kind::Refused(54)),
        b'|' => Some(Kind::Refused(56)),
        _ => None,
    }
}

fn before_greater(a: u8) -> Option<Kind>
    ensures { result ≡ punctuator_kind (a ∷ 62 ∷ []) }
{
    match a {
        b'%' => Some(Kind::Refused(38)),
        b'-' => Some(Kind::Punct(15)),
        b':' => Some(Kind::Refused(45)),
        b'>' => Some(Kind::Refused(50)),
        _ => None,
    }
}

fn before_colon(a: u8) -> Option<Kind>
    ensures { result ≡ punctuator_kind (a ∷ 58 ∷ []) }
{
    match a {
        b'%' => Some(Kind::Refused(35)),
        b'<' => Some(Kind::Refused(47)),
        _ => None,
    }
}

fn of_two_bytes(a: u8, b: u8) -> Option<Kind>
    ensures { result ≡ punctuator_kind (a ∷ b ∷ []) }
{
    match b {
        b'#' => match a {
            b'#' => Some(Kind::Refused(34)),
            _ => None,
        },
        b'%' => match a {
            b'<' => Some(Kind::Refused(46)),
            _ => None,
        },
        b'&' => match a {
            b'&' => Some(Kind::Punct(3)),
            _ => None,
        },
        b'+' => match a {
            b'+' => Some(Kind::Punct(9)),
            _ => None,
        },
        b'-' => match a {
            b'-' => Some(Kind::Punct(13)),
            _ => None,
        },
        b':' => before_colon(a),
        b'<' => match a {
            b'<' => Some(Kind::Refused(48)),
            _ => None,
        },
        b'=' => before_equals(a),
        b'>' => before_greater(a),
        b'|' => match a {
            b'|' => Some(Kind::Punct(27)),
            _ => None,
        },
        _ => None,
    }
}

fn of_three_bytes(a: u8, b: u8, c: u8) -> Option<Kind>
    ensures { result ≡ punctuator_kind (a ∷ b ∷ c ∷ []) }
{
    match a {
        b'.' if b == b'.' && c == b'.' => Some(Kind::Refused(42)),
        b'<' if b == b'<' && c == b'=' => Some(Kind::Refused(49)),
        b'>' if b == b'>' && c == b'=' => Some(Kind::Refused(51)),
        _ => None,
    }
}

fn of_four_bytes(a: u8, b: u8, c: u8, d: u8) -> Option<Kind>
    ensures { result ≡ punctuator_kind (a ∷ b ∷ c ∷ d ∷ []) }
{
    if a == b'%' && b == b':' && c == b'%' && d == b':' {
        Some(Kind::Refused(36))
    } else {
        None
    }
}

/// The kind of a punctuator, refused ones among them.
fn punctuator_kind(word: &[u8]) -> Option<Kind>
    ensures { result ≡ punctuator_kind word.now }
{
    match word {
        [a] => of_one_byte(*a),
        [a, b] => of_two_bytes(*a, *b),
        [a, b, c] => of_three_bytes(*a, *b, *c),
        [a, b, c, d] => of_four_bytes(*a, *b, *c, *d),
        _ => None,
    }
}

/// The longest punctuator at the front.
pub fn punctuator(rest: &[u8]) -> Element
    requires { 1 ≤ length rest.now }
    ensures element { IsPunctuator rest.now result }
    ensures fits { Fits result rest.now }
{
    let mut n = rest.len().min(most_bytes(rest));
    while n > 0 {
        if let Some(kind) = punctuator_kind(&rest[..n]) {
            return Element::Lexeme(kind, n);
        }
        n -= 1;
    }
    Element::Bad(Fault::BadByte, 0)
}
