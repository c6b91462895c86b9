// Classes of bytes, and where lines end and go on.
ghost use Rattle.std.specs.Prelude.{◌≡◌, ◌<◌, ◌≤◌, length, drop};
ghost use Rattle.std.specs.List.{prefix_len};
ghost use Rattle.c_lexer.specs.Bytes.{is_blank, is_digit, is_word_byte, is_number_byte, is_space, line_end_next, line_or_text_end_next, text_end_next, continues, continues_in_comment, star_continues, stops, begins_include, class_of};
ghost use Rattle.c_lexer.specs.Opening.{Opens};

use crate::element::{Class, Stop};

pub fn is_blank(b: u8) -> bool
    ensures { result ≡ is_blank b }
{
    matches!(b, 9..=13) || b == b' '
}

pub fn is_digit(b: u8) -> bool
    ensures { result ≡ is_digit b }
{
    matches!(b, b'0'..=b'9')
}

pub fn is_word_byte(b: u8) -> bool
    ensures { result ≡ is_word_byte b }
{
    is_digit(b) || matches!(b, b'A'..=b'Z') || b == b'_' || matches!(b, b'a'..=b'z')
}

pub fn is_number_byte(b: u8) -> bool
    ensures { result ≡ is_number_byte b }
{
    is_word_byte(b) || b == b'.'
}

fn is_space(b: u8) -> bool
    ensures { result ≡ is_space b }
{
    b == b' ' || b == b'\t'
}

fn line_end_next(rest: &[u8]) -> bool
    ensures { result ≡ line_end_next rest.now }
{
    rest.starts_with(b"\n") || rest.starts_with(b"\r\n")
}

fn text_end_next(rest: &[u8]) -> bool
    ensures { result ≡ text_end_next rest.now }
{
    match rest {
        [] => true,
        [last] => *last == b'\r',
        _ => false,
    }
}

fn line_or_text_end_next(rest: &[u8]) -> bool
    ensures { result ≡ line_or_text_end_next rest.now }
{
    line_end_next(rest) || text_end_next(rest)
}

/// Whether a line continuation stands next, outside a `/* */` comment.
pub fn continues(rest: &[u8]) -> bool
    ensures { result ≡ continues rest.now }
{
    rest.starts_with(b"\\") && line_or_text_end_next(&rest[1..])
}

/// Whether a line continuation stands next, in a `/* */` comment.
pub fn continues_in_comment(rest: &[u8]) -> bool
    ensures { result ≡ continues_in_comment rest.now }
{
    rest.starts_with(b"\\") && line_end_next(&rest[1..])
}

fn star_continues(rest: &[u8]) -> bool
    ensures { result ≡ star_continues rest.now }
{
    rest.starts_with(b"*") && continues_in_comment(&rest[1..])
}

/// Whether a comment or an include line stops here.
pub fn stops(stop: Stop, rest: &[u8]) -> bool
    ensures { result ≡ stops stop rest.now }
{
    match stop {
        Stop::LineComment => rest.starts_with(b"\n") || continues(rest),
        Stop::IncludeLine => {
            rest.starts_with(b"\n")
                || rest.starts_with(b"//")
                || rest.starts_with(b"/*")
                || continues(rest)
        }
        Stop::BlockComment => rest.starts_with(b"*/") || star_continues(rest),
    }
}

fn space_len(rest: &[u8]) -> usize
    ensures value { result ≡ prefix_len is_space rest.now }
    ensures within { result ≤ length rest.now }
{
    rest.iter().take_while(|b| is_space(**b)).count()
}

fn behind_spaces(rest: &[u8]) -> &[u8]
    ensures { result.now ≡ drop (prefix_len is_space rest.now) rest.now }
{
    &rest[space_len(rest)..]
}

fn begins_include(rest: &[u8]) -> bool
    ensures { result ≡ begins_include rest.now }
{
    rest.starts_with(b"#") && behind_spaces(&rest[1..]).starts_with(b"include")
}

/// How many bytes of a word stand at the front.
pub fn word_len(rest: &[u8]) -> usize
    ensures value { result ≡ prefix_len is_word_byte rest.now }
    ensures within { result ≤ length rest.now }
{
    rest.iter().take_while(|b| is_word_byte(**b)).count()
}

/// How many bytes of a number, of any form, stand at the front.
pub fn number_len(rest: &[u8]) -> usize
    ensures value { result ≡ prefix_len is_number_byte rest.now }
    ensures within { result ≤ length rest.now }
{
    rest.iter().take_while(|b| is_number_byte(**b)).count()
}

/// What begins at the front of the text.
pub fn class_of(fresh: bool, rest: &[u8]) -> Class
    ensures class { result ≡ class_of fresh rest.now }
    ensures opening { Opens result rest.now }
{
    let [first, ..] = rest else {
        return Class::End;
    };
    let first = *first;
    if is_blank(first) {
        Class::Blank
    } else if rest.starts_with(b"//") {
        Class::LineComment
    } else if rest.starts_with(b"/*") {
        Class::BlockComment
    } else if fresh && begins_include(rest) {
        Class::IncludeLine
    } else if is_digit(first) {
        Class::Digits
    } else if is_word_byte(first) {
        Class::Word
    } else if first == b'"' {
        Class::Text
    } else if first == b'\'' {
        Class::Character
    } else {
        Class::Other
    }
}
