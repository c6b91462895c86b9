// Comments, include lines and words.
ghost use Rattle.std.specs.Prelude.{◌≡◌, ◌<◌, ◌≤◌, length, drop, IfOk, IfSome};
ghost use Rattle.std.specs.List.{prefix_len};
ghost use Rattle.c_lexer.specs.Bytes.{is_word_byte, stops};
ghost use Rattle.c_lexer.specs.Elements.{first_place, line_comment, include_line, block_comment, word_element};
ghost use Rattle.c_lexer.specs.Opening.{Fits};

use crate::bytes::{continues, continues_in_comment, stops, word_len};
use crate::element::{Element, Fault, Stop};
use crate::recent::Recent;
use crate::words::kind_of_word;
use mf_list::Memory;
use std::alloc::Global;

/// Where a comment or an include line stops, before the end of the text.
fn first_place(stop: Stop, text: &[u8]) -> Option<usize>
    ensures place { result ≡ first_place (stops stop) text.now }
    ensures within { IfSome result (λ n. n < length text.now) }
{
    for at in 0..text.len() {
        if stops(stop, &text[at..]) {
            return Some(at);
        }
    }
    None
}

/// A `//` comment, without the newline behind it.
pub fn line_comment(rest: &[u8]) -> Element
    requires { 2 ≤ length rest.now }
    ensures element { result ≡ line_comment rest.now }
    ensures fits { Fits result rest.now }
{
    let body = &rest[2..];
    match first_place(Stop::LineComment, body) {
        None => Element::Comment(2 + body.len()),
        Some(n) if continues(&body[n..]) => Element::Bad(Fault::BadByte, 2 + n),
        Some(n) => Element::Comment(2 + n),
    }
}

/// An include line, up to its newline or a comment.
pub fn include_line(rest: &[u8]) -> Element
    requires { 1 ≤ length rest.now }
    ensures element { result ≡ include_line rest.now }
    ensures fits { Fits result rest.now }
{
    let body = &rest[1..];
    match first_place(Stop::IncludeLine, body) {
        None => Element::Include(1 + body.len()),
        Some(n) if continues(&body[n..]) => Element::Bad(Fault::BadByte, 1 + n),
        Some(n) => Element::Include(1 + n),
    }
}

/// A `/* */` comment.
pub fn block_comment(rest: &[u8]) -> Element
    requires { 2 ≤ length rest.now }
    ensures element { result ≡ block_comment rest.now }
    ensures fits { Fits result rest.now }
{
    let body = &rest[2..];
    if continues_in_comment(body) {
        return Element::Bad(Fault::BadByte, 2);
    }
    match first_place(Stop::BlockComment, body) {
        None => Element::Bad(Fault::OpenComment, 0),
        Some(n) if body[n..].starts_with(b"*/") => Element::Comment(n + 4),
        Some(n) => Element::Bad(Fault::BadByte, n + 3),
    }
}

/// A name, a key word or a refused word.
pub fn word(alloc: Global, recent: &mut Recent, rest: &[u8]) -> Result<Element, Memory>
    requires { 0 < prefix_len is_word_byte rest.now }
    ensures element { IfOk result (λ p. p ≡ word_element rest.now) }
    ensures fits { IfOk result (λ p. Fits p rest.now) }
{
    let n = word_len(rest);
    let kind = kind_of_word(alloc, recent, &rest[..n])?;
    Ok(Element::Lexeme(kind, n))
}
