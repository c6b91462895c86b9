// Strings and character constants (C99 6.4.4.4, 6.4.5).
ghost use Rattle.std.specs.Prelude.{◌≡◌, ◌<◌, ◌≤◌, length, IfOk};
ghost use Rattle.c_lexer.specs.Opening.{Fits, Holds, Leaves};
ghost use Rattle.c_lexer.specs.Elements.{escaped, allowed, is_zero_escape, escape_next, next_of, one_character, quote_byte, unclosed, Ends, text_element, character_element, IsQuoted, CharSequence};
ghost use Rattle.c_lexer.specs.declared.element.Quote.TheVariants.{Double, Single};

use crate::Kind;
use crate::element::{Element, Fault, Next, Quote};
use crate::recent::Recent;
use mf_list::{Memory, Seq};
use std::alloc::Global;

/// The bytes between quotes: their values after escapes, their number as written, and what comes behind them.
#[derive(Debug, Drop)]
struct Quoted {
    values: Seq<u8>,
    len: usize,
    end: Next,
}

/// The byte of a simple escape.
fn escaped(c: u8) -> Option<u8>
    ensures { result ≡ escaped c }
{
    match c {
        b'a' => Some(7),
        b'b' => Some(8),
        b't' => Some(b'\t'),
        b'n' => Some(b'\n'),
        b'v' => Some(11),
        b'f' => Some(12),
        b'r' => Some(b'\r'),
        b'"' | b'\'' | b'\\' => Some(c),
        _ => None,
    }
}

fn allowed(quote: Quote, b: u8) -> bool
    ensures { result ≡ allowed quote b }
{
    match quote {
        Quote::Double => b == b'\t' || matches!(b, 32..=126) || matches!(b, 128..=255),
        Quote::Single => matches!(b, 32..=126),
    }
}

fn is_zero_escape(quote: Quote, rest: &[u8]) -> bool
    ensures { result ≡ is_zero_escape quote rest.now }
{
    match quote {
        Quote::Double => false,
        Quote::Single => rest.starts_with(b"0'"),
    }
}

/// What a backslash begins.
fn escape_next(quote: Quote, rest: &[u8]) -> Next
    ensures { result ≡ escape_next quote rest.now }
{
    let [first, ..] = rest else {
        return Next::NoEscape;
    };
    match escaped(*first) {
        Some(b) => Next::Escape(b),
        None if is_zero_escape(quote, rest) => Next::Escape(0),
        None => Next::NoEscape,
    }
}

fn quote_byte(quote: Quote) -> u8
    ensures { result ≡ quote_byte quote }
{
    match quote {
        Quote::Double => b'"',
        Quote::Single => b'\'',
    }
}

/// What stands next behind an opening quote.
fn next_of(quote: Quote, rest: &[u8]) -> Next
    ensures next { result ≡ next_of quote rest.now }
    ensures holds { Holds result rest.now }
{
    let [first, ..] = rest else {
        return Next::LineEnd;
    };
    let first = *first;
    if first == b'\n' {
        Next::LineEnd
    } else if first == quote_byte(quote) {
        Next::Close
    } else if first == b'\\' {
        escape_next(quote, &rest[1..])
    } else if allowed(quote, first) {
        Next::Plain(first)
    } else {
        Next::NoByte
    }
}

/// What stands between quotes, from behind the opening one.
fn between_quotes(alloc: Global, quote: Quote, text: &[u8]) -> Result<Quoted, Memory>
    ensures spelled { IfOk result (λ q. CharSequence quote text.now q.values q.len q.end) }
    ensures within { IfOk result (λ q. Ends q.end × Leaves q.len q.end text.now) }
{
    let mut values = Seq::new(alloc);
    let mut at = 0;
    loop {
        match next_of(quote, &text[at..]) {
            Next::Plain(b) => {
                values.push(b)?;
                at += 1;
            }
            Next::Escape(b) => {
                values.push(b)?;
                at += 2;
            }
            end => {
                return Ok(Quoted {
                    values,
                    len: at,
                    end,
                });
            }
        }
    }
}

fn unclosed(len: usize, end: Next) -> Element
    requires { len < 18446744073709551615 }
    ensures { result ≡ unclosed len end }
{
    match end {
        Next::NoByte => Element::Bad(Fault::BadByte, len + 1),
        Next::NoEscape => Element::Bad(Fault::BadEscape, len + 1),
        _ => Element::Bad(Fault::OpenText, 0),
    }
}

/// A string.
pub fn text(alloc: Global, recent: &mut Recent, rest: &[u8]) -> Result<Element, Memory>
    requires { 1 ≤ length rest.now }
    ensures element { IfOk result (λ p. IsQuoted Double text_element rest.now p) }
    ensures fits { IfOk result (λ p. Fits p rest.now) }
{
    let Quoted { values, len, end } = between_quotes(alloc, Quote::Double, &rest[1..])?;
    match end {
        Next::Close => {
            let bytes = recent.string(alloc, values)?;
            Ok(Element::Lexeme(Kind::Text(bytes), len + 2))
        }
        end => Ok(unclosed(len, end)),
    }
}

fn one_character(values: &[u8], len: usize) -> Element
    requires { len < 18446744073709551614 }
    ensures { result ≡ one_character values.now len }
{
    match values {
        [b] => Element::Lexeme(Kind::Number(i32::from(*b)), len + 2),
        _ => Element::Bad(Fault::OpenText, 0),
    }
}

/// A character constant.
pub fn character(alloc: Global, rest: &[u8]) -> Result<Element, Memory>
    requires { 1 ≤ length rest.now }
    ensures element { IfOk result (λ p. IsQuoted Single character_element rest.now p) }
    ensures fits { IfOk result (λ p. Fits p rest.now) }
{
    let Quoted { values, len, end } = between_quotes(alloc, Quote::Single, &rest[1..])?;
    match end {
        Next::Close => Ok(one_character(values.as_slice(), len)),
        end => Ok(unclosed(len, end)),
    }
}
