// The reading of a text, element by element.
ghost use Rattle.std.specs.Prelude.{◌≡◌, ◌+◌, ◌<◌, ◌^◌, IfOk, OnOk, Some, None, []};
ghost use Rattle.c_lexer.specs.Bytes.{class_of};
ghost use Rattle.c_lexer.specs.Opening.{Fits};
ghost use Rattle.c_lexer.specs.Elements.{IsElement};
ghost use Rattle.c_lexer.specs.Scan.{width, IsReading};
ghost use Rattle.c_lexer.specs.Front.{advanced, reading_at};

use crate::Token;
use crate::bytes::class_of;
use crate::element::{Class, Element, Fault};
use crate::numbers::number;
use crate::punctuators::punctuator;
use crate::quotes::{character, text};
use crate::reading::Reading;
use crate::recent::Recent;
use crate::spans::{block_comment, include_line, line_comment, word};
use mf_list::{Memory, Seq};
use std::alloc::Global;

/// How far a text is read.
#[derive(Debug, Drop)]
pub struct Front {
    /// Only blanks stand on the line so far.
    pub fresh: bool,
    pub at: usize,
    pub tokens: Seq<Token>,
    pub last_comment: Option<(usize, usize)>,
}

/// The element at the front of a text.
pub fn element_at(
    alloc: Global,
    recent: &mut Recent,
    fresh: bool,
    rest: &[u8],
) -> Result<Element, Memory>
    ensures element { IfOk result (λ p. IsElement (class_of fresh rest.now) rest.now p) }
    ensures fits { IfOk result (λ p. Fits p rest.now) }
{
    match class_of(fresh, rest) {
        Class::End => Ok(Element::End),
        Class::Blank => Ok(Element::Blank),
        Class::LineComment => Ok(line_comment(rest)),
        Class::BlockComment => Ok(block_comment(rest)),
        Class::IncludeLine => Ok(include_line(rest)),
        Class::Word => word(alloc, recent, rest),
        Class::Digits => Ok(number(rest)),
        Class::Text => text(alloc, recent, rest),
        Class::Character => character(alloc, rest),
        Class::Other => Ok(punctuator(rest)),
    }
}

impl Front {
    /// Goes past the element at the front of the rest of the text.
    pub fn advance(&mut self, rest: &[u8], element: Element) -> Result<(), Memory>
        requires { self.old.at + width element < 2 ^ 64 }
        ensures { OnOk result (self.new ≡ advanced self.old rest.now element) }
    {
        let start = self.at;
        match element {
            Element::Blank => {
                self.fresh = self.fresh || rest.starts_with(b"\n");
                self.at = start + 1;
            }
            Element::Comment(n) => {
                self.fresh = false;
                self.at = start + n;
                self.last_comment = Some((start, start + n));
            }
            Element::Include(n) => {
                self.fresh = false;
                self.at = start + n;
            }
            Element::Lexeme(kind, n) => {
                self.tokens.push(Token {
                    kind,
                    start,
                    end: start + n,
                })?;
                self.fresh = false;
                self.at = start + n;
            }
            Element::End | Element::Bad(_, _) => {}
        }
        Ok(())
    }

    fn reading(self, fault: Option<(Fault, usize)>) -> Reading
        ensures { result ≡ reading_at self fault }
    {
        let Front {
            fresh: _,
            at: _,
            tokens,
            last_comment,
        } = self;
        Reading {
            tokens,
            last_comment,
            fault,
        }
    }
}

/// Room for so many tokens at once, so that the list needn't move while it grows; where it can't be had, none.
fn room_for(alloc: Global, count: usize) -> Seq<Token>
    ensures { result ≡ [] }
{
    match Vec::with_capacity(alloc, count) {
        Ok(items) => Seq::from_vec(items),
        Err(_) => Seq::new(alloc),
    }
}

/// The tokens of a text, up to its end or its first lexical fault.
pub fn scan(alloc: Global, bytes: &[u8]) -> Result<Reading, Memory>
    ensures { IfOk result (λ r. IsReading bytes.now r) }
{
    let mut recent = Recent::new(alloc, bytes.len())?;
    let mut front = Front {
        fresh: true,
        at: 0,
        tokens: room_for(alloc, bytes.len()),
        last_comment: None,
    };
    loop {
        let rest = &bytes[front.at..];
        match element_at(alloc, &mut recent, front.fresh, rest)? {
            Element::End => return Ok(front.reading(None)),
            Element::Bad(fault, n) => {
                let at = front.at + n;
                return Ok(front.reading(Some((fault, at))));
            }
            element => front.advance(rest, element)?,
        }
    }
}
