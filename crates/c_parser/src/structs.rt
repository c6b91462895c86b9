// The reader of structs: their bodies and fields, and typedef names (C99 6.7.2.1, 6.7.7).
ghost use Rattle.std.specs.Prelude.{[], length};
ghost use Rattle.c_parser.specs.Answer.{Gives};
ghost use Rattle.c_parser.specs.FileLoops.{field_name_turn, fields_turn};
ghost use Rattle.c_parser.specs.ReadFile.{read_field_names, read_fields, read_struct_body, read_body_alias, read_alias, read_typedef, read_tag_behind, read_tag};

use crate::reading::{Unread, read_name, read_optional, read_want, sees};
use crate::sizes::{naming, read_base, read_starred, skip};
use crate::term::{Term, next};
use crate::turn::Turn;
use c_lexer::Token;
use c_tree::tree::{Body, Spec, Top, Word};
use mf_list::Seq;
use std::alloc::Global;

/// A field of this base behind those in front.
fn read_field_name_turn<'a>(
    alloc: Global,
    base: &Spec,
    front: Seq<Spec>,
    tokens: &'a [Token],
) -> Result<(Turn<Seq<Spec>, Seq<Spec>>, &'a [Token]), Unread>
    ensures { Gives (λ r. (r.0, r.1.now)) result (field_name_turn base.now front tokens.now) }
{
    let ((stars, name), rest) = read_starred(tokens)?;
    let mut fields = front;
    fields.push(naming(alloc, base, stars, name)?)?;
    match next(rest) {
        Term::Comma => Ok((Turn::More(fields), skip(rest))),
        Term::Semicolon => Ok((Turn::Done(fields), skip(rest))),
        _ => Err(Unread::NotHere),
    }
}

/// The fields of this base up to the `;`, behind those in front.
fn read_field_names<'a>(
    alloc: Global,
    base: &Spec,
    front: Seq<Spec>,
    tokens: &'a [Token],
) -> Result<(Seq<Spec>, &'a [Token]), Unread>
    ensures { Gives (λ r. (r.0, r.1.now)) result (read_field_names base.now (length tokens.now) front tokens.now) }
{
    let mut fields = front;
    let mut left = tokens;
    for _turn in 0..tokens.len() {
        let (turn, rest) = read_field_name_turn(alloc, base, fields, left)?;
        match turn {
            Turn::More(more) => {
                fields = more;
                left = rest;
            }
            Turn::Done(all) => return Ok((all, rest)),
        }
    }
    Err(Unread::NotHere)
}

/// The fields of one base behind those in front, and the `}` where that stands behind them.
fn read_fields_turn(
    alloc: Global,
    front: Seq<Spec>,
    tokens: &[Token],
) -> Result<(Turn<Seq<Spec>, Seq<Spec>>, &[Token]), Unread>
    ensures { Gives (λ r. (r.0, r.1.now)) result (fields_turn front tokens.now) }
{
    let (base, rest) = read_base(tokens)?;
    let (fields, rest) = read_field_names(alloc, &base, front, rest)?;
    if sees(Term::CloseBrace, rest) {
        Ok((Turn::Done(fields), skip(rest)))
    } else {
        Ok((Turn::More(fields), rest))
    }
}

/// The fields up to the `}`.
fn read_fields(alloc: Global, tokens: &[Token]) -> Result<(Seq<Spec>, &[Token]), Unread>
    ensures { Gives (λ r. (r.0, r.1.now)) result (read_fields (length tokens.now) [] tokens.now) }
{
    let mut fields = Seq::new(alloc);
    let mut left = tokens;
    for _turn in 0..tokens.len() {
        let (turn, rest) = read_fields_turn(alloc, fields, left)?;
        match turn {
            Turn::More(more) => {
                fields = more;
                left = rest;
            }
            Turn::Done(all) => return Ok((all, rest)),
        }
    }
    Err(Unread::NotHere)
}

/// The fields of a struct in braces.
#[tactic(auto, unfolding(crate::specs::ReadFile::read_struct_body))]
fn read_struct_body(alloc: Global, tokens: &[Token]) -> Result<(Body, &[Token]), Unread>
    ensures { Gives (λ r. (r.0, r.1.now)) result (read_struct_body tokens.now) }
{
    let (brace, rest) = read_want(Term::OpenBrace, tokens)?;
    let (fields, rest) = read_fields(alloc, rest)?;
    let at = brace.start;
    Ok((Body { fields, at }, rest))
}

/// A struct with a body and a typedef name, from the body on.
fn read_body_alias(
    alloc: Global,
    tag: Option<Word>,
    tokens: &[Token],
) -> Result<(Top, &[Token]), Unread>
    ensures { Gives (λ r. (r.0, r.1.now)) result (read_body_alias tag tokens.now) }
{
    let (body, rest) = read_struct_body(alloc, tokens)?;
    let (name, rest) = read_name(rest)?;
    let (_, rest) = read_want(Term::Semicolon, rest)?;
    Ok((Top::Struct(tag, Some(body), Some(name)), rest))
}

/// The typedef name of a struct that has this tag.
fn read_alias(tag: Option<Word>, tokens: &[Token]) -> Result<(Top, &[Token]), Unread>
    ensures { Gives (λ r. (r.0, r.1.now)) result (read_alias tag tokens.now) }
{
    let Some(tag) = tag else {
        return Err(Unread::NotHere);
    };
    let (name, rest) = read_name(tokens)?;
    let (_, rest) = read_want(Term::Semicolon, rest)?;
    Ok((Top::Struct(Some(tag), None, Some(name)), rest))
}

/// A struct behind `typedef`.
#[tactic(auto, unfolding(crate::specs::ReadFile::read_typedef))]
pub fn read_typedef(alloc: Global, tokens: &[Token]) -> Result<(Top, &[Token]), Unread>
    ensures { Gives (λ r. (r.0, r.1.now)) result (read_typedef tokens.now) }
{
    let (_, rest) = read_want(Term::Struct, tokens)?;
    let (tag, rest) = read_optional(rest)?;
    if sees(Term::OpenBrace, rest) {
        read_body_alias(alloc, tag, rest)
    } else {
        read_alias(tag, rest)
    }
}

/// A struct behind its tag; the term is that of the first token.
fn read_tag_behind(
    alloc: Global,
    tag: Word,
    term: Term,
    tokens: &[Token],
) -> Result<(Top, &[Token]), Unread>
    ensures { Gives (λ r. (r.0, r.1.now)) result (read_tag_behind tag term tokens.now) }
{
    match term {
        Term::Semicolon => Ok((Top::Struct(Some(tag), None, None), skip(tokens))),
        _ => {
            let (body, rest) = read_struct_body(alloc, tokens)?;
            let (_, rest) = read_want(Term::Semicolon, rest)?;
            Ok((Top::Struct(Some(tag), Some(body), None), rest))
        }
    }
}

/// A struct behind `struct`.
#[tactic(auto, unfolding(crate::specs::ReadFile::read_tag))]
pub fn read_tag(alloc: Global, tokens: &[Token]) -> Result<(Top, &[Token]), Unread>
    ensures { Gives (λ r. (r.0, r.1.now)) result (read_tag tokens.now) }
{
    let (tag, rest) = read_name(tokens)?;
    read_tag_behind(alloc, tag, next(rest), rest)
}
