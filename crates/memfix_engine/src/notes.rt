//! The lines on notes.
ghost use Rattle.std.specs.Prelude.{◌≡◌, ◌++◌, Bool, codes, length, take_while, reverse, not, IfOk, string_bytes};
ghost use Rattle.std.specs.Fmt.{signed_decimal};
ghost use Rattle.c_meaning.specs.declared.machine.Ending.TheVariants.{Fault};
ghost use Rattle.memfix_engine.specs.Notes.{is_newline, line_number, column_number, place_text, place_line, line_at, construct_text, lex_line, parse_line, rule_text, type_line, source_line, usage_line, too_long_line, read_fault_line, memory_line, limit_line, alone_text, alone_line, together_line, at_text, ending_text, steps_text, live_text, replay_line};

use crate::constructs::row_text;
use crate::refusal::SourceRefusal;
use c_lexer::LexRefusal;
use c_meaning::{Ending, Kind, Machine, kind_text};
use c_parser::ParseRefusal;
use c_replay::live;
use c_tree::Limit;
use c_types::TypeRefusal;
use std::alloc::{AllocError, Global};

fn last_line_len(before: &[u8]) -> usize
    ensures { result ≡ length (take_while (λ c. not (is_newline c)) (reverse before.now)) }
{
    before.iter().rev().take_while(|c| **c != b'\n').count()
}

/// The line of an offset and its column, each from 1. A column counts bytes. An offset behind the
/// text counts as its end.
#[tactic(auto, using(crate::proofs::NotesLemmas::places))]
fn line_and_column(bytes: &[u8], at: usize) -> (usize, usize)
    ensures line { result.0 ≡ line_number bytes.now at }
    ensures column { result.1 ≡ column_number bytes.now at }
{
    let before = &bytes[..at.min(bytes.len())];
    let line = before.iter().filter(|c| **c == b'\n').count();
    (line + 1, last_line_len(before) + 1)
}

fn place_text(alloc: Global, line: usize, column: usize) -> Result<String, AllocError>
    ensures { IfOk result (λ s. string_bytes s ≡ place_text line column) }
{
    format!(in alloc; "memfix: line {line}, column {column}: ")
}

fn place_line(alloc: Global, line: usize, column: usize, text: &[u8]) -> Result<Vec<u8>, AllocError>
    ensures { IfOk result (λ l. l.items ≡ place_line line column text.now) }
{
    let place = place_text(alloc, line, column)?;
    let mut bytes = Vec::new(alloc);
    bytes.extend_from_slice(place.as_bytes())?;
    bytes.extend_from_slice(text)?;
    bytes.extend_from_slice(b"\n")?;
    Ok(bytes)
}

/// The line of a text that speaks of an offset.
fn line_at(alloc: Global, bytes: &[u8], at: usize, text: &[u8]) -> Result<Vec<u8>, AllocError>
    ensures { IfOk result (λ line. line.items ≡ line_at bytes.now at text.now) }
{
    let (line, column) = line_and_column(bytes, at);
    place_line(alloc, line, column, text)
}

fn construct_text(alloc: Global, row: u16) -> Result<Vec<u8>, AllocError>
    ensures { IfOk result (λ text. text.items ≡ construct_text row) }
{
    let mut text = Vec::new(alloc);
    text.extend_from_slice(b"not in the profile: ")?;
    text.extend_from_slice(row_text(row))?;
    Ok(text)
}

fn construct_line(alloc: Global, bytes: &[u8], row: u16, at: usize) -> Result<Vec<u8>, AllocError>
    ensures { IfOk result (λ line. line.items ≡ line_at bytes.now at (construct_text row)) }
{
    let text = construct_text(alloc, row)?;
    line_at(alloc, bytes, at, text.as_slice())
}

fn lex_line(alloc: Global, bytes: &[u8], refusal: LexRefusal) -> Result<Vec<u8>, AllocError>
    ensures { IfOk result (λ line. line.items ≡ lex_line bytes.now refusal) }
{
    match refusal {
        LexRefusal::BadByte(at) => line_at(alloc, bytes, at, b"byte not allowed here"),
        LexRefusal::OpenComment(at) => line_at(alloc, bytes, at, b"comment without an end"),
        LexRefusal::OpenText(at) => line_at(alloc, bytes, at, b"text without an end"),
        LexRefusal::BadEscape(at) => line_at(alloc, bytes, at, b"escape not in the profile"),
        LexRefusal::WideNumber(at) => line_at(alloc, bytes, at, b"number too large"),
        LexRefusal::Construct(row, at) => construct_line(alloc, bytes, row, at),
        LexRefusal::Depth(at) => line_at(alloc, bytes, at, b"limit: more than 256 levels"),
        LexRefusal::Memory => Vec::from_slice(alloc, memory_line()),
    }
}

fn parse_line(alloc: Global, bytes: &[u8], refusal: ParseRefusal) -> Result<Vec<u8>, AllocError>
    ensures { IfOk result (λ line. line.items ≡ parse_line bytes.now refusal) }
{
    match refusal {
        ParseRefusal::Syntax(at) => line_at(alloc, bytes, at, b"syntax"),
        ParseRefusal::Memory => Vec::from_slice(alloc, memory_line()),
    }
}

fn rule_text(alloc: Global, rule: u16) -> Result<String, AllocError>
    ensures { IfOk result (λ text. string_bytes text ≡ rule_text rule) }
{
    format!(in alloc; "type rule {rule}")
}

fn rule_line(alloc: Global, bytes: &[u8], rule: u16, at: usize) -> Result<Vec<u8>, AllocError>
    ensures { IfOk result (λ line. line.items ≡ line_at bytes.now at (rule_text rule)) }
{
    let text = rule_text(alloc, rule)?;
    line_at(alloc, bytes, at, text.as_bytes())
}

fn type_line(alloc: Global, bytes: &[u8], refusal: TypeRefusal) -> Result<Vec<u8>, AllocError>
    ensures { IfOk result (λ line. line.items ≡ type_line bytes.now refusal) }
{
    match refusal {
        TypeRefusal::Unknown(at) => line_at(alloc, bytes, at, b"unknown name"),
        TypeRefusal::Twice(at) => line_at(alloc, bytes, at, b"declared twice"),
        TypeRefusal::Hidden(at) => line_at(alloc, bytes, at, b"hides an outer name"),
        TypeRefusal::Wrong(rule, at) => rule_line(alloc, bytes, rule, at),
        TypeRefusal::Recursion(at) => line_at(alloc, bytes, at, b"recursion"),
        TypeRefusal::NoMain => line_at(alloc, bytes, bytes.len(), b"no definition of main"),
        TypeRefusal::NoValue(at) => line_at(alloc, bytes, at, b"a path ends without a value"),
        TypeRefusal::Jump(at) => line_at(alloc, bytes, at, b"jump outside a loop"),
        TypeRefusal::Memory => Vec::from_slice(alloc, memory_line()),
    }
}

/// The line of a source that is refused.
pub(crate) fn source_line(
    alloc: Global,
    bytes: &[u8],
    refusal: SourceRefusal,
) -> Result<Vec<u8>, AllocError>
    ensures { IfOk result (λ line. line.items ≡ source_line bytes.now refusal) }
{
    match refusal {
        SourceRefusal::Lex(refusal) => lex_line(alloc, bytes, refusal),
        SourceRefusal::Parse(refusal) => parse_line(alloc, bytes, refusal),
        SourceRefusal::Resolve(refusal) => type_line(alloc, bytes, refusal),
        SourceRefusal::Memory => Vec::from_slice(alloc, memory_line()),
    }
}

pub(crate) fn usage_line() -> &'static [u8]
    ensures { result.now ≡ usage_line }
{
    b"memfix: usage: repair [--cert], verify, replay --steps N [--fails BITS] [--input TEXT], selfrun N\n"
}

pub(crate) fn too_long_line() -> &'static [u8]
    ensures { result.now ≡ too_long_line }
{
    b"memfix: limit: more than 1048576 bytes\n"
}

pub(crate) fn read_fault_line() -> &'static [u8]
    ensures { result.now ≡ read_fault_line }
{
    b"memfix: read fault\n"
}

pub(crate) fn memory_line() -> &'static [u8]
    ensures { result.now ≡ memory_line }
{
    b"memfix: out of memory\n"
}

/// The line of a count that passes its limit.
pub(crate) fn limit_line(limit: Limit) -> &'static [u8]
    ensures { result.now ≡ limit_line limit }
{
    match limit {
        Limit::Contexts => b"memfix: limit: more than 1024 contexts\n",
        Limit::Nodes => b"memfix: limit: more than 10000 nodes\n",
        Limit::Variables => b"memfix: limit: more than 256 variables\n",
        Limit::Expressions => b"memfix: limit: more than 1024 expressions\n",
        Limit::Sites => b"memfix: limit: more than 1024 sites\n",
        Limit::Frees => b"memfix: limit: more than 8192 frees\n",
        Limit::States => b"memfix: limit: more than 100000 states\n",
        Limit::Clauses => b"memfix: limit: more than 2000000 clauses\n",
    }
}

fn alone_text(alloc: Global, line: usize) -> Result<String, AllocError>
    ensures { IfOk result (λ text. string_bytes text ≡ alone_text line) }
{
    format!(in alloc; "no free fits this object on the way to the exit at line {line}")
}

/// The line of an object that no free fits, from the offsets of its word `malloc` and of the exit.
pub(crate) fn alone_line(
    alloc: Global,
    bytes: &[u8],
    site: usize,
    exit: usize,
) -> Result<Vec<u8>, AllocError>
    ensures { IfOk result (λ line. line.items ≡ alone_line bytes.now site exit) }
{
    let (line, _) = line_and_column(bytes, exit);
    let text = alone_text(alloc, line)?;
    line_at(alloc, bytes, site, text.as_bytes())
}

pub(crate) fn together_line() -> &'static [u8]
    ensures { result.now ≡ together_line }
{
    b"memfix: no choice of frees covers every object exactly once\n"
}

fn at_text(alloc: Global, line: usize, column: usize) -> Result<String, AllocError>
    ensures { IfOk result (λ s. string_bytes s ≡ at_text line column) }
{
    format!(in alloc; " at line {line}, column {column}")
}

fn fault_text(alloc: Global, bytes: &[u8], kind: Kind, at: usize) -> Result<Vec<u8>, AllocError>
    ensures { (by_free : Bool) → IfOk result (λ text. text.items ≡ ending_text bytes.now (Fault kind at by_free)) }
{
    let (line, column) = line_and_column(bytes, at);
    let place = at_text(alloc, line, column)?;
    let mut text = Vec::new(alloc);
    text.extend_from_slice(kind_text(kind))?;
    text.extend_from_slice(place.as_bytes())?;
    Ok(text)
}

fn returned_text(alloc: Global, answer: i32) -> Result<Vec<u8>, AllocError>
    ensures { IfOk result (λ text. text.items ≡ codes "returned " ++ signed_decimal answer) }
{
    let text = format!(in alloc; "returned {answer}")?;
    Vec::from_slice(alloc, text.as_bytes())
}

fn ending_text(alloc: Global, bytes: &[u8], ending: Ending) -> Result<Vec<u8>, AllocError>
    ensures { IfOk result (λ text. text.items ≡ ending_text bytes.now ending) }
{
    match ending {
        Ending::Running => Vec::from_slice(alloc, b"running"),
        Ending::Returned(answer) => returned_text(alloc, answer),
        Ending::Fault(kind, at, _) => fault_text(alloc, bytes, kind, at),
    }
}

fn steps_text(alloc: Global, steps: u64) -> Result<String, AllocError>
    ensures { IfOk result (λ s. string_bytes s ≡ steps_text steps) }
{
    format!(in alloc; "memfix: {steps} steps, ")
}

fn live_text(alloc: Global, live: usize) -> Result<String, AllocError>
    ensures { IfOk result (λ s. string_bytes s ≡ live_text live) }
{
    format!(in alloc; ", {live} live\n")
}

/// The line of a replay.
pub(crate) fn replay_line(
    alloc: Global,
    bytes: &[u8],
    machine: &Machine,
) -> Result<Vec<u8>, AllocError>
    ensures { IfOk result (λ line. line.items ≡ replay_line bytes.now machine.now) }
{
    let steps = steps_text(alloc, machine.steps)?;
    let ending = ending_text(alloc, bytes, machine.ending)?;
    let alive = live_text(alloc, live(machine))?;
    let mut line = Vec::new(alloc);
    line.extend_from_slice(steps.as_bytes())?;
    line.extend_from_slice(ending.as_slice())?;
    line.extend_from_slice(alive.as_bytes())?;
    Ok(line)
}
