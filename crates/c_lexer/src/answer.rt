// The tokens of a text, or its first refusal.
ghost use Rattle.std.specs.Prelude.{◌≡◌, length, IfOk};
ghost use Rattle.c_lexer.specs.Scan.{IsReading};
ghost use Rattle.c_lexer.specs.Outcome.{refusal_of, first_refused, answer_for, AreTokens, IsAnswer, Gives};
ghost use Rattle.c_lexer.specs.declared.reading.Reading.{Reading};

use crate::element::Fault;
use crate::front::scan;
use crate::nest::first_deep;
use crate::reading::Reading;
use crate::{Kind, LexRefusal, Token, Tokens};
use std::alloc::Global;

fn refusal_of(fault: Fault, at: usize) -> LexRefusal
    ensures { result ≡ refusal_of fault at }
{
    match fault {
        Fault::BadByte => LexRefusal::BadByte(at),
        Fault::OpenComment => LexRefusal::OpenComment(at),
        Fault::OpenText => LexRefusal::OpenText(at),
        Fault::BadEscape => LexRefusal::BadEscape(at),
        Fault::WideNumber => LexRefusal::WideNumber(at),
    }
}

/// The row and the start of the first refused token.
fn first_refused(tokens: &[Token]) -> Option<(u16, usize)>
    ensures { result ≡ first_refused tokens.now }
{
    let mut left = tokens;
    while let [token, rest @ ..] = left {
        if let Kind::Refused(row) = &token.kind {
            return Some((*row, token.start));
        }
        left = rest;
    }
    None
}

fn answer_for(alloc: Global, size: usize, reading: Reading) -> Result<Tokens, LexRefusal>
    ensures { Gives result (answer_for size reading) }
{
    let Reading {
        tokens,
        last_comment,
        fault,
    } = reading;
    if let Some((fault, at)) = fault {
        return Err(refusal_of(fault, at));
    }
    if let Some((row, at)) = first_refused(tokens.as_slice()) {
        return Err(LexRefusal::Construct(row, at));
    }
    if let Some(at) = first_deep(alloc, tokens.as_slice())? {
        return Err(LexRefusal::Depth(at));
    }
    Ok(Tokens {
        list: tokens,
        last_comment,
        size,
    })
}

/// The tokens of a text (C99 6.4).
pub fn lex(alloc: Global, bytes: &[u8]) -> Result<Tokens, LexRefusal>
    // On Ok the text is read without a fault, no token is refused, and none is too deep.
    ensures tokens { IfOk result (AreTokens bytes.now) }

    // The answer is that for a reading of the text, unless memory runs out.
    ensures read { IsAnswer bytes.now result }
    ensures only { (r : Reading) → IsReading bytes.now r → Gives result (answer_for (length bytes.now) r) }
    // Every text has a reading, and no other one: one list of tokens, whole or up to one first fault.
    ensures some { (r : Reading) × IsReading bytes.now r }
    ensures one { (r r' : Reading) → IsReading bytes.now r → IsReading bytes.now r' → r ≡ r' }
{
    let reading = scan(alloc, bytes)?;
    answer_for(alloc, bytes.len(), reading)
}
