// The parser against its cases.
use crate::cases::{CALLS, CHANGES, EXPRESSIONS, FILE, Pair, STATEMENTS};
use c_lexer::lex;
use c_parser::{ParseRefusal, parse};
use std::test::Fail;

/// The refusal of a text that the lexer passes, where the parser refuses it.
pub fn refusal_of(
    rt: &impl Alloc<A = std::alloc::Global>,
    text: &[u8],
) -> Result<Option<ParseRefusal>, Fail> {
    let tokens = lex(rt.alloc(), text)?;
    Ok(parse(rt.alloc(), &tokens).err())
}

/// The text of the first pair that is refused, or whose near miss isn't refused at its place.
fn undivided(
    rt: &impl Alloc<A = std::alloc::Global>,
    pairs: &[Pair],
) -> Result<Option<&'static [u8]>, Fail> {
    for pair in pairs {
        let stops = Some(ParseRefusal::Syntax(pair.at));
        if refusal_of(rt, pair.text)?.is_some() || refusal_of(rt, pair.miss)? != stops {
            return Ok(Some(pair.text));
        }
    }
    Ok(None)
}

#[test]
fn each_production_is_told_from_a_near_miss(rt: HostRuntime) -> Result<(), Fail> {
    assert_eq!(rt; undivided(&rt, &FILE)?, None);
    assert_eq!(rt; undivided(&rt, &STATEMENTS)?, None);
    assert_eq!(rt; undivided(&rt, &CHANGES)?, None);
    assert_eq!(rt; undivided(&rt, &CALLS)?, None);
    assert_eq!(rt; undivided(&rt, &EXPRESSIONS)?, None);
    Ok(())
}
