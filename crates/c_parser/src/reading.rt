// What the functions of the parser answer, and how they read single tokens.
ghost use Rattle.std.specs.Prelude.{◌≡◌, IfOk, [], ◌∷◌, ◌++◌};
ghost use Rattle.c_parser.specs.Answer.{Gives};
ghost use Rattle.c_parser.specs.ReadExpressions.{read_want, read_name};
ghost use Rattle.c_parser.specs.ReadFile.{read_optional};
ghost use Rattle.c_parser.specs.ReadStatements.{read_stars};
ghost use Rattle.c_parser.specs.Term.{sees};

use crate::term::{Term, next, same, term_of};
use c_lexer::{Kind, Token};
use c_tree::tree::Word;
use mf_list::Memory;
use sqlite_items::Items;
use std::alloc::Global;

/// Why nothing was read: the tokens don't begin so, or want of memory.
#[derive(Clone, Copy, Debug, PartialEq, Eq)]
pub enum Unread {
    NotHere,
    Memory,
}

impl From<Memory> for Unread {
    ghost use Rattle.c_parser.specs.declared.reading.Unread.TheVariants.{Memory};

    ghost from_gives = { λ _ e. e ≡ Memory };

    fn from(_: Memory) -> Unread {
        Unread::Memory
    }
}

/// Whether the first token is of this term.
pub fn sees(wanted: Term, tokens: &[Token]) -> bool
    ensures { result ≡ sees wanted tokens.now }
{
    same(wanted, next(tokens))
}

/// A token of this term.
pub fn read_want(wanted: Term, tokens: &[Token]) -> Result<(&Token, &[Token]), Unread>
    ensures { Gives (λ r. (r.0.now, r.1.now)) result (read_want wanted tokens.now) }
{
    match tokens {
        [] => Err(Unread::NotHere),
        [token, rest @ ..] => {
            if same(wanted, term_of(token)) {
                Ok((token, rest))
            } else {
                Err(Unread::NotHere)
            }
        }
    }
}

/// A name, which shares its bytes with the token.
pub fn read_name(tokens: &[Token]) -> Result<(Word, &[Token]), Unread>
    ensures { Gives (λ r. (r.0, r.1.now)) result (read_name tokens.now) }
{
    match tokens {
        [] => Err(Unread::NotHere),
        [token, rest @ ..] => match &token.kind {
            Kind::Name(text) => {
                let word = Word {
                    text: text.share()?,
                    at: token.start,
                };
                Ok((word, rest))
            }
            _ => Err(Unread::NotHere),
        },
    }
}

/// The number of stars, at most one.
pub fn read_stars(tokens: &[Token]) -> (usize, &[Token])
    ensures { (result.0, result.1.now) ≡ read_stars tokens.now }
{
    match tokens {
        [] => (0, tokens),
        [token, rest @ ..] => {
            if same(Term::Star, term_of(token)) {
                (1, rest)
            } else {
                (0, tokens)
            }
        }
    }
}

/// A name where one stands, which shares its bytes with the token.
pub fn read_optional(tokens: &[Token]) -> Result<(Option<Word>, &[Token]), Memory>
    ensures { IfOk result (λ r. (r.0, r.1.now) ≡ read_optional tokens.now) }
{
    match tokens {
        [] => Ok((None, tokens)),
        [token, rest @ ..] => match &token.kind {
            Kind::Name(text) => {
                let text = text.share()?;
                let at = token.start;
                Ok((Some(Word { text, at }), rest))
            }
            _ => Ok((None, tokens)),
        },
    }
}

/// A list of one, with no room for more, since most lists of a tree stay so short.
pub fn one<T: Drop>(alloc: Global, item: T) -> Result<Vec<T>, Memory>
    ensures { IfOk result (λ list. list.items ≡ item ∷ []) }
{
    let mut list = Vec::with_capacity(alloc, 1)?;
    list.push(item)?;
    Ok(list)
}

/// A list with one item more. The first makes a list of one, with no room for more.
pub fn added<T: Drop>(alloc: Global, list: Items<T>, item: T) -> Result<Items<T>, Memory>
    ensures { IfOk result (λ longer. longer ≡ list ++ item ∷ []) }
{
    if list.is_empty() {
        return Ok(Items::from_vec(one(alloc, item)?));
    }
    let mut longer = list;
    longer.push(item)?;
    Ok(longer)
}
