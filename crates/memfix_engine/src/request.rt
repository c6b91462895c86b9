//! What the words of a call ask for.
ghost use Rattle.std.specs.Prelude.{◌≡◌, [], ◌∷◌, Some, map, ◌==◌, IfOk};
ghost use Rattle.std.specs.List.{list_all};
ghost use Rattle.memfix_engine.specs.Request.{is_digit, is_number, is_bit, is_replay, steps_of, bits_of, text_of, replay_of, with_option, with_options, request_of};

use mf_list::Seq;
use std::alloc::{AllocError, Global};

const MOST_STEPS: u64 = 10_000_000;

/// What a call asks for.
#[derive(Drop)]
pub(crate) enum Request {
    Repair,
    Replay(Replay),
}

/// How a text is to be replayed: for how many steps, with which failures of `malloc` and with which input.
#[derive(Drop)]
pub(crate) struct Replay {
    pub(crate) steps: u64,
    pub(crate) fails: Seq<bool>,
    pub(crate) input: Seq<u8>,
}

fn is_digit(c: u8) -> bool
    ensures { result ≡ is_digit c }
{
    matches!(c, b'0'..=b'9')
}

fn all_digits(word: &[u8]) -> bool
    ensures { result ≡ list_all is_digit word.now }
{
    word.iter().all(|c| is_digit(*c))
}

fn is_number(word: &[u8]) -> bool
    ensures { result ≡ is_number word.now }
{
    1 <= word.len() && word.len() <= 8 && all_digits(word)
}

fn steps_of(word: &str) -> Option<u64>
    ensures { result ≡ steps_of word.now }
{
    if !is_number(word.as_bytes()) {
        return None;
    }
    match word.parse::<u64>() {
        Ok(steps) if steps <= MOST_STEPS => Some(steps),
        _ => None,
    }
}

fn bits(alloc: Global, word: &[u8]) -> Result<Seq<bool>, AllocError>
    ensures { IfOk result (λ b. b ≡ map (λ c. c == 49) word.now) }
{
    let mut list = Seq::new(alloc);
    for c in word {
        list.push(*c == b'1')?;
    }
    Ok(list)
}

fn is_bit(c: u8) -> bool
    ensures { result ≡ is_bit c }
{
    c == b'0' || c == b'1'
}

fn all_bits(word: &[u8]) -> bool
    ensures { result ≡ list_all is_bit word.now }
{
    word.iter().all(|c| is_bit(*c))
}

fn bits_of(alloc: Global, word: &[u8]) -> Result<Option<Seq<bool>>, AllocError>
    ensures { IfOk result (λ o. o ≡ bits_of word.now) }
{
    if 1 <= word.len() && all_bits(word) {
        Ok(Some(bits(alloc, word)?))
    } else {
        Ok(None)
    }
}

fn text_of(alloc: Global, word: &[u8]) -> Result<Option<Seq<u8>>, AllocError>
    ensures { IfOk result (λ o. o ≡ text_of word.now) }
{
    match word {
        [] => Ok(None),
        [b'-', ..] => Ok(None),
        _ => Ok(Some(Seq::from_slice(alloc, word)?)),
    }
}

fn replay_of(
    steps: Option<u64>,
    fails: Option<Seq<bool>>,
    input: Option<Seq<u8>>,
) -> Option<Request>
    ensures { result ≡ replay_of steps fails input }
{
    match (steps, fails, input) {
        (Some(steps), Some(fails), Some(input)) => Some(Request::Replay(Replay {
            steps,
            fails,
            input,
        })),
        _ => None,
    }
}

fn plain(alloc: Global, steps: &str) -> Option<Request>
    ensures { result ≡ replay_of (steps_of steps.now) (Some []) (Some []) }
{
    replay_of(
        steps_of(steps),
        Some(Seq::new(alloc)),
        Some(Seq::new(alloc)),
    )
}

fn with_option(
    alloc: Global,
    steps: &String,
    option: &String,
    value: &String,
) -> Result<Option<Request>, AllocError>
    ensures { IfOk result (λ r. r ≡ with_option steps.now option.now value.now) }
{
    let steps = steps_of(steps.as_str());
    match option.as_str() {
        "--fails" => {
            let fails = bits_of(alloc, value.as_bytes())?;
            Ok(replay_of(steps, fails, Some(Seq::new(alloc))))
        }
        "--input" => {
            let input = text_of(alloc, value.as_bytes())?;
            Ok(replay_of(steps, Some(Seq::new(alloc)), input))
        }
        _ => Ok(None),
    }
}

fn with_options(
    alloc: Global,
    steps: &String,
    options: (&String, &String),
    values: (&String, &String),
) -> Result<Option<Request>, AllocError>
    ensures { IfOk result (λ r. r ≡ with_options steps.now options.entry.0.now values.entry.0.now options.entry.1.now values.entry.1.now) }
{
    if options.0.as_str() != "--fails" || options.1.as_str() != "--input" {
        return Ok(None);
    }
    let fails = bits_of(alloc, values.0.as_bytes())?;
    let input = text_of(alloc, values.1.as_bytes())?;
    Ok(replay_of(steps_of(steps.as_str()), fails, input))
}

fn is_replay(command: &String, flag: &String) -> bool
    ensures { result ≡ is_replay command.now flag.now }
{
    command.as_str() == "replay" && flag.as_str() == "--steps"
}

fn repair_of(command: &String) -> Option<Request>
    ensures { result ≡ request_of (command.now ∷ []) }
{
    if command.as_str() == "repair" {
        Some(Request::Repair)
    } else {
        None
    }
}

/// What the words ask for, `None` where they are of no form that is offered.
pub(crate) fn request_of(alloc: Global, words: &[String]) -> Result<Option<Request>, AllocError>
    ensures { IfOk result (λ r. r ≡ request_of words.now) }
{
    match words {
        [command] => Ok(repair_of(command)),
        [command, flag, steps] if is_replay(command, flag) => Ok(plain(alloc, steps.as_str())),
        [command, flag, steps, option, value] if is_replay(command, flag) => {
            with_option(alloc, steps, option, value)
        }
        [command, flag, steps, fails, bits, input, text] if is_replay(command, flag) => {
            with_options(alloc, steps, (fails, input), (bits, text))
        }
        _ => Ok(None),
    }
}
