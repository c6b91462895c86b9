//! The program: the command over standard input, output and error.
#![tactic(auto)]

ghost use Rattle.std.specs.Prelude.{◌≡◌, ◌⊎◌, None};
ghost use Rattle.std.specs.IoError.{error_kind};
ghost use Rattle.memfix_engine.specs.Command.{IsStatus};
ghost use Rattle.memfix_engine.specs.Request.{request_of};
ghost use Rattle.memfix_cli.specs.Ending.{status_without_words};

use memfix_engine::memfix;
use mf_io::{StdSink, StdSource};
use std::io::ErrorKind;
use std::process::ExitCode;
use std::{env, io};

/// The words without the program's own name.
fn words(rt: &HostRuntime) -> io::Result<Vec<String>> {
    let mut words = Vec::new(rt.alloc());
    for word in env::args(rt)?.skip(1) {
        words.push(word)?;
    }
    Ok(words)
}

/// The status where the system can't give the words. One that isn't UTF-8 is such a word.
fn status_without_words(error: &io::Error) -> u8
    ensures { result ≡ status_without_words (error_kind error.now) }
{
    match error.kind() {
        ErrorKind::OutOfMemory => 7,
        _ => 10,
    }
}

fn run(rt: &HostRuntime, words: &[String]) -> u8
    ensures statuses { IsStatus result }
    ensures other_words { request_of words.now ≡ None → (result ≡ 2) ⊎ ((result ≡ 6) ⊎ (result ≡ 7)) }
{
    let mut source = StdSource::new(rt.stdin());
    let mut output = StdSink::new(rt.stdout());
    let mut notes = StdSink::new(rt.stderr());
    memfix(rt.alloc(), words, &mut source, &mut output, &mut notes)
}

fn main(rt: HostRuntime) -> ExitCode {
    let status = match words(&rt) {
        Ok(words) => run(&rt, words.as_slice()),
        Err(error) => status_without_words(&error),
    };
    ExitCode::from(status)
}
