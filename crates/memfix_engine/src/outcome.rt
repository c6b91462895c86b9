//! What a call of the command comes to, before anything is written.
ghost use Rattle.std.specs.Prelude.{◌≡◌, ◌≤◌, ◌⊎◌, Some, None};
ghost use Rattle.memfix_engine.specs.declared.request.Request.{Request as Asked};
ghost use Rattle.memfix_engine.specs.declared.request.Request.TheVariants.{Repair, Replay as Again};
ghost use Rattle.memfix_engine.specs.Analysis.{IsAlone};
ghost use Rattle.memfix_engine.specs.Repair.{OfProgram};
ghost use Rattle.memfix_engine.specs.Replay.{Replays};
ghost use Rattle.memfix_engine.specs.Outcome.{ComesTo, ComesOf, IsWithin, outcome_of_refusal};
ghost use Rattle.memfix_engine.specs.Refusal.{RefusesSource};
ghost use Rattle.memfix_engine.specs.Request.{request_of};
ghost use Rattle.memfix_engine.specs.Stream.{stream};

use crate::notes::{
    alone_line, limit_line, memory_line, read_fault_line, replay_line, source_line, together_line,
    too_long_line, usage_line,
};
use crate::refusal::{RepairRefusal, ReplayRefusal, SourceRefusal};
use crate::repairs::{SOURCE_LIMIT, repair};
use crate::replays::replay;
use crate::request::{Replay, Request, request_of};
use c_lexer::LexRefusal;
use c_meaning::Machine;
use c_tree::Limit;
use mf_io::{ReadRefusal, Source, read_all};
use mf_list::Seq;
use std::alloc::Global;

/// What a call of the command comes to. All that is to be written is made by then.
#[derive(Drop)]
pub(crate) enum Outcome {
    /// The repaired text.
    Repaired(Vec<u8>),
    /// What a run printed, and its line.
    Replayed(Seq<u8>, Vec<u8>),
    /// The line of a text that is refused as a source.
    SourceRefused(Vec<u8>),
    Usage,
    TooLong,
    /// The line of a text whose nest is too deep.
    Deep(Vec<u8>),
    /// A count of the text's program passes its limit.
    Limit(Limit),
    /// The line of an object that no free fits.
    Alone(Vec<u8>),
    /// No choice of frees covers every object.
    Together,
    ReadFault,
    Memory,
}

impl Outcome {
    ghost use Rattle.std.specs.Prelude.{◌≡◌};
    ghost use Rattle.memfix_engine.specs.Outcome.{status_of, notes_of};

    pub(crate) fn status(&self) -> u8
        ensures { result ≡ status_of self.now }
    {
        match self {
            Outcome::Repaired(_) | Outcome::Replayed(_, _) => 0,
            Outcome::SourceRefused(_) => 1,
            Outcome::Usage => 2,
            Outcome::Alone(_) | Outcome::Together => 3,
            Outcome::TooLong | Outcome::Deep(_) | Outcome::Limit(_) => 4,
            Outcome::ReadFault => 5,
            Outcome::Memory => 7,
        }
    }

    /// What is due on notes.
    pub(crate) fn notes(&self) -> &[u8]
        ensures { result.now ≡ notes_of self.now }
    {
        match self {
            Outcome::Repaired(_) => &[],
            Outcome::Replayed(_, line)
            | Outcome::SourceRefused(line)
            | Outcome::Deep(line)
            | Outcome::Alone(line) => line.as_slice(),
            Outcome::Usage => usage_line(),
            Outcome::TooLong => too_long_line(),
            Outcome::Limit(limit) => limit_line(*limit),
            Outcome::Together => together_line(),
            Outcome::ReadFault => read_fault_line(),
            Outcome::Memory => memory_line(),
        }
    }
}

/// The outcome of a text that is refused so.
fn refused(alloc: Global, bytes: &[u8], refusal: SourceRefusal) -> Outcome
    ensures { (asked : Asked) → RefusesSource bytes.now refusal → ComesOf asked bytes.now result }
{
    let Ok(line) = source_line(alloc, bytes, refusal) else {
        return Outcome::Memory;
    };
    match refusal {
        SourceRefusal::Lex(LexRefusal::Depth(_)) => Outcome::Deep(line),
        SourceRefusal::Lex(LexRefusal::Memory) | SourceRefusal::Memory => Outcome::Memory,
        SourceRefusal::Lex(_) | SourceRefusal::Parse(_) | SourceRefusal::Resolve(_) => {
            Outcome::SourceRefused(line)
        }
    }
}

/// The outcome of an object that no free fits.
fn stuck(alloc: Global, bytes: &[u8], site: usize, exit: usize) -> Outcome
    ensures { OfProgram bytes.now (λ p. IsAlone p site exit) → ComesOf Repair bytes.now result }
{
    match alone_line(alloc, bytes, site, exit) {
        Ok(line) => Outcome::Alone(line),
        Err(_) => Outcome::Memory,
    }
}

fn repaired(alloc: Global, bytes: &[u8]) -> Outcome
    ensures { ComesOf Repair bytes.now result }
{
    match repair(alloc, bytes, false) {
        Ok(text) => Outcome::Repaired(text),
        Err(RepairRefusal::TooLong) => Outcome::TooLong,
        Err(RepairRefusal::Source(refusal)) => refused(alloc, bytes, refusal),
        Err(RepairRefusal::Limit(limit)) => Outcome::Limit(limit),
        Err(RepairRefusal::Alone(site, exit)) => stuck(alloc, bytes, site, exit),
        Err(RepairRefusal::Together) => Outcome::Together,
        Err(RepairRefusal::Memory) => Outcome::Memory,
    }
}

/// The outcome of a run that came so far.
fn told(alloc: Global, bytes: &[u8], machine: Machine) -> Outcome
    ensures { (r : Replay) → Replays bytes.now r.input r.fails r.steps machine → ComesOf (Again r) bytes.now result }
{
    match replay_line(alloc, bytes, &machine) {
        Ok(line) => Outcome::Replayed(machine.output, line),
        Err(_) => Outcome::Memory,
    }
}

fn replayed(alloc: Global, bytes: &[u8], asked: &Replay) -> Outcome
    ensures { ComesOf (Again asked.now) bytes.now result }
{
    let (input, fails) = (asked.input.as_slice(), asked.fails.as_slice());
    match replay(alloc, bytes, input, fails, asked.steps) {
        Ok(machine) => told(alloc, bytes, machine),
        Err(ReplayRefusal::TooLong) => Outcome::TooLong,
        Err(ReplayRefusal::Source(refusal)) => refused(alloc, bytes, refusal),
        Err(ReplayRefusal::Memory) => Outcome::Memory,
    }
}

fn outcome_of_text(alloc: Global, bytes: &[u8], asked: &Request) -> Outcome
    ensures { ComesOf asked.now bytes.now result }
{
    match asked {
        Request::Repair => repaired(alloc, bytes),
        Request::Replay(asked) => replayed(alloc, bytes, asked),
    }
}

/// The outcome of a source that was not read to its end.
fn outcome_of_refusal(refusal: ReadRefusal) -> Outcome
    ensures { result ≡ outcome_of_refusal refusal }
{
    match refusal {
        ReadRefusal::Failed => Outcome::ReadFault,
        ReadRefusal::TooLong => Outcome::TooLong,
        ReadRefusal::Memory => Outcome::Memory,
    }
}

/// Reads the source to its end and does what is asked for.
fn outcome_of_source<S: Source>(alloc: Global, asked: &Request, source: &mut S) -> Outcome
    ensures comes { ComesTo (Some asked.now) (stream (S.left source.old) (S.left source.new) (S.faults source.old) (S.faults source.new)) result }
    ensures within { IsWithin (S.left source.old) (S.left source.new) }
    ensures never_falls { S.faults source.old ≤ S.faults source.new }
{
    match read_all(alloc, source, SOURCE_LIMIT) {
        Ok(bytes) => outcome_of_text(alloc, bytes.as_slice(), asked),
        Err(refusal) => outcome_of_refusal(refusal),
    }
}

/// Where the words ask for nothing that is offered, the source isn't read.
pub(crate) fn outcome_of<S: Source>(alloc: Global, words: &[String], source: &mut S) -> Outcome
    ensures comes { ComesTo (request_of words.now) (stream (S.left source.old) (S.left source.new) (S.faults source.old) (S.faults source.new)) result }
    ensures usage { request_of words.now ≡ None → (result ≡ Outcome.Usage) ⊎ (result ≡ Outcome.Memory) }
    ensures unread { request_of words.now ≡ None → source.new ≡ source.old }
    ensures within { IsWithin (S.left source.old) (S.left source.new) }
    ensures never_falls { S.faults source.old ≤ S.faults source.new }
{
    match request_of(alloc, words) {
        Ok(Some(asked)) => outcome_of_source(alloc, &asked, source),
        Ok(None) => Outcome::Usage,
        Err(_) => Outcome::Memory,
    }
}
