//! The top call: from words and bytes to a status and bytes.
ghost use Rattle.std.specs.Prelude.{◌≡◌, ◌≢◌, ◌≤◌, ◌⊎◌, ℕ, List, Some, None, true, false};
ghost use Rattle.mf_io.specs.Faults.{Rose};
ghost use Rattle.memfix_engine.specs.Command.{Done, Due, Noted, WriteFault, IsStatus, IsStatusOf, Written, Wrote};
ghost use Rattle.memfix_engine.specs.declared.request.Request.{Request};
ghost use Rattle.memfix_engine.specs.declared.request.Request.TheVariants.{Repair};
ghost use Rattle.memfix_engine.specs.Outcome.{IsWithin, is_quiet, prints, output_of, notes_of, status_of};
ghost use Rattle.memfix_engine.specs.Request.{request_of};
ghost use Rattle.memfix_engine.specs.Stream.{stream};

use crate::outcome::{Outcome, outcome_of};
use mf_io::{Sink, Source, write_all};
use std::alloc::Global;

/// Writes the piece and answers the status, or 6 where the sink fails.
fn written<K: Sink>(sink: &mut K, piece: &[u8], status: u8) -> u8
    ensures written { Written (stream (K.taken sink.old) (K.taken sink.new) (K.faults sink.old) (K.faults sink.new)) piece.now status result }
    ensures never_falls { K.faults sink.old ≤ K.faults sink.new }
{
    match write_all(sink, piece) {
        Ok(()) => status,
        Err(_) => 6,
    }
}

/// Writes the text to the output and then the line to notes.
fn both_written<K: Sink, N: Sink>(text: &[u8], line: &[u8], output: &mut K, notes: &mut N) -> u8
    ensures wrote { Wrote (stream (K.taken output.old) (K.taken output.new) (K.faults output.old) (K.faults output.new))
        (stream (N.taken notes.old) (N.taken notes.new) (N.faults notes.old) (N.faults notes.new)) (notes.new ≡ notes.old) text.now line.now 0 result }
    ensures output_never_falls { K.faults output.old ≤ K.faults output.new }
    ensures notes_never_falls { N.faults notes.old ≤ N.faults notes.new }
{
    match write_all(output, text) {
        Ok(()) => written(notes, line, 0),
        Err(_) => 6,
    }
}

/// Writes what is due: a text to the output, a line to notes.
fn finish<K: Sink, N: Sink>(outcome: &Outcome, output: &mut K, notes: &mut N) -> u8
    ensures wrote { Wrote (stream (K.taken output.old) (K.taken output.new) (K.faults output.old) (K.faults output.new))
        (stream (N.taken notes.old) (N.taken notes.new) (N.faults notes.old) (N.faults notes.new)) (notes.new ≡ notes.old)
        (output_of outcome.now) (notes_of outcome.now) (status_of outcome.now) result }
    ensures quiet { is_quiet outcome.now ≡ true → notes.new ≡ notes.old }
    ensures untouched { prints outcome.now ≡ false → output.new ≡ output.old }
    ensures output_never_falls { K.faults output.old ≤ K.faults output.new }
    ensures notes_never_falls { N.faults notes.old ≤ N.faults notes.new }
{
    match outcome {
        Outcome::Repaired(text) => written(output, text.as_slice(), 0),
        Outcome::Replayed(text, line) => {
            both_written(text.as_slice(), line.as_slice(), output, notes)
        }
        _ => written(notes, outcome.notes(), outcome.status()),
    }
}

/// Does what the words ask for, and answers the status of the process. The words don't hold the
/// program's own name; they are `repair`, or `replay --steps N [--fails BITS] [--input TEXT]` in this
/// order. All texts are made before the first byte is written.
pub fn memfix<S: Source, K: Sink, N: Sink>(
    alloc: Global,
    words: &[String],
    source: &mut S,
    output: &mut K,
    notes: &mut N,
) -> u8
    // Status 0: the source is read to its end, and what was asked for is appended to the output, for a replay its line to
    // notes too.
    ensures done { result ≡ 0 → Done (request_of words.now)
        (stream (S.left source.old) (S.left source.new) (S.faults source.old) (S.faults source.new))
        (stream (K.taken output.old) (K.taken output.new) (K.faults output.old) (K.faults output.new))
        (stream (N.taken notes.old) (N.taken notes.new) (N.faults notes.old) (N.faults notes.new)) }
    ensures quiet { result ≡ 0 → request_of words.now ≡ Some Repair → notes.new ≡ notes.old }

    // Each other status but 6 appends its line to notes, and has its cause.
    ensures line { result ≢ 0 → result ≢ 6 → Noted (stream (N.taken notes.old) (N.taken notes.new) (N.faults notes.old) (N.faults notes.new))
        (Due (request_of words.now) (stream (S.left source.old) (S.left source.new) (S.faults source.old) (S.faults source.new)) result) }
    ensures untouched { result ≢ 0 → result ≢ 6 → output.new ≡ output.old }

    // Status 6: a write failed, and nothing is written anywhere after it.
    ensures write_fault { result ≡ 6 → WriteFault (request_of words.now)
        (stream (S.left source.old) (S.left source.new) (S.faults source.old) (S.faults source.new))
        (stream (K.taken output.old) (K.taken output.new) (K.faults output.old) (K.faults output.new))
        (stream (N.taken notes.old) (N.taken notes.new) (N.faults notes.old) (N.faults notes.new))
        (output.new ≡ output.old) (notes.new ≡ notes.old) }

    ensures statuses { IsStatus result }

    // Words of no such form are refused, and the source is not read.
    ensures other_words { request_of words.now ≡ None → (result ≡ 2) ⊎ ((result ≡ 6) ⊎ (result ≡ 7)) }
    ensures unread { request_of words.now ≡ None → source.new ≡ source.old }

    // Of a source that tells its bytes, no more than 4,096 past the limit are read, whatever comes of it.
    ensures within { IsWithin (S.left source.old) (S.left source.new) }

    // Where no call fails, the bytes that are left determine the status, but for want of memory.
    ensures exact { (asked : Request) → request_of words.now ≡ Some asked
        → ¬ Rose (S.faults source.old) (S.faults source.new)
        → ¬ Rose (K.faults output.old) (K.faults output.new)
        → ¬ Rose (N.faults notes.old) (N.faults notes.new)
        → (bytes : List ℕ) → S.left source.old ≡ Some bytes → IsStatusOf asked bytes result }

    ensures source_never_falls { S.faults source.old ≤ S.faults source.new }
    ensures output_never_falls { K.faults output.old ≤ K.faults output.new }
    ensures notes_never_falls { N.faults notes.old ≤ N.faults notes.new }
{
    let outcome = outcome_of(alloc, words, source);
    finish(&outcome, output, notes)
}
