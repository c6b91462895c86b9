// A source and a sink over std's readers and writers. As such they tell nothing of the bytes.
ghost use Rattle.std.specs.Prelude.{◌≡◌, ◌<◌, ◌≤◌, length, take, None, IfOk, OnOk, OnErr};
ghost use Rattle.std.specs.Io.KnownBytes.{Appends, ReadConsumes};
ghost use Rattle.mf_io.specs.Faults.{next_count};

use crate::{Failed, Sink, Source};
use std::io;
use std::io::{Read, Write};

/// A reader as a source. Each error of the reader is a fault.
#[derive(Drop)]
pub struct StdSource<R> {
    pub reader: R,
    pub faults: u64,
    ghost faults_fit: { faults ≤ 18446744073709551615 },
}

impl<R: Read> StdSource<R> {
    pub fn new(reader: R) -> StdSource<R>
        ensures reader { result.reader ≡ reader }
        ensures faults { result.faults ≡ 0 }
    {
        StdSource { reader, faults: 0 }
    }
}

impl<R: Read> Source for StdSource<R> {
    ghost left = { λ source. None };

    ghost faults = { λ source. source.faults };

    ghost faults_fit = { λ source. source.faults_fit };

    fn read(&mut self, room: &mut [u8]) -> Result<usize, Failed>
        ensures within { IfOk result (λ count. count ≤ length room.new) }

        // What the reader tells of its bytes.
        ensures reads { ReadConsumes (R.remaining self.old.reader) (R.remaining self.new.reader) result room.new }

        ensures no_fault { OnOk result (self.new.faults ≡ self.old.faults) }
        ensures fault { OnErr result (self.new.faults ≡ next_count self.old.faults) }
    {
        match self.reader.read(room) {
            Ok(count) => Ok(count),
            Err(_) => {
                self.faults = self.faults.saturating_add(1);
                Err(Failed)
            }
        }
    }
}

/// A writer as a sink. It is flushed after each piece. Each error of the writer is a fault, and so is
/// a piece that isn't empty and of which nothing is taken.
#[derive(Drop)]
pub struct StdSink<W> {
    pub writer: W,
    pub faults: u64,
    ghost faults_fit: { faults ≤ 18446744073709551615 },
}

impl<W: Write> StdSink<W> {
    pub fn new(writer: W) -> StdSink<W>
        ensures writer { result.writer ≡ writer }
        ensures faults { result.faults ≡ 0 }
    {
        StdSink { writer, faults: 0 }
    }
}

impl<W: Write> Sink for StdSink<W> {
    ghost taken = { λ sink. None };

    ghost faults = { λ sink. sink.faults };

    ghost faults_fit = { λ sink. sink.faults_fit };

    fn write(&mut self, piece: &[u8]) -> Result<usize, Failed>
        ensures within { IfOk result (λ count. count ≤ length piece.now) }
        ensures some { IfOk result (λ count. 0 < length piece.now → 0 < count) }

        // What the writer tells of its bytes.
        ensures writes { IfOk result (λ count.
            Appends (W.contents self.old.writer) (W.contents self.new.writer) (take count piece.now)) }

        ensures no_fault { OnOk result (self.new.faults ≡ self.old.faults) }
        ensures fault { OnErr result (self.new.faults ≡ next_count self.old.faults) }
    {
        match write_through(&mut self.writer, piece) {
            Ok(count) if count > 0 || piece.is_empty() => Ok(count),
            _ => {
                self.faults = self.faults.saturating_add(1);
                Err(Failed)
            }
        }
    }
}

fn write_through<W: Write>(writer: &mut W, piece: &[u8]) -> io::Result<usize>
    ensures within { IfOk result (λ count. count ≤ length piece.now) }
    ensures writes { IfOk result (λ count. Appends (W.contents writer.old) (W.contents writer.new) (take count piece.now)) }
{
    let count = writer.write(piece)?;
    writer.flush()?;
    Ok(count)
}
