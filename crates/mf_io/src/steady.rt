// A source and a sink that never fail.
ghost use Rattle.std.specs.Prelude.{◌≡◌, ◌<◌, ◌≤◌, ◌++◌, length, take, min, None, Some, Ok, IfOk, IsOk, OnErr};
ghost use Rattle.std.proofs.Common.{lit≤};

use crate::{Failed, Sink, Source, Unread};

/// A source in memory that never fails.
#[derive(Drop)]
pub struct SteadySource {
    pub left: Unread,
}

impl SteadySource {
    pub fn new(bytes: Vec<u8>) -> SteadySource
        ensures { result.left ≡ bytes.items }
    {
        SteadySource {
            left: Unread::new(bytes),
        }
    }

    /// The bytes not yet given.
    pub fn left(&self) -> &[u8]
        ensures { result.now ≡ self.now.left }
    {
        self.left.as_slice()
    }
}

impl Source for SteadySource {
    ghost left = { λ source. Some source.left };

    ghost faults = { λ source. 0 };

    ghost faults_fit = { λ source. lit≤ tt };

    /// Gives as many bytes as the room and the bytes left allow.
    fn read(&mut self, room: &mut [u8]) -> Result<usize, Failed>
        ensures count { result ≡ Ok (min (length room.new) (length self.old.left)) }
        ensures gives { IfOk result (λ count. self.old.left ≡ take count room.new ++ self.new.left) }
    {
        Ok(self.left.give(room, usize::MAX))
    }
}

/// A sink that takes all, keeps nothing and never fails.
#[derive(Drop)]
pub struct SteadySink;

impl SteadySink {
    pub fn new() -> SteadySink {
        SteadySink
    }
}

impl Sink for SteadySink {
    ghost taken = { λ sink. None };

    ghost faults = { λ sink. 0 };

    ghost faults_fit = { λ sink. lit≤ tt };

    /// Takes the whole piece.
    fn write(&mut self, piece: &[u8]) -> Result<usize, Failed>
        ensures { result ≡ Ok (length piece.now) }
    {
        Ok(piece.len())
    }
}
