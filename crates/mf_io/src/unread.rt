// Bytes in memory that are given from the front.
ghost use Rattle.std.specs.Prelude.{◌≡◌, ◌≤◌, ◌++◌, ℕ, List, length, take, drop, min, vec_len};

use std::marker::Model;

/// Bytes in memory, without those that were given.
#[derive(Drop)]
pub struct Unread {
    bytes: Vec<u8>,
    given: usize,
}

impl Model for Unread {
    ghost Value = { List ℕ };

    ghost view = { λ unread. drop unread.given unread.bytes.items };

    ghost invariant = { λ unread. unread.given ≤ vec_len unread.bytes };
}

impl Unread {
    pub fn new(bytes: Vec<u8>) -> Unread
        ensures { result ≡ bytes.items }
    {
        Unread { bytes, given: 0 }
    }

    pub fn as_slice(&self) -> &[u8]
        ensures { result.now ≡ self.now }
    {
        &self.bytes[self.given..]
    }

    /// Gives as many bytes as the room, `most` and the bytes left allow, and answers how many.
    pub fn give(&mut self, room: &mut [u8], most: usize) -> usize
        ensures count { result ≡ min (length room.new) (min most (length self.old)) }
        ensures gives { self.old ≡ take result room.new ++ self.new }
    {
        let left = &self.bytes[self.given..];
        let count = room.len().min(most.min(left.len()));
        room[..count].copy_from_slice(&left[..count]);
        self.given += count;
        count
    }
}
