// The names and strings that were read lately, so that tokens of the same bytes share them.
ghost use Rattle.std.specs.Prelude.{◌≡◌, ◌≤◌, IfOk, IfSome};

use mf_bytes::SharedBytes;
use mf_list::{Memory, Seq};
use std::alloc::Global;

/// The number of slots for words of one and two bytes, and for all others.
const SHORT_SLOTS: usize = 4096;

const LONG_SLOTS: usize = 4096;

/// Slots, each with the last bytes that were read for it. Each name of one or two bytes has a slot of its own.
#[derive(Debug, Drop)]
pub struct Recent {
    slots: Seq<Option<SharedBytes>>,
}

/// The place of a byte of a name among the bytes of names.
fn byte_place(b: u8) -> usize
    ensures { result ≤ 62 }
{
    let place = match b {
        b'0'..=b'9' => b - b'0',
        b'A'..=b'Z' => b - b'A' + 10,
        b'a'..=b'z' => b - b'a' + 36,
        _ => 62,
    };
    usize::from(place)
}

fn slot_of(bytes: &[u8]) -> usize {
    match bytes {
        [a] => byte_place(*a) * 64 + 63,
        [a, b] => byte_place(*a) * 64 + byte_place(*b),
        _ => {
            let mut mixed = 0u32;
            for b in bytes {
                mixed = mixed.wrapping_mul(31).wrapping_add(u32::from(*b));
            }
            SHORT_SLOTS + mixed as usize % LONG_SLOTS
        }
    }
}

impl Recent {
    /// Empty slots, for a text of this size. A short text has none.
    pub fn new(alloc: Global, size: usize) -> Result<Recent, Memory> {
        let mut slots = Seq::new(alloc);
        if size > SHORT_SLOTS {
            for _ in 0..SHORT_SLOTS + LONG_SLOTS {
                slots.push(None)?;
            }
        }
        Ok(Recent { slots })
    }

    /// What a slot has, if it is these bytes.
    fn kept(&self, slot: usize, bytes: &[u8]) -> Option<&SharedBytes>
        ensures { IfSome result (λ s. s.now ≡ bytes.now) }
    {
        match self.slots.get(slot) {
            Some(Some(kept)) if kept.as_slice() == bytes => Some(kept),
            _ => None,
        }
    }

    fn keep(&mut self, slot: usize, fresh: SharedBytes) -> Result<SharedBytes, Memory>
        ensures { IfOk result (λ s. s ≡ fresh) }
    {
        if slot < self.slots.len() {
            self.slots.set(slot, Some(fresh.share()?));
        }
        Ok(fresh)
    }

    /// A name.
    pub fn name(&mut self, alloc: Global, name: &[u8]) -> Result<SharedBytes, Memory>
        ensures { IfOk result (λ s. s ≡ name.now) }
    {
        let slot = slot_of(name);
        if let Some(kept) = self.kept(slot, name) {
            return kept.share();
        }
        self.keep(slot, SharedBytes::from_slice(alloc, name)?)
    }

    /// The bytes of a string.
    pub fn string(&mut self, alloc: Global, bytes: Seq<u8>) -> Result<SharedBytes, Memory>
        ensures { IfOk result (λ s. s ≡ bytes) }
    {
        let slot = slot_of(bytes.as_slice());
        if let Some(kept) = self.kept(slot, bytes.as_slice()) {
            return kept.share();
        }
        self.keep(slot, SharedBytes::from_seq(alloc, bytes)?)
    }
}
