// What a source and a sink mean, and what their calls do to it.
ghost use Rattle.std.specs.Prelude.{◌≡◌, ◌<◌, ◌≤◌, ℕ, Option, List, length, take, IfOk, OnErr};
ghost use Rattle.mf_io.specs.Bytes.{Gives, Takes, Ended};
ghost use Rattle.mf_io.specs.Faults.{Rose};

/// A call that failed. What the source has left, or the sink has taken, is unchanged.
#[derive(Clone, Copy, Debug, PartialEq, Eq)]
pub struct Failed;

/// Where bytes come from.
pub trait Source {
    /// The bytes not yet given, where they are told.
    ghost left: { Self → Option (List ℕ) };

    /// How often the source has failed.
    ghost faults: { Self → ℕ };

    /// Fills the front of the room, and answers how many bytes of it.
    fn read(&mut self, room: &mut [u8]) -> Result<usize, Failed>
        ensures within { IfOk result (λ count. count ≤ length room.new) }
        ensures gives { IfOk result (λ count. Gives (left self.old) (left self.new) (take count room.new)) }

        // Nothing comes only at the end, or where there is no room.
        ensures ended { IfOk result (λ count. 0 < length room.new → count ≡ 0 → Ended (left self.old)) }

        ensures failed { OnErr result (Rose (faults self.old) (faults self.new)) }
        ensures unchanged { OnErr result (left self.new ≡ left self.old) }
        ensures never_falls { faults self.old ≤ faults self.new };

    // The count stands still at its last number.
    ghost faults_fit: { (source : Self) → faults source ≤ 18446744073709551615 };
}

/// Where bytes go to.
pub trait Sink {
    /// The bytes taken so far, where they are told.
    ghost taken: { Self → Option (List ℕ) };

    /// How often the sink has failed.
    ghost faults: { Self → ℕ };

    /// Takes the front of the piece, and answers how many bytes of it.
    fn write(&mut self, piece: &[u8]) -> Result<usize, Failed>
        ensures within { IfOk result (λ count. count ≤ length piece.now) }
        ensures takes { IfOk result (λ count. Takes (taken self.old) (taken self.new) (take count piece.now)) }
        ensures some { IfOk result (λ count. 0 < length piece.now → 0 < count) }
        ensures failed { OnErr result (Rose (faults self.old) (faults self.new)) }
        ensures unchanged { OnErr result (taken self.new ≡ taken self.old) }
        ensures never_falls { faults self.old ≤ faults self.new };

    // The count stands still at its last number.
    ghost faults_fit: { (sink : Self) → faults sink ≤ 18446744073709551615 };
}
