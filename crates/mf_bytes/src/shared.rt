// Bytes with several owners.
ghost use Rattle.std.specs.Prelude.{◌≡◌, IfOk};

use mf_list::{Memory, Seq};
use std::alloc::Global;
use std::marker::Model;
use std::rc::Rc;

/// Bytes that contracts see as a list. They have one owner or several.
#[derive(Debug, Drop)]
pub struct SharedBytes {
    bytes: Rc<Seq<u8>>,
}

impl Model for SharedBytes {
    ghost use Rattle.std.specs.Prelude.{ℕ, List};
    ghost use Rattle.std.specs.Coded.{coded_list, coded_ℕ};

    ghost Value = { List ℕ };

    ghost coded = { coded_list coded_ℕ };

    ghost view = { λ s. s.bytes.value };
}

impl SharedBytes {
    pub fn from_seq(alloc: Global, bytes: Seq<u8>) -> Result<SharedBytes, Memory>
        ensures { IfOk result (λ s. s ≡ bytes) }
    {
        let bytes = Rc::new(alloc, bytes)?;
        Ok(SharedBytes { bytes })
    }

    pub fn from_slice(alloc: Global, bytes: &[u8]) -> Result<SharedBytes, Memory>
        ensures { IfOk result (λ s. s ≡ bytes.now) }
    {
        SharedBytes::from_seq(alloc, Seq::from_slice(alloc, bytes)?)
    }

    pub fn as_slice(&self) -> &[u8]
        ensures { result.now ≡ self.now }
    {
        self.bytes.as_ref().as_slice()
    }

    /// The same bytes, with one owner more.
    pub fn share(&self) -> Result<SharedBytes, Memory>
        ensures { IfOk result (λ s. s ≡ self.now) }
    {
        let bytes = self.bytes.clone()?;
        Ok(SharedBytes { bytes })
    }
}
