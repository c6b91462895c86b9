// The cells of an object, in which only what was written takes memory.
ghost use Rattle.std.specs.Prelude.{◌≡◌, ◌<◌, length, replicate, slice_get, slice_set, OnOk, OnErr};
ghost use Rattle.c_meaning.specs.declared.value.Value.TheVariants.{Undef};

use crate::value::Value;
use std::alloc::{AllocError, Global};
use std::collections::BTreeMap;
use std::marker::Model;

/// The cells of an object, seen as their list. Only cells that were written take memory.
#[derive(Debug, Drop)]
pub struct Cells {
    count: usize,
    written: BTreeMap<usize, Value>,
}

impl Model for Cells {
    ghost use Rattle.std.specs.Prelude.{List};
    ghost use Rattle.std.specs.Ordering.{nat_cmp};
    ghost use Rattle.std.specs.BTreeMap as tree;
    ghost use Rattle.c_meaning.specs.declared.value.Value as content;
    ghost use Rattle.c_meaning.specs.Cells.{cells_from};

    ghost Value = { List content.Value };

    ghost view = { λ c. cells_from (tree.get nat_cmp c.written) 0 c.count };
}

impl Cells {
    /// That many cells, all indeterminate.
    pub fn new(alloc: Global, count: usize) -> Cells
        ensures { result ≡ replicate count Undef }
    {
        Cells {
            count,
            written: BTreeMap::new(alloc),
        }
    }

    pub fn len(&self) -> usize
        ensures { result ≡ length self.now }
    {
        self.count
    }

    pub fn get(&self, at: usize) -> Option<Value>
        ensures { result ≡ slice_get self.now at }
    {
        if at >= self.count {
            return None;
        }
        match self.written.get(&at) {
            Some(value) => Some(*value),
            None => Some(Value::Undef),
        }
    }

    pub fn set(&mut self, at: usize, value: Value) -> Result<(), AllocError>
        requires { at < length self.old }
        ensures ok { OnOk result (self.new ≡ slice_set self.old at value) }
        ensures err { OnErr result (self.new ≡ self.old) }
    {
        self.written.insert(at, value)?;
        Ok(())
    }
}
