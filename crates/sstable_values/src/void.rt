// Keys alone: each has the value `()`, which takes no byte.
ghost use Rattle.sstable_values.specs.Values.{Everywhere};
ghost use Rattle.sstable_values.specs.Codec.{void};

use crate::errors::{BlockError, ValueError};
use crate::value::{ValueReader, ValueWriter};
use std::alloc::{AllocError, Global};

/// Reads no byte. Every place has the value `()`.
#[derive(Drop)]
pub struct VoidValueReader;

#[tactic(auto, unfolding(crate::specs::Codec::void))]
impl ValueReader for VoidValueReader {
    type Value = ();

    ghost codec = { void };

    ghost loaded = { λ _. Everywhere tt };

    fn new(_alloc: Global) -> Self {
        VoidValueReader
    }

    fn value(&self, _idx: usize) -> &() {
        &()
    }

    fn count(&self) -> Option<usize> {
        None
    }

    fn load(&mut self, _content: &[u8]) -> Result<usize, BlockError> {
        Ok(0)
    }
}

/// Writes no byte.
#[derive(Drop)]
pub struct VoidValueWriter;

#[tactic(auto, unfolding(crate::specs::Codec::void))]
impl ValueWriter for VoidValueWriter {
    type Value = ();

    ghost codec = { void };

    ghost written = { λ _. Everywhere tt };

    fn new(_alloc: Global) -> Self {
        VoidValueWriter
    }

    fn accepts(&self, _val: &()) -> bool {
        true
    }

    fn write(&mut self, _val: &()) -> Result<(), ValueError> {
        Ok(())
    }

    fn serialize_block(&self, _output: &mut Vec<u8>) -> Result<(), AllocError> {
        Ok(())
    }

    fn clear(&mut self) {}
}
