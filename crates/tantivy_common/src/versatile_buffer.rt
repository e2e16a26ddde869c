// A vector that is emptied between its uses.
ghost use Rattle.std.specs.Prelude.{◌≡◌, ◌≤◌, [], IfOk, vec_capacity};

use std::alloc::{AllocError, Global};
use std::ops::{Deref, DerefMut};

/// A vector that is lent empty again and again, and keeps its memory.
#[derive(Drop)]
pub struct VersatileBuffer<A> {
    buffer: Vec<A>,
}

impl<A: Drop> VersatileBuffer<A> {
    /// A buffer without memory.
    pub fn new(alloc: Global) -> Self
        ensures { result.buffer.items ≡ [] }
    {
        VersatileBuffer {
            buffer: Vec::new(alloc),
        }
    }

    /// A buffer with memory for so many items.
    pub fn with_capacity(alloc: Global, capacity: usize) -> Result<Self, AllocError>
        ensures empty { IfOk result (λ b. b.buffer.items ≡ []) }
        ensures room { IfOk result (λ b. capacity ≤ vec_capacity b.buffer) }
    {
        Ok(VersatileBuffer {
            buffer: Vec::with_capacity(alloc, capacity)?,
        })
    }

    /// Lends the vector, which is empty.
    pub fn borrow(&mut self) -> ClearOnDrop<'_, A>
        ensures same_reference { result.lender.ghost_name ≡ self.entry.ghost_name }
        ensures empty { result.lender.now.buffer.items ≡ [] }
    {
        self.buffer.clear();
        ClearOnDrop { lender: self }
    }
}

/// A lent vector. It is emptied when it is given back.
pub struct ClearOnDrop<'a, A: Drop> {
    lender: &'a mut VersatileBuffer<A>,
}

impl<A: Drop> Deref for ClearOnDrop<'_, A> {
    type Target = Vec<A>;

    ghost deref_gives = { λ lent v. v ≡ lent.lender.now.buffer };

    fn deref(&self) -> &Vec<A>
        ensures { result.now ≡ self.now.lender.now.buffer }
    {
        &self.lender.buffer
    }
}

impl<A: Drop> DerefMut for ClearOnDrop<'_, A> {
    ghost deref_mut_gives = { λ lent v. v ≡ lent.lender.now.buffer };

    fn deref_mut(&mut self) -> &mut Vec<A>
        ensures { result.now ≡ self.old.lender.now.buffer }
    {
        &mut self.lender.buffer
    }
}

impl<A: Drop> Drop for ClearOnDrop<'_, A> {
    fn drop(self)
        ensures { self.exit.0.now.buffer.items ≡ [] }
    {
        let ClearOnDrop { lender } = self;
        lender.buffer.clear();
    }
}
