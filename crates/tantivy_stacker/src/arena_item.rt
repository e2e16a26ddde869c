// What can be stored in an arena.
ghost use Rattle.std.specs.Prelude.{◌≡◌, ℕ, ◌+◌, ◌≤◌, List, [], ◌∷◌, ◌++◌, length, take, drop, slice_index};
ghost use Rattle.std.specs.Int.{w16, w32, w64, to_le_bytes, from_le_bytes};

use crate::{Addr, ExpUnrolledLinkedList};

/// A value of a fixed number of bytes.
pub trait ArenaItem: Copy {
    ghost SIZE: { ℕ };

    /// The bytes that an item is stored as.
    ghost bytes: { Self → List ℕ };

    /// The item that bytes are read as.
    ghost item: { List ℕ → Self };

    /// How many bytes an item has.
    const SIZE: usize;

    /// Writes the item's bytes.
    fn to_bytes(&self, dest: &mut [u8])
        requires { length dest.old ≡ SIZE }
        ensures stored { dest.new ≡ bytes self.now }
        ensures again { item (bytes self.now) ≡ self.now };

    /// Reads the item from its bytes.
    fn from_bytes(src: &[u8]) -> Self
        requires { length src.now ≡ SIZE }
        ensures { result ≡ item src.now };

    ghost small: { SIZE ≤ 1024 };

    ghost some: { 1 ≤ SIZE };
}

impl ArenaItem for u8 {
    ghost SIZE = { 1 };

    ghost bytes = { λ x. x ∷ [] };

    ghost item = { λ bs. slice_index bs 0 };

    const SIZE: usize = 1;

    fn to_bytes(&self, dest: &mut [u8]) {
        dest[0] = *self;
    }

    fn from_bytes(src: &[u8]) -> Self {
        src[0]
    }

    ghost use Rattle.std.proofs.Common.{rules};

    ghost small = { Prim.search rules };

    ghost some = { Prim.search rules };
}

impl ArenaItem for u16 {
    ghost SIZE = { 2 };

    ghost bytes = { λ x. to_le_bytes w16 x };

    ghost item = { λ bs. from_le_bytes w16 bs };

    const SIZE: usize = 2;

    fn to_bytes(&self, dest: &mut [u8]) {
        dest.copy_from_slice(&self.to_le_bytes());
    }

    fn from_bytes(src: &[u8]) -> Self {
        match src.first_chunk::<2>() {
            Some(bytes) => u16::from_le_bytes(*bytes),
            None => unreachable!(),
        }
    }

    ghost use Rattle.std.proofs.Common.{rules};

    ghost small = { Prim.search rules };

    ghost some = { Prim.search rules };
}

impl ArenaItem for u32 {
    ghost SIZE = { 4 };

    ghost bytes = { λ x. to_le_bytes w32 x };

    ghost item = { λ bs. from_le_bytes w32 bs };

    const SIZE: usize = 4;

    fn to_bytes(&self, dest: &mut [u8]) {
        dest.copy_from_slice(&self.to_le_bytes());
    }

    fn from_bytes(src: &[u8]) -> Self {
        match src.first_chunk::<4>() {
            Some(bytes) => u32::from_le_bytes(*bytes),
            None => unreachable!(),
        }
    }

    ghost use Rattle.std.proofs.Common.{rules};

    ghost small = { Prim.search rules };

    ghost some = { Prim.search rules };
}

impl ArenaItem for u64 {
    ghost SIZE = { 8 };

    ghost bytes = { λ x. to_le_bytes w64 x };

    ghost item = { λ bs. from_le_bytes w64 bs };

    const SIZE: usize = 8;

    fn to_bytes(&self, dest: &mut [u8]) {
        dest.copy_from_slice(&self.to_le_bytes());
    }

    fn from_bytes(src: &[u8]) -> Self {
        match src.first_chunk::<8>() {
            Some(bytes) => u64::from_le_bytes(*bytes),
            None => unreachable!(),
        }
    }

    ghost use Rattle.std.proofs.Common.{rules};

    ghost small = { Prim.search rules };

    ghost some = { Prim.search rules };
}

impl ArenaItem for Addr {
    ghost SIZE = { 4 };

    ghost bytes = { λ x. to_le_bytes w32 x };

    ghost item = { λ bs. from_le_bytes w32 bs };

    const SIZE: usize = 4;

    fn to_bytes(&self, dest: &mut [u8]) {
        self.number().to_bytes(dest);
    }

    fn from_bytes(src: &[u8]) -> Self {
        Addr::from_number(u32::from_bytes(src))
    }

    ghost use Rattle.std.proofs.Common.{rules};

    ghost small = { Prim.search rules };

    ghost some = { Prim.search rules };
}

/// Writes an item's bytes.
pub fn store<Item: ArenaItem>(dest: &mut [u8], val: Item)
    requires { length dest.old ≡ Item.SIZE }
    ensures { dest.new ≡ Item.bytes val }
{
    val.to_bytes(dest);
}

/// Reads an item from its bytes.
pub fn load<Item: ArenaItem>(data: &[u8]) -> Item
    requires { length «data».now ≡ Item.SIZE }
    ensures { result ≡ Item.item «data».now }
{
    Item::from_bytes(data)
}

/// An item that pairs are made of.
pub trait SingleItem: ArenaItem {
    ghost at_most: { Self.SIZE ≤ 512 };
}

impl SingleItem for u8 {
    ghost use Rattle.std.proofs.Common.{rules};

    ghost at_most = { Prim.search rules };
}

impl SingleItem for u16 {
    ghost use Rattle.std.proofs.Common.{rules};

    ghost at_most = { Prim.search rules };
}

impl SingleItem for u32 {
    ghost use Rattle.std.proofs.Common.{rules};

    ghost at_most = { Prim.search rules };
}

impl SingleItem for u64 {
    ghost use Rattle.std.proofs.Common.{rules};

    ghost at_most = { Prim.search rules };
}

impl SingleItem for Addr {
    ghost use Rattle.std.proofs.Common.{rules};

    ghost at_most = { Prim.search rules };
}

impl SingleItem for ExpUnrolledLinkedList {
    ghost use Rattle.std.proofs.Common.{rules};

    ghost at_most = { Prim.search rules };
}

impl<A: SingleItem, B: SingleItem> ArenaItem for (A, B) {
    ghost SIZE = { A.SIZE + B.SIZE };

    ghost bytes = { λ p. A.bytes p.0 ++ B.bytes p.1 };

    ghost item = { λ bs. (A.item (take A.SIZE bs), B.item (drop A.SIZE bs)) };

    const SIZE: usize = A::SIZE + B::SIZE;

    fn to_bytes(&self, dest: &mut [u8]) {
        self.0.to_bytes(&mut dest[..A::SIZE]);
        self.1.to_bytes(&mut dest[A::SIZE..]);
    }

    fn from_bytes(src: &[u8]) -> Self {
        (
            A::from_bytes(&src[..A::SIZE]),
            B::from_bytes(&src[A::SIZE..]),
        )
    }

    ghost use Rattle.std.proofs.Common.{arith};

    ghost small = { Prim.omega (arith, A.at_most, B.at_most) };

    ghost some = { Prim.omega (arith, A.some) };
}
