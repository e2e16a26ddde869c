// A key that waits for its value.
ghost use Rattle.std.specs.Prelude.{◌≡◌, Err, IfOk, IfErr};
ghost use Rattle.std.specs.Borrow.{sem, RestsIfErr};
ghost use Rattle.owned_bytes.specs.Outside.{HasCause};

use crate::writer::Writer;
use owned_bytes::Sink;
use sstable_index::SstWriteError;
use sstable_values::ValueWriter;

/// A key that is inserted once its value comes. Where it is dropped, it was never inserted.
pub struct KeyPending<'a, W: Sink, T: ValueWriter, K = Vec<u8>> {
    writer: &'a mut Writer<W, T>,
    // of a type parameter, so that contracts can say how the writer ends
    key: K,
}

impl<'a, W: Sink, T: ValueWriter, K: Drop> Drop for KeyPending<'a, W, T, K> {
    fn drop(self)
        ensures { self.exit.0.now ≡ self.entry.writer.now }
    {
        let KeyPending {
            writer: _writer,
            key,
        } = self;
        drop(key);
    }
}

impl<W: Sink, T: ValueWriter + Drop> Writer<W, T> {
    ghost use Rattle.sstable_tables.specs.Making.{RefusesKey, IsNextKey};
    ghost use Rattle.sstable_tables.specs.contracts.writer.Writer.{the_row};

    /// Tests whether a key may come next, and stages it.
    pub fn insert_key(&mut self, key: &[u8]) -> Result<KeyPending<'_, W, T>, SstWriteError>
        ensures* stays { sem 𝓛 (RestsIfErr (the_row W.row T.row T.Value.row T.Value.Shown.row W.Sink T.ValueWriter T.Value.StoredValue) self.entry (λ p. p.writer.ghost_name) result (λ w. w ≡ self.old)) }
        ensures same_reference { IfOk result (λ p. p.writer.ghost_name ≡ self.entry.ghost_name) }
        ensures same { IfOk result (λ p. p.writer.now ≡ self.old) }
        ensures key { IfOk result (λ p. p.key.items ≡ key.now) }
        ensures next { IfOk result (λ p. IsNextKey self.old key.now) }
        ensures refused { IfErr result (RefusesKey self.old key.now) }
    {
        match self.staged(key) {
            Ok(key) => Ok(KeyPending { writer: self, key }),
            Err(error) => Err(error),
        }
    }
}

impl<'a, W: Sink, T: ValueWriter + Drop> KeyPending<'a, W, T, Vec<u8>> {
    ghost use Rattle.sstable_tables.specs.Making.{Inserting};

    /// Inserts the key with this value.
    pub fn insert_value(self, value: &T::Value) -> Result<(), SstWriteError>
        ensures inserts { Inserting T.codec W.written self.entry.writer.now self.exit.0.now self.entry.key.items (T.Value.shown value.now) result }
        ensures cause { HasCause (W.faults self.entry.writer.now.sink) (W.faults self.exit.0.now.sink) (result ≡ Err SstWriteError.Write) }
    {
        let KeyPending { writer, key } = self;
        let inserted = writer.insert(key.as_slice(), value);
        drop(key);
        inserted
    }
}
