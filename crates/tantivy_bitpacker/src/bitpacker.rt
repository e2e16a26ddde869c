// A writer that packs numbers.
ghost use Rattle.std.specs.Prelude.{◌≡◌, ℕ, ◌+◌, ◌*◌, ◌/◌, ◌%◌, ◌^◌, ◌<◌, ◌≤◌, List, [], Option, OnOk, OnErr, Err, length, drop};
ghost use Rattle.owned_bytes.specs.Outside.{HasCause, WritesAll};
ghost use Rattle.tantivy_bitpacker.specs.Packed.{no_bits, with_value, words_with, open_word, whole_bytes, bytes_of, HasPacked, PacksNext, PacksLast};

use owned_bytes::{Sink, SinkError};
use std::marker::Model;

/// Packs numbers one after the other, each at a width of its own, least bit first and without gaps. It holds back
/// the bits of the word of eight bytes that is not full yet.
#[derive(Drop)]
pub struct BitPacker {
    mini_buffer: u64,
    mini_buffer_written: u8,
}

impl Model for BitPacker {
    ghost use Rattle.std.specs.Prelude.{ℕ, ◌^◌, ◌<◌};
    ghost use Rattle.tantivy_bitpacker.specs.Packed.{Bits};

    ghost Value = { Bits };

    ghost view = { λ p. record { number = p.mini_buffer; count = p.mini_buffer_written } };

    ghost invariant = { λ p. (p.mini_buffer_written < 64) × (p.mini_buffer < 2 ^ p.mini_buffer_written) };
}

// The low eight bytes of the open bits with a value above them.
#[inline]
fn low_word(held: u64, written: u8, val: u64) -> u64
    requires written { written < 64 }
    requires held { held < 2 ^ written }
    ensures { result ≡ (held + 2 ^ written * val) % 2 ^ 64 }
{
    held | (val << written)
}

// What stands above these eight bytes.
#[inline]
fn high_word(held: u64, written: u8, val: u64) -> u64
    requires written { written < 64 }
    requires held { held < 2 ^ written }
    ensures { result ≡ (held + 2 ^ written * val) / 2 ^ 64 }
{
    if written == 0 {
        0
    } else {
        val >> (64 - written)
    }
}

// Writes the first bytes of a word.
fn write_word<W: Sink>(word: u64, num_bytes: usize, output: &mut W) -> Result<(), SinkError>
    requires { num_bytes ≤ 8 }
    ensures bytes { WritesAll (W.written output.old) (W.written output.new) result (bytes_of num_bytes word) }
    ensures cause { HasCause (W.faults output.old) (W.faults output.new) (result ≡ Err SinkError.Failed) }
{
    let bytes = word.to_le_bytes();
    output.write_all(&bytes[..num_bytes])
}

impl BitPacker {
    /// A packer that holds no bits back.
    pub fn new() -> BitPacker
        ensures empty { result ≡ no_bits }
        ensures run { (sink : Option (List ℕ)) → HasPacked [] result sink sink }
    {
        BitPacker {
            mini_buffer: 0,
            mini_buffer_written: 0,
        }
    }

    /// Packs `val` in `num_bits` bits. Each word of eight bytes that gets full goes to `output`.
    #[inline]
    pub fn write<W: Sink>(
        &mut self,
        val: u64,
        num_bits: u8,
        output: &mut W,
    ) -> Result<(), SinkError>
        requires width { num_bits ≤ 64 }
        requires fits { val < 2 ^ num_bits }
        ensures bytes { WritesAll (W.written output.old) (W.written output.new) result (words_with self.old val num_bits) }
        ensures ok { OnOk result (self.new ≡ open_word (with_value self.old val num_bits)) }
        ensures err { OnErr result (self.new ≡ self.old) }
        ensures cause { HasCause (W.faults output.old) (W.faults output.new) (result ≡ Err SinkError.Failed) }

        // Over a run of writes, the values' bits in order, least bit first, without gaps.
        ensures run { OnOk result (PacksNext val num_bits self.old self.new (W.written output.old) (W.written output.new)) }
    {
        let written = self.mini_buffer_written;
        let total = written + num_bits;
        let word = low_word(self.mini_buffer, written, val);
        if total < 64 {
            self.mini_buffer = word;
            self.mini_buffer_written = total;
            return Ok(());
        }
        write_word(word, 8, output)?;
        self.mini_buffer = high_word(self.mini_buffer, written, val);
        self.mini_buffer_written = total - 64;
        Ok(())
    }

    /// Writes the bits that are held back in the least number of whole bytes, the bits left over being 0.
    pub fn flush<W: Sink>(&mut self, output: &mut W) -> Result<(), SinkError>
        ensures bytes { WritesAll (W.written output.old) (W.written output.new) result (whole_bytes self.old) }
        ensures ok { OnOk result (self.new ≡ no_bits) }
        ensures err { OnErr result (self.new ≡ self.old) }
        ensures cause { HasCause (W.faults output.old) (W.faults output.new) (result ≡ Err SinkError.Failed) }
        ensures run { OnOk result (PacksLast self.old (W.written output.old) (W.written output.new)) }
    {
        let written = self.mini_buffer_written;
        if written == 0 {
            return Ok(());
        }
        let num_bytes = (written as usize + 7) / 8;
        write_word(self.mini_buffer, num_bytes, output)?;
        self.mini_buffer = 0;
        self.mini_buffer_written = 0;
        Ok(())
    }

    /// Flushes.
    pub fn close<W: Sink>(&mut self, output: &mut W) -> Result<(), SinkError>
        ensures bytes { WritesAll (W.written output.old) (W.written output.new) result (whole_bytes self.old) }
        ensures ok { OnOk result (self.new ≡ no_bits) }
        ensures err { OnErr result (self.new ≡ self.old) }
        ensures cause { HasCause (W.faults output.old) (W.faults output.new) (result ≡ Err SinkError.Failed) }
        ensures run { OnOk result (PacksLast self.old (W.written output.old) (W.written output.new)) }
    {
        self.flush(output)
    }
}

impl Default for BitPacker {
    ghost is_default = { λ packer. packer ≡ no_bits };

    fn default() -> Self {
        BitPacker::new()
    }
}
