// Bytes off the front of a source.
ghost use Rattle.std.specs.Prelude.{◌≡◌, ◌≢◌, ◌≤◌, IfErr, ℕ, List, length};
ghost use Rattle.owned_bytes.specs.Outside.{HasCause};
ghost use Rattle.common_wire.specs.Taking.{byte, bytes_of};
ghost use Rattle.common_wire.specs.Serialized.{SourceFailed, Takes};

use crate::WireError;
use owned_bytes::Source;

// The next byte.
pub(crate) fn read_byte<R: Source>(reader: &mut R) -> Result<u8, WireError>
    ensures bytes { Takes (λ b. b) byte (R.left reader.old) (R.left reader.new) result }
    ensures cause { HasCause (R.faults reader.old) (R.faults reader.new) (SourceFailed result) }
    ensures taken { R.taken reader.old ≤ R.taken reader.new }
    ensures no_memory { IfErr result (λ e. e ≢ WireError.Memory) }
{
    let mut buf = [0u8; 1];
    match reader.read(&mut buf) {
        Ok(0) => Err(WireError::Ended),
        Ok(_) => Ok(buf[0]),
        Err(_) => Err(WireError::Failed),
    }
}

// Fills the buffer with the next bytes.
pub(crate) fn read_exact<R: Source>(reader: &mut R, buf: &mut [u8]) -> Result<(), WireError>
    ensures bytes { Takes (λ _. buf.new) (bytes_of (length buf.old)) (R.left reader.old) (R.left reader.new) result }
    ensures cause { HasCause (R.faults reader.old) (R.faults reader.new) (SourceFailed result) }
    ensures taken { R.taken reader.old ≤ R.taken reader.new }
    ensures no_memory { IfErr result (λ e. e ≢ WireError.Memory) }
{
    let mut at = 0;
    while at < buf.len() {
        match reader.read(&mut buf[at..]) {
            Ok(0) => return Err(WireError::Ended),
            Ok(count) => at += count,
            Err(_) => return Err(WireError::Failed),
        }
    }
    Ok(())
}

// The next N bytes.
pub(crate) fn read_array<R: Source, const N: usize>(reader: &mut R) -> Result<[u8; N], WireError>
    ensures bytes { Takes (λ bytes. bytes) (bytes_of N) (R.left reader.old) (R.left reader.new) result }
    ensures cause { HasCause (R.faults reader.old) (R.faults reader.new) (SourceFailed result) }
    ensures taken { R.taken reader.old ≤ R.taken reader.new }
    ensures no_memory { IfErr result (λ e. e ≢ WireError.Memory) }
{
    let mut buf = [0u8; N];
    match read_exact(reader, &mut buf) {
        Ok(()) => Ok(buf),
        Err(e) => Err(e),
    }
}
