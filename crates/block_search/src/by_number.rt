// Going to an entry by its number.
ghost use Rattle.std.specs.Prelude.{IfErr};
ghost use Rattle.block_search.specs.ByNumber.{GoesToNumber, GoesToKey};
ghost use Rattle.block_search.specs.Standing.{StandsWhereReached, TellsCompressed};

use sstable_blocks::{BlockError, DeltaReader, ValueReader};

/// Goes to the entry of this number among those that the reader has left, of which the next one is 0; false where there are
/// not so many. Afterwards the reader stands at that entry.
pub fn go_to_number<T: ValueReader>(
    reader: &mut DeltaReader<T>,
    number: u64,
) -> Result<bool, BlockError>
    ensures found { GoesToNumber T.codec reader.old reader.new number result }
    ensures stands { StandsWhereReached reader.old reader.new result }
    ensures compressed { IfErr result (TellsCompressed reader.old) }
{
    let mut ahead = number;
    'entries: loop {
        match reader.advance() {
            Ok(true) => {}
            Ok(false) => return Ok(false),
            Err(e) => return Err(e),
        }
        if ahead == 0 {
            return Ok(true);
        }
        ahead -= 1;
    }
}

/// The same, with the entry's key in `key`, which holds the key of the entry before, or nothing before the first one. So
/// it may be called again, to go on. After false or an error `key` holds anything.
pub fn go_to_number_with_key<T: ValueReader>(
    reader: &mut DeltaReader<T>,
    number: u64,
    key: &mut Vec<u8>,
) -> Result<bool, BlockError>
    ensures found { GoesToKey T.codec reader.old reader.new number key.old.items key.new.items result }
    ensures stands { StandsWhereReached reader.old reader.new result }
    ensures compressed { IfErr result (TellsCompressed reader.old) }
{
    let mut before = number;
    'entries: loop {
        match reader.advance() {
            Ok(true) => {}
            Ok(false) => return Ok(false),
            Err(e) => return Err(e),
        }
        key.truncate(reader.common_prefix_len());
        key.extend_from_slice(reader.suffix())?;
        if before == 0 {
            return Ok(true);
        }
        before -= 1;
    }
}
