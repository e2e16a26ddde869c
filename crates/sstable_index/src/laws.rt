// Laws of indexes, for the proofs of callers.
ghost use Rattle.sstable_index.specs.Laws.{TablesCanHave, UsableIndexesAreInOrder};

use sstable_blocks::ValueReader;

/// An index that a table has is usable. It does nothing.
pub fn tables_can_have<T: ValueReader>()
    ensures { TablesCanHave T.codec }
{}

/// The entries of a usable index are in order. It does nothing.
pub fn usable_indexes_are_in_order()
    ensures { UsableIndexesAreInOrder }
{}
