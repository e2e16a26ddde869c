// The entries of a reader, each with what is known of its key, and its position.
ghost use Rattle.std.specs.Prelude.{◌≡◌, None, IfOk, IfSome, IfNone, IsSome, IsTrue};
ghost use Rattle.sstable_blocks.specs.Slices.{position};
ghost use Rattle.sstable_streams.specs.Held.{KeepsHeld};
ghost use Rattle.sstable_streams.specs.Steps.{next_of};

use crate::trail::Trail;
use common_wire::KeyTracking;
use fst_map::Automaton;
use sstable_blocks::{BlockError, DeltaReader, ValueReader};

// The first ordinal of a slice, where the reader came to one, and else the position that follows the last one.
fn first_of(ordinal: Option<u64>, next: Option<u64>) -> Option<u64>
    ensures some { IfSome result (λ ord. ord ≡ position ordinal (next_of next)) }
    ensures none { IfNone result ((ordinal ≡ None) × (next ≡ None)) }
{
    match ordinal {
        Some(ord) => Some(ord),
        None => next,
    }
}

/// Goes over the entries of a reader.
#[derive(Drop)]
pub(crate) struct Cursor<R, A, K, St> {
    pub delta_reader: R,
    pub trail: Trail<A, K, St>,
    // the positions of the last entry and of the next one, where that is below 2^64
    pub ord: u64,
    pub next: Option<u64>,
}

impl<T: ValueReader, A: Automaton, K: KeyTracking> Cursor<DeltaReader<T>, A, K, A::State> {
    ghost use Rattle.sstable_streams.specs.Streams.{LeavesFewer};
    ghost use Rattle.sstable_streams.specs.Places.{AsksForSame, StepsOver, SeeksOver};

    // Goes to the next entry; false where none is left.
    fn step(&mut self) -> Result<bool, BlockError>
        ensures same { IfOk result (λ more. IsTrue more → AsksForSame A.machine K.tracked self.old.trail self.new.trail) }
        ensures current { IfOk result (λ more. IsTrue more → IsSome self.new.delta_reader.walk.current) }
        ensures falls { LeavesFewer self.old.delta_reader self.new.delta_reader result }
        ensures held { KeepsHeld self.old.delta_reader self.new.delta_reader result }
        ensures entries { StepsOver T.codec A.machine K.tracked self.old self.new result }
    {
        match self.delta_reader.advance() {
            Ok(true) => {}
            Ok(false) => return Ok(false),
            Err(error) => return Err(error),
        }
        let ordinal = self.delta_reader.take_first_ordinal();
        let Some(ord) = first_of(ordinal, self.next) else {
            return Err(BlockError::Corrupt);
        };
        let keep = self.delta_reader.common_prefix_len();
        self.trail.follow(keep, self.delta_reader.suffix())?;
        self.ord = ord;
        self.next = ord.checked_add(1);
        Ok(true)
    }

    /// Goes to the next entry that is looked for; false where none is left.
    pub fn seek(&mut self) -> Result<bool, BlockError>
        ensures current { IfOk result (λ more. IsTrue more → IsSome self.new.delta_reader.walk.current) }
        ensures falls { LeavesFewer self.old.delta_reader self.new.delta_reader result }
        ensures held { KeepsHeld self.old.delta_reader self.new.delta_reader result }
        ensures entries { SeeksOver T.codec A.machine K.tracked self.old self.new result }
    {
        'entries: loop {
            match self.step() {
                Ok(true) => {}
                Ok(false) => return Ok(false),
                Err(error) => return Err(error),
            }
            if !self.trail.is_below_upper() {
                return Ok(false);
            }
            if self.trail.is_taken() {
                return Ok(true);
            }
        }
    }
}
