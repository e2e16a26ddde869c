// The documents of a source.
ghost use Rattle.std.specs.Prelude.{◌≡◌, ◌+◌, IfOk, IfErr, OnOk, Err};
ghost use Rattle.owned_bytes.specs.Outside.{HasCause, RisesAtMost};
ghost use Rattle.term_index.specs.Source.{Tells, Unread, IsReadWhole, TakenPast};

use crate::input::INPUT_LIMIT;
use crate::{DocumentsError, InputError, Outcome, read_documents, read_input};
use documents::Doc;
use owned_bytes::Source;
use std::alloc::Global;

/// The documents of a source, which is read to its end, or how the command ends.
pub fn load<S: Source>(alloc: Global, source: &mut S) -> Result<Vec<Doc>, Outcome>
    ensures told { IfOk result (λ docs. Tells (S.left source.old) docs.items) }
    ensures end { OnOk result (IsReadWhole (S.left source.old) (S.left source.new)) }
    ensures unread { IfErr result (λ outcome. Unread outcome (S.left source.old)) }
    ensures cause { HasCause (S.faults source.old) (S.faults source.new) (result ≡ Err Outcome.InFault) }
    ensures taken { RisesAtMost (S.taken source.old) (S.taken source.new) (INPUT_LIMIT + 1) }
    ensures too_long { result ≡ Err Outcome.InputTooLong → TakenPast INPUT_LIMIT (S.taken source.old) (S.taken source.new) }
{
    let bytes = match read_input(alloc, source) {
        Ok(bytes) => bytes,
        Err(InputError::Failed) => return Err(Outcome::InFault),
        Err(InputError::TooLong) => return Err(Outcome::InputTooLong),
        Err(InputError::Memory) => return Err(Outcome::Memory),
    };
    match read_documents(alloc, bytes.as_slice()) {
        Ok(docs) => Ok(docs),
        Err(DocumentsError::Bad) => Err(Outcome::BadInput),
        Err(DocumentsError::Memory) => Err(Outcome::Memory),
    }
}
