// The whole of writing an index.
ghost use Rattle.std.specs.Prelude.{◌≡◌, ◌≤◌, Err};
ghost use Rattle.owned_bytes.specs.Outside.{HasCause, WritesAll};
ghost use Rattle.index_writing.specs.Writes.{Writes, error_of};

use crate::errors::WriteError;
use crate::file::{MOST_PAGES, PAGE_SIZE, index_bytes};
use documents::{Doc, Fault, PlacedFault, documents_size, first_fault};
use owned_bytes::{Sink, SinkError};
use std::alloc::Global;

// The same fault.
fn error_of(found: PlacedFault) -> WriteError
    ensures { result ≡ error_of found }
{
    match found.fault {
        Fault::BadField => WriteError::BadField(found.doc, found.pair),
        Fault::KeyTooLong => WriteError::KeyTooLong(found.doc, found.pair),
    }
}

// Appends the bytes, and flushes the sink.
fn write_flushed<W: Sink>(bytes: &[u8], sink: &mut W) -> Result<(), SinkError>
    ensures bytes { WritesAll (W.written sink.old) (W.written sink.new) result bytes.now }
    ensures cause { HasCause (W.faults sink.old) (W.faults sink.new) (result ≡ Err SinkError.Failed) }
{
    sink.write_all(bytes)?;
    sink.flush()
}

/// Appends an index file of the documents to the sink, and flushes it.
///
/// The documents' numbers are their places, from 0. A document has a pair once, however often it stands there.
pub fn write_index<W: Sink>(
    alloc: Global,
    docs: &[Doc],
    sink: &mut W,
    page_limit: u32,
) -> Result<(), WriteError>
    requires some { 1 ≤ page_limit }
    requires few { page_limit ≤ MOST_PAGES }
    ensures writes { Writes docs.now page_limit (W.written sink.old) (W.written sink.new) result }
    ensures cause { HasCause (W.faults sink.old) (W.faults sink.new) (result ≡ Err WriteError.Write) }
{
    if docs.len() > u32::MAX as usize {
        return Err(WriteError::TooManyDocuments);
    }
    if let Some(found) = first_fault(docs) {
        return Err(error_of(found));
    }
    if documents_size(docs) > PAGE_SIZE * page_limit as u64 {
        return Err(WriteError::ArenaFull);
    }
    let Ok(file) = index_bytes(alloc, docs) else {
        return Err(WriteError::Memory);
    };
    match write_flushed(file.bytes(), sink) {
        Ok(()) => Ok(()),
        Err(SinkError::Memory) => Err(WriteError::Memory),
        Err(SinkError::Failed) => Err(WriteError::Write),
    }
}
