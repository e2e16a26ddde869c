// The bytes of an index file.
ghost use Rattle.std.specs.Prelude.{◌≡◌, ◌≤◌, ◌*◌, IfOk};
ghost use Rattle.documents.specs.Documents.{AreValidDocuments, documents_size};
ghost use Rattle.index_writing.specs.Emitting.{IsReadyIndex};

use crate::gather::gather;
use crate::numbers::{count_of_numbers, pack_numbers, write_header};
use crate::table::append_table;
use documents::Doc;
use index_file::width_of;
use owned_bytes::VecSink;
use std::alloc::{AllocError, Global};

/// The size of documents that a page takes.
pub const PAGE_SIZE: u64 = 900_000;

/// How many pages there are at most.
pub const MOST_PAGES: u32 = 4096;

/// An index file of the documents.
pub(crate) fn index_bytes(alloc: Global, docs: &[Doc]) -> Result<VecSink, AllocError>
    requires valid { AreValidDocuments docs.now }
    requires small { documents_size docs.now ≤ PAGE_SIZE * MOST_PAGES }
    ensures { IfOk result (λ file. IsReadyIndex docs.now file) }
{
    let postings = gather(alloc, docs)?;
    let count = count_of_numbers(postings.as_slice());
    let documents = docs.len() as u32;
    let mut sink = VecSink::new(alloc);
    write_header(documents, count, &mut sink)?;
    pack_numbers(postings.as_slice(), width_of(documents), &mut sink)?;
    append_table(alloc, postings.as_slice(), sink)
}
