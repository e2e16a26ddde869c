//! Shared bytes that can be cut, small lists, and the traits of the outside: sinks, sources and file handles.
#![tactic(auto)]

mod boxed;
mod ends;
mod failing;
mod files;
mod items;
mod keys;
mod outside;
mod passing;
mod shared;
mod sinks;
mod sources;
mod standard;
mod texts;
mod wrap_file;

pub use boxed::Boxed;
pub use ends::{last_u32, last_u64};
pub use files::{BytesFile, MemFile};
pub use items::{CloneIn, Ids, Items};
pub use keys::{Key, KeyList};
pub use outside::{
    FileHandle, HandleError, HasLen, Sink, SinkError, Source, SourceFault, file_len,
};
pub use shared::OwnedBytes;
pub use sinks::{MemSink, VecSink};
pub use sources::{MemSource, SliceSource};
pub use standard::{StdSink, StdSource};
pub use texts::{Text, Texts};
pub use wrap_file::WrapFile;
