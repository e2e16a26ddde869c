//! Values as bytes: serialization, numbers of variable length, slices of files, and writers that count.
#![tactic(auto)]

mod byte_count;
mod collections;
mod counting;
mod error;
mod file_slice;
mod fixed;
mod groups;
mod key_tracking;
mod laws;
mod numbers;
mod reading;
mod serialize;
mod slice_handle;
mod terminating;
mod u32_vint;
mod vint;

pub use byte_count::ByteCount;
pub use collections::MAX_LENGTH;
pub use counting::CountingWriter;
pub use error::WireError;
pub use file_slice::{FileChunks, FileSlice, read_part};
pub use key_tracking::{KeyTracking, WithoutKeys};
pub use laws::{
    no_spelling_begins_another, signed_numbers_keep_their_order, u32_vint_is_a_vint,
    written_is_read_again,
};
pub use numbers::{i64_to_u64, replace_in_place, u64_to_i64};
pub use owned_bytes::{
    BytesFile, CloneIn, FileHandle, HandleError, HasLen, Ids, Items, Key, KeyList, MemFile,
    MemSink, MemSource, OwnedBytes, Sink, SinkError, SliceSource, Source, SourceFault, StdSink,
    StdSource, Text, Texts, VecSink, WrapFile, file_len, last_u32, last_u64,
};
pub use serialize::{BinarySerializable, DeserializeFrom, FixedSize};
pub use slice_handle::SliceHandle;
pub use terminating::{AntiCallToken, TerminatingWrite};
pub use u32_vint::{is_u32_vint, read_u32_vint, read_u32_vint_no_advance};
pub use vint::{VInt, VIntU128, serialize_vint_u32, serialize_vint_u128, write_u32_vint};
