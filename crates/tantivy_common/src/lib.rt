//! Sets, bounds, dates, groups and paths of a search engine, with the bytes of values.
#![tactic(auto)]

mod bounds;
mod json_path_writer;
mod laws;
mod versatile_buffer;

pub use bounds::{
    BoundsRange, TransformBound, inner_bound, map_bound, map_bound_res, transform_bound_inner,
    transform_bound_inner_res,
};
pub use common_bitset::{
    BitSet, BitSetElements, BitSetIter, Misfit, ReadOnlyBitSet, TinySet, TinySetIterator,
    intersect_bitsets,
};
pub use common_dates::{DateTime, DateTimePrecision};
pub use common_groups::{GroupByIterator, GroupByIteratorExtended, GroupIterator, groups_are_runs};
pub use common_wire::{
    AntiCallToken, BinarySerializable, ByteCount, CountingWriter, DeserializeFrom, FileChunks,
    FileSlice, FixedSize, KeyTracking, MAX_LENGTH, SliceHandle, TerminatingWrite, VInt, VIntU128,
    WireError, WithoutKeys, i64_to_u64, is_u32_vint, no_spelling_begins_another, read_part,
    read_u32_vint, read_u32_vint_no_advance, replace_in_place, serialize_vint_u32,
    serialize_vint_u128, signed_numbers_keep_their_order, u32_vint_is_a_vint, u64_to_i64,
    write_u32_vint, written_is_read_again,
};
pub use json_path_writer::{
    JSON_END_OF_PATH, JSON_END_OF_PATH_STR, JSON_PATH_SEGMENT_SEP, JSON_PATH_SEGMENT_SEP_STR,
    JsonPathWriter,
};
pub use laws::pushed_segments_are_joined;
pub use owned_bytes::{
    Boxed, BytesFile, CloneIn, FileHandle, HandleError, HasLen, Ids, Items, Key, KeyList, MemFile,
    MemSink, MemSource, OwnedBytes, Sink, SinkError, SliceSource, Source, SourceFault, StdSink,
    StdSource, Text, Texts, VecSink, WrapFile, file_len, last_u32, last_u64,
};
pub use versatile_buffer::{ClearOnDrop, VersatileBuffer};
