// Tables as bytes, and what opening them answers.
use owned_bytes::{OwnedBytes, VecSink};
use sstable_blocks::RangeValueWriter;
use std::alloc::Global;
use std::ops::Range;
use std::test::Fail;
use tantivy_sstable::{
    Dictionary, RangeSSTable, SSTable, SstError, SstWriteError, Unfinished, Writer,
};

// The keys `f`, 0, `a` and `f`, 0, `b` with the ranges 0..2 and 2..4.
const TABLE: [u8; 47] = [
    0x0b, 0, 0, 0, 0, 3, 0, 2, 2, 0x30, 0x66, 0, 0x61, 0x12, 0x62, 0, 0, 0, 0, // blocks
    0, 0, 0, 0, 0, 0, 0, 0, // index part
    0x13, 0, 0, 0, 0, 0, 0, 0, 2, 0, 0, 0, 0, 0, 0, 0, 3, 0, 0, 0, // footer
];

const EMPTY: [u8; 32] = [
    0, 0, 0, 0, 0, 0, 0, 0, 0, 0, 0, 0, 4, 0, 0, 0, 0, 0, 0, 0, 0, 0, 0, 0, 0, 0, 0, 0, 3, 0, 0, 0,
];

// The empty key with the range 0..2.
const ONE_KEY: [u8; 41] = [
    5, 0, 0, 0, 0, 2, 0, 2, 0, 0, 0, 0, 0, 0, 0, 0, 0, 0, 0, 0, 0, 13, 0, 0, 0, 0, 0, 0, 0, 1, 0,
    0, 0, 0, 0, 0, 0, 3, 0, 0, 0,
];

const EMPTY_V2: [u8; 24] = [
    0, 0, 0, 0, 4, 0, 0, 0, 0, 0, 0, 0, 0, 0, 0, 0, 0, 0, 0, 0, 2, 0, 0, 0,
];

// Two bytes before the store offset 0.
const LONGER_INDEX: [u8; 34] = [
    0, 0, 0, 0, 1, 2, 0, 0, 0, 0, 0, 0, 0, 0, 4, 0, 0, 0, 0, 0, 0, 0, 0, 0, 0, 0, 0, 0, 0, 0, 3, 0,
    0, 0,
];

// The value at a key of a table.
fn value_at(alloc: Global, bytes: &[u8], key: &[u8]) -> Result<Option<Range<u64>>, SstError> {
    let bytes = OwnedBytes::new(alloc, bytes.to_vec(alloc)?)?;
    match Dictionary::<RangeSSTable>::from_bytes(alloc, bytes) {
        Ok((dictionary, mut file)) => dictionary.get(alloc, &mut file, key),
        Err(e) => Err(e),
    }
}

// How many keys a table says that it has.
fn num_terms(alloc: Global, bytes: &[u8]) -> Result<usize, SstError> {
    let bytes = OwnedBytes::new(alloc, bytes.to_vec(alloc)?)?;
    match Dictionary::<RangeSSTable>::from_bytes(alloc, bytes) {
        Ok((dictionary, file)) => {
            drop(file);
            Ok(dictionary.num_terms())
        }
        Err(e) => Err(e),
    }
}

#[test]
fn tables_open(rt: HostRuntime) -> Result<(), Fail> {
    let alloc = rt.alloc();
    assert_eq!(rt; num_terms(alloc, &TABLE), Ok(2));
    assert_eq!(rt; num_terms(alloc, &EMPTY), Ok(0));
    assert_eq!(rt; num_terms(alloc, &EMPTY_V2), Ok(0));
    assert_eq!(rt; num_terms(alloc, &LONGER_INDEX), Ok(0));
    Ok(())
}

#[test]
fn tables_are_refused(rt: HostRuntime) -> Result<(), Fail> {
    let alloc = rt.alloc();
    let mut table = TABLE;
    table[43] = 4;
    assert_eq!(rt; num_terms(alloc, &table), Err(SstError::Version(4)));
    table[43] = 2;
    assert_eq!(rt; num_terms(alloc, &table), Err(SstError::Corrupt));
    assert_eq!(rt; num_terms(alloc, &TABLE[..46]), Err(SstError::Version(768)));
    assert_eq!(rt; num_terms(alloc, &TABLE[44..]), Err(SstError::Corrupt));
    assert_eq!(rt; num_terms(alloc, &TABLE[43..]), Err(SstError::Corrupt));
    Ok(())
}

#[test]
fn keys_are_found(rt: HostRuntime) -> Result<(), Fail> {
    let alloc = rt.alloc();
    assert_eq!(rt; value_at(alloc, &TABLE, b"f\0a"), Ok(Some(0..2)));
    assert_eq!(rt; value_at(alloc, &TABLE, b"f\0b"), Ok(Some(2..4)));
    assert_eq!(rt; value_at(alloc, &TABLE, b"f\0"), Ok(None));
    assert_eq!(rt; value_at(alloc, &TABLE, b"f\0aa"), Ok(None));
    assert_eq!(rt; value_at(alloc, &TABLE, b"g"), Ok(None));
    assert_eq!(rt; value_at(alloc, &EMPTY, b"f\0a"), Ok(None));
    assert_eq!(rt; value_at(alloc, &EMPTY_V2, b"f\0a"), Ok(None));
    let mut table = TABLE;
    table[4] = 1;
    assert_eq!(rt;
        value_at(alloc, &table, b"f\0a"),
        Err(SstError::Compressed(0))
    );
    table[4] = 7;
    assert_eq!(rt; value_at(alloc, &table, b"f\0a"), Err(SstError::Corrupt));
    Ok(())
}

type RangeWriter = Writer<VecSink, RangeValueWriter>;

// The bytes of the table that a writer finishes.
fn finished(writer: RangeWriter) -> Result<Vec<u8>, SstWriteError> {
    match writer.finish() {
        Ok(sink) => Ok(sink.into_bytes()),
        Err(Unfinished { sink, error }) => {
            drop(sink);
            Err(error)
        }
    }
}

// The bytes of the table of these keys, each with the two next numbers.
fn table_of(alloc: Global, keys: &[&[u8]]) -> Result<Vec<u8>, SstWriteError> {
    let mut writer: RangeWriter = RangeSSTable::writer(alloc, VecSink::new(alloc));
    let mut place: u64 = 0;
    for key in keys {
        let next = place.saturating_add(2);
        writer.insert(key, &(place..next))?;
        place = next;
    }
    finished(writer)
}

// The bytes of a table of 300 keys of two bytes, each with the range from its number to the next.
fn long_table(alloc: Global) -> Result<Vec<u8>, SstWriteError> {
    let mut writer: RangeWriter = Dictionary::<RangeSSTable>::builder(alloc, VecSink::new(alloc));
    for i in 0..300u64 {
        writer.insert(&[(i / 256) as u8, (i % 256) as u8], &(i..i + 1))?;
    }
    finished(writer)
}

#[test]
fn tables_are_written(rt: HostRuntime) -> Result<(), Fail> {
    let alloc = rt.alloc();
    assert_eq!(rt; table_of(alloc, &[])?.as_slice(), EMPTY.as_slice());
    assert_eq!(rt;
        table_of(alloc, &[b"f\0a", b"f\0b"])?.as_slice(),
        TABLE.as_slice()
    );
    let one = table_of(alloc, &[b""])?;
    assert_eq!(rt; one.as_slice(), ONE_KEY.as_slice());
    assert_eq!(rt; value_at(alloc, one.as_slice(), b""), Ok(Some(0..2)));
    assert_eq!(rt;
        table_of(alloc, &[b"a", b"a"]),
        Err(SstWriteError::Unsorted)
    );
    Ok(())
}

#[test]
fn many_keys_stand_in_one_block(rt: HostRuntime) -> Result<(), Fail> {
    let alloc = rt.alloc();
    let table = long_table(alloc)?;
    assert_eq!(rt; num_terms(alloc, table.as_slice()), Ok(300));
    for i in [0, 1, 255, 256, 299u64] {
        let key = [(i / 256) as u8, (i % 256) as u8];
        assert_eq!(rt; value_at(alloc, table.as_slice(), &key), Ok(Some(i..i + 1)));
    }
    assert_eq!(rt; value_at(alloc, table.as_slice(), &[1, 44]), Ok(None));
    Ok(())
}

#[test]
fn entries_are_read_in_order(rt: HostRuntime) -> Result<(), Fail> {
    let alloc = rt.alloc();
    let mut reader = RangeSSTable::reader(alloc, OwnedBytes::new(alloc, TABLE.to_vec(alloc)?)?);
    for (key, end) in [(b"f\0a", 2), (b"f\0b", 4)] {
        assert!(rt; reader.advance()?);
        assert_eq!(rt; reader.key(), key.as_slice());
        assert_eq!(rt; reader.value().end, end);
    }
    assert!(rt; !reader.advance()?);
    assert!(rt; !RangeSSTable::create_empty_reader(alloc).advance()?);
    Ok(())
}
