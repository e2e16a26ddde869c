// Keys between the last key of a block and the first key of the next.
use block_addresses::{shorten, shortened_keys_stand_between};
use std::test::Fail;

#[test]
fn shortened_keys(rt: HostRuntime) -> Result<(), Fail> {
    shortened_keys_stand_between();
    let rows: [(&[u8], &[u8], &[u8]); 8] = [
        (b"abcd", b"abzz", b"abce"),
        (b"aaaaaa", b"b", b"ab"),
        (b"ab", b"abc", b"ab"),
        (b"", b"a", b""),
        (b"a\xff\xff\x07\x09", b"c", b"a\xff\xff\x08"),
        (b"a\xff\xfe\xff\xff", b"c", b"a\xff\xff"),
        (b"a\xff\xff", b"c", b"a\xff\xff"),
        (b"ab\xff\xff\x07\x09", b"abzzz", b"ab\xff\xff\x08"),
    ];
    for (left, right, shortened) in rows {
        let mut key = left.to_vec(rt.alloc())?;
        shorten(&mut key, right);
        assert_eq!(rt; key.as_slice(), shortened);
    }
    Ok(())
}
