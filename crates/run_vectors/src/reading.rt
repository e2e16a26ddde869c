// Documents as bytes, and what reading them answers.
use owned_bytes::SliceSource;
use std::test::Fail;
use term_index::{DocumentsError, read_documents, read_input};

#[test]
fn documents_are_read(rt: HostRuntime) -> Result<(), Fail> {
    let docs = read_documents(rt.alloc(), b"[{\"f\":[\"a\",\"b\"],\"g\":\"c\"},{}]")?;
    assert_eq!(rt; docs.len(), 2);
    assert_eq!(rt; docs.first().map_or(0, |doc| doc.pairs.len()), 3);
    assert_eq!(rt;
        read_documents(rt.alloc(), b"{}").err(),
        Some(DocumentsError::Bad)
    );
    Ok(())
}

#[test]
fn an_input_is_read(rt: HostRuntime) -> Result<(), Fail> {
    let mut source = SliceSource::new(b"one two");
    let bytes = read_input(rt.alloc(), &mut source)?;
    assert_eq!(rt; bytes.as_slice(), b"one two".as_slice());
    Ok(())
}
