// Rows of paths and buffers.
use std::test::Fail;
use tantivy_common::{JsonPathWriter, VersatileBuffer};

#[test]
fn expanded_dots(rt: HostRuntime) -> Result<(), Fail> {
    let mut path = JsonPathWriter::with_expand_dots(rt.alloc(), true);
    path.push("hello")?;
    assert_eq!(rt; path.as_str(), "hello");
    path.push("color.hue")?;
    assert_eq!(rt; path.as_str(), "hello\u{1}color\u{1}hue");
    path.pop();
    assert_eq!(rt; path.as_str(), "hello");
    path.set_end()?;
    let text = String::from(path);
    assert_eq!(rt; text.as_str(), "hello\u{0}");
    Ok(())
}

#[test]
fn a_buffer_is_lent_empty(rt: HostRuntime) -> Result<(), Fail> {
    let mut buffer = VersatileBuffer::new(rt.alloc());
    {
        let mut lent = buffer.borrow();
        lent.push(7u8)?;
        assert_eq!(rt; lent.len(), 1);
    }
    let lent = buffer.borrow();
    assert_eq!(rt; lent.len(), 0);
    Ok(())
}
