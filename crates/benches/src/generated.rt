// Generated documents, as the text that a program reads.
use std::alloc::{AllocError, Global};

/// The text of so many documents: an identifier, a kind, four tags and a title.
pub fn text_of(alloc: Global, count: u32) -> Result<String, AllocError> {
    let mut text = String::new(alloc);
    text.push_str("[")?;
    for number in 0..count {
        if number > 0 {
            text.push_str(",")?;
        }
        text.push_str(document(alloc, number)?.as_str())?;
    }
    text.push_str("]")?;
    Ok(text)
}

fn document(alloc: Global, number: u32) -> Result<String, AllocError> {
    let kind = number % 4;
    let tag = number % 199;
    let other = number / 7 % 211;
    let title = number / 3 % 4999;
    format!(in alloc;
        "{{\"id\":\"{number}\",\"kind\":\"k{kind}\",\"tag\":[\"t{tag}\",\"t{other}\",\"t1\",\"t2\"],\"title\":\"w{title}\"}}"
    )
}
