// A question over documents in memory, from the text of the documents to the text of the answer.
use crate::generated;
use owned_bytes::{BytesFile, OwnedBytes, SliceSource, VecSink};
use std::time::{Clock, Instant};
use term_index::{Word, run};

/// Prints how long a question over so many documents takes.
pub fn time<R: Clock + Print + AllocGlobal>(rt: &R, count: u32) -> anyhow::Result<()> {
    let alloc = rt.alloc();
    let text = generated::text_of(alloc, count)?;
    let mut words = Vec::new(alloc);
    for word in ["ask", "title", "kind:\"k1\" AND tag:\"t7\""] {
        words.push(Word::new(alloc, word)?)?;
    }
    let mut docs = SliceSource::new(text.as_bytes());
    let mut file = BytesFile::new(OwnedBytes::empty(alloc)?);
    let mut store = VecSink::new(alloc);
    let mut out = VecSink::new(alloc);
    let start = Instant::now(rt)?;
    let outcome = run(
        alloc,
        words.as_slice(),
        &mut docs,
        &mut file,
        &mut store,
        &mut out,
    );
    let micros = start.elapsed(rt)?.as_micros();
    let status = outcome.status();
    let length = text.len();
    println!(rt; "ask: {count} documents, {length} bytes: {micros} us, status {status}")?;
    Ok(())
}
