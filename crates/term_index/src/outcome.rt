// How a command ended.
ghost use Rattle.std.specs.Prelude.{◌≡◌, List, ℕ, Err, map};
ghost use Rattle.owned_bytes.specs.Outside.{HasCause, WritesAll};
ghost use Rattle.term_index.specs.Outcomes.{status_of, line_of, numbered_line, placed_line, HasNoNumbers, joined};

use itoa::Buffer;
use owned_bytes::{Sink, SinkError};

/// How a command ended. Documents, pairs and places in a file are numbered from 0.
#[derive(Clone, Copy, Debug, PartialEq, Eq)]
pub enum Outcome {
    Done,
    /// The words are no command form.
    Usage,
    /// The command, or this query of it, is not there yet.
    NotYet,
    /// The documents are more than 268,435,456 bytes.
    InputTooLong,
    /// The bytes are no documents.
    BadInput,
    TooManyDocuments,
    /// The field of a pair is empty or holds byte 0 or 1: the document, and the pair in it.
    BadField(u64, u64),
    /// The key of a pair is longer than 65,535 bytes: the document, and the pair in it.
    KeyTooLong(u64, u64),
    /// The documents are larger than the memory that they may take.
    ArenaFull,
    /// The query's text is refused.
    Query,
    /// The query nests deeper than 128.
    TooDeep,
    UnsupportedSlop,
    UnsupportedRegex,
    /// The index has this version.
    Version(u32),
    /// The index is damaged.
    Corrupt,
    /// The index has a compressed block at this place.
    Compressed(u64),
    /// The documents cannot be read.
    InFault,
    /// The index cannot be written.
    StoreFault,
    /// The index cannot be read.
    ReadFault,
    /// The output cannot be written.
    OutFault,
    Memory,
}

impl Outcome {
    /// The exit status of the program.
    pub fn status(&self) -> u8
        ensures { result ≡ status_of self.now }
    {
        match self {
            Outcome::Done => 0,
            Outcome::Usage => 2,
            Outcome::InputTooLong | Outcome::BadInput => 3,
            Outcome::TooManyDocuments
            | Outcome::BadField(..)
            | Outcome::KeyTooLong(..)
            | Outcome::ArenaFull => 4,
            Outcome::Query
            | Outcome::TooDeep
            | Outcome::UnsupportedSlop
            | Outcome::UnsupportedRegex => 5,
            Outcome::Version(_) | Outcome::Corrupt | Outcome::Compressed(_) => 6,
            Outcome::InFault | Outcome::StoreFault | Outcome::ReadFault | Outcome::OutFault => 7,
            Outcome::Memory => 8,
            Outcome::NotYet => 9,
        }
    }

    /// Writes what is told about the outcome, in one line; of `Done` nothing.
    pub fn print_line<P: Sink>(&self, sink: &mut P) -> Result<(), SinkError>
        ensures bytes { WritesAll (P.written sink.old) (P.written sink.new) result (line_of self.now) }
        ensures cause { HasCause (P.faults sink.old) (P.faults sink.new) (result ≡ Err SinkError.Failed) }
    {
        match self {
            Outcome::BadField(doc, pair) => write_placed(sink, "bad field ", *doc, *pair),
            Outcome::KeyTooLong(doc, pair) => write_placed(sink, "key too long ", *doc, *pair),
            Outcome::Version(version) => write_numbered(sink, "version ", u64::from(*version)),
            Outcome::Compressed(place) => write_numbered(sink, "compressed ", *place),
            _ => sink.write_all(self.fixed_line().as_bytes()),
        }
    }

    // The line of an outcome that has no numbers.
    fn fixed_line(&self) -> &'static str
        requires { HasNoNumbers self.now }
        ensures { result.now ≡ line_of self.now }
    {
        match self {
            Outcome::Usage => "usage\n",
            Outcome::NotYet => "not yet\n",
            Outcome::InputTooLong => "input too long\n",
            Outcome::BadInput => "bad input\n",
            Outcome::TooManyDocuments => "too many documents\n",
            Outcome::ArenaFull => "arena full\n",
            Outcome::Query => "query refused\n",
            Outcome::TooDeep => "query too deep\n",
            Outcome::UnsupportedSlop => "unsupported slop\n",
            Outcome::UnsupportedRegex => "unsupported regex\n",
            Outcome::Corrupt => "corrupt\n",
            Outcome::InFault => "input failed\n",
            Outcome::StoreFault => "store failed\n",
            Outcome::ReadFault => "file failed\n",
            Outcome::OutFault => "output failed\n",
            Outcome::Memory => "out of memory\n",
            _ => "",
        }
    }
}

// Writes a line of a text and a number.
fn write_numbered<P: Sink>(sink: &mut P, front: &str, number: u64) -> Result<(), SinkError>
    ensures bytes { WritesAll (P.written sink.old) (P.written sink.new) result (numbered_line front.now number) }
    ensures cause { HasCause (P.faults sink.old) (P.faults sink.new) (result ≡ Err SinkError.Failed) }
{
    let mut buffer = Buffer::new();
    write_parts(sink, &[front, buffer.format(number), "\n"])
}

// Writes a line of a text, the number of a document and that of a pair in it.
fn write_placed<P: Sink>(sink: &mut P, front: &str, doc: u64, pair: u64) -> Result<(), SinkError>
    ensures bytes { WritesAll (P.written sink.old) (P.written sink.new) result (placed_line front.now doc pair) }
    ensures cause { HasCause (P.faults sink.old) (P.faults sink.new) (result ≡ Err SinkError.Failed) }
{
    let mut first = Buffer::new();
    let mut second = Buffer::new();
    write_parts(
        sink,
        &[front, first.format(doc), " ", second.format(pair), "\n"],
    )
}

// Writes texts, one after the other.
fn write_parts<P: Sink>(sink: &mut P, parts: &[&str]) -> Result<(), SinkError>
    ensures bytes { WritesAll (P.written sink.old) (P.written sink.new) result (joined (map (λ part. part.now) parts.now)) }
    ensures cause { HasCause (P.faults sink.old) (P.faults sink.new) (result ≡ Err SinkError.Failed) }
{
    for part in parts {
        sink.write_all(part.as_bytes())?;
    }
    Ok(())
}
