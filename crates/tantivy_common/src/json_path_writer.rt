// Paths into JSON objects as flat texts.
ghost use Rattle.std.specs.Prelude.{◌≡◌, false, OnOk, OnErr, IfOk, string_bytes};
ghost use Rattle.tantivy_common.specs.Path.{JsonPath, pushed, popped, ended, empty_path, with_segment};

use common_wire::replace_in_place;
use std::alloc::{AllocError, Global};
use std::marker::Model;

/// Stands between the segments of a path.
pub const JSON_PATH_SEGMENT_SEP: u8 = 1;

/// The same as a text.
pub const JSON_PATH_SEGMENT_SEP_STR: &str = "\u{1}";

/// Stands between a path and the value in the term of a path and a value.
pub const JSON_END_OF_PATH: u8 = 0;

/// The same as a text.
pub const JSON_END_OF_PATH_STR: &str = "\0";

/// A path that is written segment by segment.
#[derive(Drop)]
pub struct JsonPathWriter {
    path: Vec<u8>,
    indices: Vec<usize>,
    expand_dots: bool,
}

impl Model for JsonPathWriter {
    ghost use Rattle.std.specs.Prelude.{IsTrue, reverse};
    ghost use Rattle.tantivy_common.specs.Path.{JsonPath, path_code, texts_before, is_stack};

    ghost Value = { JsonPath };

    ghost coded = { path_code };

    ghost view = { λ w. record { text = w.path.items; before = texts_before w.path.items (reverse w.indices.items); expand_dots = w.expand_dots } };

    ghost invariant = { λ w. IsTrue (is_stack w.path.items (reverse w.indices.items)) };
}

impl JsonPathWriter {
    /// The path without segments, in which dots stay.
    pub fn new(alloc: Global) -> Self
        ensures { result ≡ empty_path false }
    {
        JsonPathWriter::with_expand_dots(alloc, false)
    }

    /// The path without segments.
    pub fn with_expand_dots(alloc: Global, expand_dots: bool) -> Self
        ensures { result ≡ empty_path expand_dots }
    {
        JsonPathWriter {
            path: Vec::new(alloc),
            indices: Vec::new(alloc),
            expand_dots,
        }
    }

    /// Whether the segments of later pushes are cut at their dots, so that `a.b` is pushed as `a` and `b` would be.
    pub fn set_expand_dots(&mut self, expand_dots: bool)
        ensures { self.new ≡ record self.old { expand_dots = expand_dots } }
    {
        self.expand_dots = expand_dots;
    }

    /// Appends a segment.
    pub fn push(&mut self, segment: &str) -> Result<(), AllocError>
        ensures ok { OnOk result (self.new ≡ pushed self.old segment.now) }
        ensures err { OnErr result (self.new ≡ self.old) }

        // A pop undoes it.
        ensures undone { OnOk result (popped self.new ≡ self.old) }
    {
        let start = self.path.len();
        let separated = !self.indices.is_empty();
        append(&mut self.path, separated, segment, self.expand_dots)?;
        if self.indices.push(start).is_err() {
            self.path.truncate(start);
            return Err(AllocError);
        }
        Ok(())
    }

    /// Appends the end mark to the path.
    pub fn set_end(&mut self) -> Result<(), AllocError>
        ensures ok { OnOk result (self.new ≡ ended self.old) }
        ensures err { OnErr result (self.new ≡ self.old) }
    {
        self.path.push(JSON_END_OF_PATH)?;
        Ok(())
    }

    /// Goes back to where the last push began. Does nothing where there is none.
    pub fn pop(&mut self)
        ensures { self.new ≡ popped self.old }
    {
        if let Some(start) = self.indices.pop() {
            self.path.truncate(start);
        }
    }

    /// Takes all segments out.
    pub fn clear(&mut self)
        ensures { self.new ≡ empty_path self.old.expand_dots }
    {
        self.path.clear();
        self.indices.clear();
    }

    /// The path as a text.
    pub fn as_str(&self) -> &str
        ensures { result.now ≡ self.now.text }
    {
        unsafe { str::from_utf8_unchecked(self.path.as_slice()) }
    }

    /// The same path, in memory of its own.
    pub fn clone(&self, alloc: Global) -> Result<JsonPathWriter, AllocError>
        ensures { IfOk result (λ copy. copy ≡ self.now) }
    {
        Ok(JsonPathWriter {
            path: Vec::from_slice(alloc, self.path.as_slice())?,
            indices: Vec::from_slice(alloc, self.indices.as_slice())?,
            expand_dots: self.expand_dots,
        })
    }
}

// Appends a segment, after a separator where one is due.
fn append(
    path: &mut Vec<u8>,
    separated: bool,
    segment: &str,
    expand_dots: bool,
) -> Result<(), AllocError>
    ensures ok { OnOk result (path.new.items ≡ with_segment path.old.items separated expand_dots segment.now) }
    ensures err { OnErr result (path.new.items ≡ path.old.items) }
{
    let start = path.len();
    if separated {
        path.push(JSON_PATH_SEGMENT_SEP)?;
    }
    let first = path.len();
    if path.extend_from_slice(segment.as_bytes()).is_err() {
        path.truncate(start);
        return Err(AllocError);
    }
    if expand_dots {
        replace_in_place(b'.', JSON_PATH_SEGMENT_SEP, &mut path[first..]);
    }
    Ok(())
}

impl From<JsonPathWriter> for String {
    ghost from_gives = { λ path text. string_bytes text ≡ path.text };

    fn from(value: JsonPathWriter) -> String {
        let JsonPathWriter { path, .. } = value;
        unsafe { String::from_utf8_unchecked(path) }
    }
}
