// Where the reading of a query stands.
ghost use Rattle.std.specs.Prelude.{◌≡◌};
ghost use Rattle.tantivy_query_grammar.specs.FieldStarts.{field_starts};

/// The characters that are left, and at each of them whether a field with its colon stands there.
///
/// The second list is made once for a whole query. A field may go on over line feeds, so looking
/// for its colon at each word anew would read the rest of the text each time.
#[derive(Clone, Copy)]
pub struct Cursor<'a> {
    pub text: &'a [char],
    pub starts: &'a [bool],
    ghost fits: { starts.now ≡ field_starts text.now },
}
